// A sheet of gate orders: a line of two numbers gives a board, and one of five an order for it.
#![tactic(auto)]

mod reply;
mod run;
mod show;

pub use reply::{Entry, Reply, Sheet, Standing};
