// Small clients of runs, over every machine, with the proof that their runs have a past.
#![tactic(auto)]

mod beginning;
mod orders;
mod sends;

pub use orders::order_one;
pub use sends::send_some;
