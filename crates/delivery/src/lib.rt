// What the delivery of a frame does at a station: a reader of the tables that refuses, or says what is to be changed and sent.
#![tactic(auto)]

mod change;
mod deciding;
mod heard;
mod hearing;
mod meeting;
mod outcome;
mod places;
mod preparing;
mod sending;
mod summaries;
mod votes;
mod words;

pub use change::{Change, Delivery};
pub use deciding::decide;
pub use outcome::Outcome;
