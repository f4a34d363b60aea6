// The numbers of a run, the tables that are lent to each of its calls, and what can be read of them.
#![tactic(auto)]

mod clear;
mod fit;
mod laying;
mod numbers;
mod reading;
mod snapshot;
mod stations;
mod tables;

pub use numbers::{Numbers, Setup};
pub use snapshot::Snapshot;
pub use stations::Station;
pub use tables::{Counts, Entry, Slot, Tables};
