// What the ordering core is generic over: words, operations and machines, each with its meaning;
// sets of stations, who holds a word, and the numbers of a watch; and the faults with which calls decline.
#![tactic(auto)]

mod bounds;
mod fault;
mod places;
mod quorums;
mod sets;
mod traits;
mod watch;

pub use fault::{Fault, Layer, Reason};
pub use places::{certified, ordered, tally, word_at};
pub use quorums::quorums_share;
pub use sets::{bearable, count, names, with, within, without};
pub use traits::{Machine, Operation, Word};
pub use watch::Watch;
