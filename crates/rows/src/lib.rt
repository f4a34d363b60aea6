// Rows and matrices of entries of 6 bits, as owned values and as packed in bytes.
#![tactic(auto)]

mod digits;
mod entries;
mod matrix;
mod owned;

pub use digits::{bits, entry, room, word};
pub use owned::{Entries, Matrix, Row};
