use crate::outcome::Outcome;
use rows::{Matrix, Row};
use tables::Slot;

// What a delivery changes at a station: nothing, one place, one kept row, or the station's accusation set.
// Kept: `Nothing` among the changes, since an `Option` would wrap each of the five others wherever it is made or read, and
// the list of all six is closed.
#[derive(Drop)]
pub enum Change<O> {
    Nothing,
    // A speaker's word on an origin's sequence.
    Place { at: usize, word: O },
    // A first vote on a number.
    First { at: usize, matrix: Matrix },
    // A commit on a number.
    Second { at: usize, matrix: Matrix },
    // A speaker's row.
    Keep { at: usize, row: Row },
    // A speaker is two-faced.
    Accuse { speaker: u8 },
}

// What a delivery answers, changes and sends: the frames in the order in which they are sent, a second only where there is
// a first.
#[derive(Drop)]
pub struct Delivery<O> {
    pub outcome: Outcome,
    pub change: Change<O>,
    pub first: Option<Slot>,
    pub second: Option<Slot>,
}
