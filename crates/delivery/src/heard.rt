use rows::Matrix;

// A speaker's word on an origin's sequence, by its packed form.
// Kept: that it is one of the run stands by name in the calls (`Worded`), since its type does not know the run's numbers.
#[derive(Clone, Copy)]
pub(crate) struct Spoken {
    pub origin: u8,
    pub sequence: u8,
    pub speaker: u8,
    pub packed: u64,
}

// A speaker's matrix on a number: a first vote, or a commit.
// Kept: that it is one of the run stands by name in the calls (`Voted`), since its type does not know the run's numbers.
#[derive(Clone, Copy)]
pub(crate) struct Vote {
    pub number: u8,
    pub speaker: u8,
    pub matrix: Matrix,
}
