// The reaches of all origins after some matrices, for the sixteen origins that there may be.
// Kept: a plain array, since a reach is a plain value of fixed size, with no heap.
#[derive(Clone, Copy)]
pub struct Reach {
    pub(crate) reaches: [u8; 16],
}
