// An operation by its origin and sequence.
#[derive(Clone, Copy, PartialEq, Eq, Debug)]
pub struct Key {
    pub origin: u8,
    pub sequence: u8,
}
