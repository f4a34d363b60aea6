// The number of what was sent, and its place on the wire.
#[derive(Clone, Copy)]
pub struct Sent {
    pub sequence: u8,
    pub place: u16,
}
