use tables::Slot;

// A frame with the number under which it is sent.
#[derive(Clone, Copy)]
pub struct Numbered {
    pub sequence: u8,
    pub slot: Slot,
}
