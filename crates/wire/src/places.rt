ghost use Rattle.std.specs.Prelude.{◌≡◌, ◌≤◌, [], map, length, slice_index_or};
ghost use Rattle.tables.specs.Contents.{frame_of};
ghost use Rattle.wire.specs.Wires.{on_wire};

use tables::{Numbers, Slot};

// The wire of a run as it is read: the numbers of the run, where the wire ends, and its places.
#[derive(Clone, Copy)]
pub struct Wire<'a> {
    pub numbers: Numbers,
    pub end: u16,
    pub slots: &'a [Slot],
}

// The bytes of the frame that a place of the wire holds.
pub(crate) fn bytes(slot: &Slot) -> &[u8]
    ensures { result.now ≡ frame_of slot.now }
{
    let all = &slot.bytes[..];
    &all[..slot.len as usize]
}

impl<'a> Wire<'a> {
    // The bytes of the frame at this place: none past the end.
    pub(crate) fn bytes_at(self, place: usize) -> &'a [u8]
        ensures { result.now ≡ slice_index_or (map frame_of self.entry.slots.now) place [] }
    {
        match self.slots.get(place) {
            Some(slot) => bytes(slot),
            None => &[],
        }
    }

    // Whether this frame lies on the wire, below its end.
    pub(crate) fn holds(self, frame: &[u8]) -> bool
        ensures { result ≡ on_wire self.entry.end (map frame_of self.entry.slots.now) frame.now }
    {
        (0..self.end as usize).any(|place| self.bytes_at(place) == frame)
    }
}

// A place of the wire with these bytes.
pub(crate) fn holding(bytes: &[u8]) -> Slot
    requires { length bytes.now ≤ 194 }
    ensures { frame_of result ≡ bytes.now }
{
    let mut all = [0; 194];
    let len = bytes.len();
    all[..len].copy_from_slice(bytes);
    Slot {
        bytes: all,
        len: len as u8,
    }
}
