ghost use Rattle.frames.specs.Writing.{leaves};
ghost use Rattle.tables.specs.Contents.{frame_of};
ghost use Rattle.tables.specs.Plans.{plan_of};
ghost use Rattle.wire.specs.Wires.{shown_at};
ghost use Rattle.std.specs.Prelude.{◌≡◌, [], map, length, slice_index_or};

use crate::places::Wire;
use model::{Fault, Operation, Reason};

impl Wire<'_> {
    // Writes the bytes of the frame at this place into the front of `to`, and answers their number.
    pub fn show<O: Operation + Drop>(self, place: u32, to: &mut [u8]) -> Result<usize, Fault>
        ensures answer { result ≡ shown_at O.Operation.refused (plan_of self.entry.numbers) self.entry.end (map frame_of self.entry.slots.now) place (length to.old) }
        ensures leaves { to.new ≡ leaves result (slice_index_or (map frame_of self.entry.slots.now) place []) to.old }
    {
        self.frame_at::<O>(place)?;
        let bytes = self.bytes_at(place as usize);
        let len = bytes.len();
        if to.len() < len {
            return Err(Reason::ShortBuffer.into());
        }
        to[..len].copy_from_slice(bytes);
        Ok(len)
    }
}
