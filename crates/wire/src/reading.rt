ghost use Rattle.frames.specs.Views.{Borrows, Sound, answered, said_of};
ghost use Rattle.frames.specs.Writing.{frame as frame_saying, unfit};
ghost use Rattle.std.specs.Prelude.{◌≡◌, false, [], map, drop, IfOk, None, slice_index_or};
ghost use Rattle.tables.specs.Contents.{frame_of};
ghost use Rattle.tables.specs.Plans.{plan_of};
ghost use Rattle.wire.specs.Wires.{foreign as foreign_to, frame_at};

use crate::limits::foreign;
use crate::places::Wire;
use frames::{Frame, read};
use model::{Fault, Operation, Reason};

impl<'a> Wire<'a> {
    // The frame at this place, below the end.
    pub fn frame_at<O: Operation + Drop>(self, place: u32) -> Result<Frame<'a>, Fault>
        ensures means { answered result ≡ frame_at O.Operation.refused (plan_of self.entry.numbers) self.entry.end (map frame_of self.entry.slots.now) place }
        ensures sound { IfOk result Sound }
        ensures ours { IfOk result (λ x. foreign_to (plan_of self.entry.numbers) (said_of x) ≡ false) }
        ensures whole { IfOk result (λ x. (unfit (said_of x) ≡ None) × (frame_saying (said_of x) ≡ slice_index_or (map frame_of self.entry.slots.now) place [])) }
        ensures parts { IfOk result (λ x. Borrows (drop 2 (slice_index_or (map frame_of self.entry.slots.now) place [])) x) }
    {
        if place >= self.end as u32 {
            return Err(Reason::NoFrame.into());
        }
        let frame = read::<O>(self.bytes_at(place as usize))?;
        if foreign(self.numbers, &frame) {
            return Err(Reason::NoFrame.into());
        }
        Ok(frame)
    }
}
