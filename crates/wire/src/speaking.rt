ghost use Rattle.frames.specs.Views.{said_of};
ghost use Rattle.frames.specs.Writing.{faults_of, sender_of};
ghost use Rattle.tables.specs.Contents.{frame_of};
ghost use Rattle.tables.specs.Plans.{plan_of};
ghost use Rattle.tables.specs.Refusing.{seen_as};
ghost use Rattle.wire.specs.Wires.{sayable as sayable_on};
ghost use Rattle.std.specs.Prelude.{◌≡◌, false, not, ◌||◌, map, ◌==◌};

use crate::limits::exceeds;
use crate::places::{Wire, holding};
use frames::{Frame, read};
use model::{Fault, Operation, Reason};
use tables::{Numbers, Slot};

// Whether a frame is for another number of stations, or in another station's name.
fn misnamed(numbers: Numbers, station: usize, frame: &Frame<'_>) -> bool
    ensures is { result ≡ (not (faults_of (said_of frame.now) == numbers.watch.faults) || not (sender_of (said_of frame.now) == station)) }
    ensures ours { result ≡ false → faults_of (said_of frame.now) ≡ numbers.watch.faults }
{
    let header = frame.header();
    header.faults != numbers.watch.faults || header.sender as usize != station
}

impl Wire<'_> {
    // The frame that a faulty station may add to the wire, as a place of the wire holds it.
    pub fn sayable<O: Operation + Drop>(self, station: usize, bytes: &[u8]) -> Result<Slot, Fault>
        ensures { seen_as frame_of result ≡ sayable_on O.Operation.refused (plan_of self.entry.numbers) self.entry.end (map frame_of self.entry.slots.now) station bytes.now }
    {
        let frame = read::<O>(bytes)?;
        if misnamed(self.numbers, station, &frame) {
            return Err(Reason::SpokenName.into());
        }
        if exceeds(self.numbers.watch.limit, &frame) {
            return Err(Reason::SpokenExcess.into());
        }
        if self.invented(&frame) {
            return Err(Reason::SpokenRow.into());
        }
        Ok(holding(bytes))
    }
}
