ghost use Rattle.std.specs.Prelude.{◌≡◌, ℕ, ◌+◌, ◌<◌, ◌≤◌, map, length, Some, slice_index, slice_set};
ghost use Rattle.delivery.specs.Tellings.{Lies, change_by, frame_in};
ghost use Rattle.model.specs.Sets.{joined};
ghost use Rattle.runs.specs.Perform.{changed, posted};
ghost use Rattle.tables.specs.Contents.{contents, frame_of};
ghost use Rattle.tables.specs.Plans.{lengths_of};

use crate::placing::put;
use delivery::Change;
use model::{Machine, with};
use tables::{Slot, Tables};

// The speaker enters the station's accusation set.
fn accuse(sets: &mut [u16], station: usize, speaker: u8)
    requires { station < length sets.old }
    ensures { sets.new ≡ slice_set sets.old station (joined (slice_index sets.old station) speaker) }
{
    let set = with(sets[station], speaker as usize);
    put(sets, station, set);
}

// Makes the change of a delivery at this station.
pub(crate) fn settle<M: Machine>(t: &mut Tables<'_, M>, station: usize, change: Change<M::Op>)
    requires { Lies (lengths_of t.old) station change }
    ensures { contents M.Op.Operation.bits M.Machine.means t.new ≡ changed (contents M.Op.Operation.bits M.Machine.means t.old) station (change_by M.Op.Operation.bits change) }
{
    match change {
        Change::Nothing => {}
        Change::Place { at, word } => put(t.words, at, Some(word)),
        Change::First { at, matrix } => put(t.votes, at, Some(matrix)),
        Change::Second { at, matrix } => put(t.commits, at, Some(matrix)),
        Change::Keep { at, row } => put(t.kept, at, row),
        Change::Accuse { speaker } => accuse(t.accused, station, speaker),
    }
}

// Puts the frame, if there is one, at the wire's end, and answers where the wire ends then.
pub(crate) fn post(wire: &mut [Slot], end: u16, frame: Option<Slot>) -> u16
    requires room { end + length (frame_in frame) ≤ length wire.old }
    requires few { end + length (frame_in frame) ≤ 65535 }
    ensures end { result ≡ end + length (frame_in frame) }
    ensures wire { map frame_of wire.new ≡ posted (map frame_of wire.old) end (frame_in frame) }
{
    match frame {
        Some(slot) => {
            put(wire, end as usize, slot);
            end + 1
        }
        None => end,
    }
}
