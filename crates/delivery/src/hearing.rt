ghost use Rattle.std.specs.Prelude.{◌≡◌, ◌*◌, false};
ghost use Rattle.delivery.specs.Deliveries.{heard, misnamed as misnamed_in};
ghost use Rattle.delivery.specs.Hearings.{Hears};
ghost use Rattle.frames.specs.Views.{Accepted, Sound, said_of};
ghost use Rattle.model.specs.Quorums.{stations};
ghost use Rattle.rows.specs.Bits.{entries};
ghost use Rattle.rows.specs.Values.{matrix_of, row_of};
ghost use Rattle.tables.specs.Plans.{plan_of};
ghost use Rattle.wire.specs.Wires.{foreign};

use crate::change::Delivery;
use crate::heard::{Spoken, Vote};
use crate::summaries::hear_row;
use crate::votes::{hear_commit, hear_vote};
use crate::words::hear_word;
use frames::{Frame, Header};
use model::{Machine, Watch};
use rows::{Matrix, Row};
use tables::{Numbers, Station};

// The word on an origin's sequence that a frame with this header holds.
fn word_in(header: Header, origin: u8, packed: u64) -> Spoken
    ensures { result ≡ record { origin = origin; sequence = header.sequence; speaker = header.sender; packed = packed } }
{
    Spoken {
        origin,
        sequence: header.sequence,
        speaker: header.sender,
        packed,
    }
}

// The row that this part of a frame of the run holds.
fn row_in(watch: Watch, part: &[u8]) -> Row
    ensures { row_of result ≡ entries part.now (stations watch.faults) }
{
    Row::unpack(watch.stations() as usize, part)
}

// The vote that a frame of the run with this header and this part holds.
fn vote_in(watch: Watch, header: Header, part: &[u8]) -> Vote
    ensures number { result.number ≡ header.sequence }
    ensures speaker { result.speaker ≡ header.sender }
    ensures side { result.matrix.side ≡ stations watch.faults }
    ensures means { matrix_of result.matrix ≡ entries part.now (stations watch.faults * stations watch.faults) }
{
    Vote {
        number: header.sequence,
        speaker: header.sender,
        matrix: Matrix::unpack(watch.stations() as usize, part),
    }
}

// Whether the frame is a proposal that is not the leader's, a prepare that is, or an ack that is its origin's.
pub(crate) fn misnamed(numbers: Numbers, frame: &Frame<'_>) -> bool
    ensures { result ≡ misnamed_in (plan_of numbers) (said_of frame.now) }
{
    match frame {
        Frame::Request { .. } | Frame::Summary { .. } | Frame::Commit { .. } => false,
        Frame::Ack { header, origin, .. } => header.sender == *origin,
        Frame::Proposal { header, .. } => header.sender != numbers.leader,
        Frame::Prepare { header, .. } => header.sender == numbers.leader,
    }
}

// What a frame of the run does at a station.
pub(crate) fn hear<M: Machine>(at: &Station<'_, '_, M>, frame: &Frame<'_>) -> Delivery<M::Op>
    requires sound { Sound frame.now }
    requires ours { foreign (plan_of at.now.numbers) (said_of frame.now) ≡ false }
    requires accepted { Accepted M.Op.Operation.refused (said_of frame.now) }
    ensures { Hears M.Op.Operation.bits M.Machine.means at.now.numbers at.now.tables.now at.now.index (heard (said_of frame.now)) result }
{
    let watch = at.numbers.watch;
    let header = frame.header();
    match frame {
        Frame::Request { packed, .. } => hear_word(at, word_in(header, header.sender, *packed)),
        Frame::Ack { origin, packed, .. } => hear_word(at, word_in(header, *origin, *packed)),
        Frame::Summary { row, .. } => hear_row(at, header.sender, row_in(watch, row)),
        Frame::Proposal { matrix, .. } | Frame::Prepare { matrix, .. } => {
            hear_vote(at, &vote_in(watch, header, matrix))
        }
        Frame::Commit { matrix, .. } => hear_commit(at, &vote_in(watch, header, matrix)),
    }
}
