ghost use Rattle.frames.specs.Views.{said_of};
ghost use Rattle.rows.specs.Bits.{entries};
ghost use Rattle.tables.specs.Plans.{plan_of};
ghost use Rattle.wire.specs.Wires.{exceeds as exceeds_in, foreign as foreign_to, some_above};
ghost use Rattle.std.specs.Prelude.{◌≡◌};

use frames::Frame;
use rows::entry;
use tables::Numbers;

// Whether one of the first n entries of a packed row or matrix is above the limit.
fn some_above(limit: u8, part: &[u8], n: usize) -> bool
    ensures { result ≡ some_above limit (entries part.now n) }
{
    (0..n).any(|k| entry(part, k) > limit)
}

// Whether the sequence, or an entry, of a frame exceeds the limit.
pub(crate) fn exceeds(limit: u8, frame: &Frame<'_>) -> bool
    ensures { result ≡ exceeds_in limit (said_of frame.now) }
{
    let header = frame.header();
    let n = header.stations();
    match frame {
        Frame::Request { .. } | Frame::Ack { .. } => header.sequence > limit,
        Frame::Summary { row, .. } => some_above(limit, row, n),
        Frame::Proposal { matrix, .. }
        | Frame::Prepare { matrix, .. }
        | Frame::Commit { matrix, .. } => {
            header.sequence > limit || some_above(limit, matrix, n * n)
        }
    }
}

// Whether a frame is none of this run's.
pub(crate) fn foreign(numbers: Numbers, frame: &Frame<'_>) -> bool
    ensures { result ≡ foreign_to (plan_of numbers) (said_of frame.now) }
{
    frame.header().faults != numbers.watch.faults || exceeds(numbers.watch.limit, frame)
}
