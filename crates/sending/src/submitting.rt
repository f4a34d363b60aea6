ghost use Rattle.std.specs.Prelude.{◌≡◌, ℕ, ◌+◌, ◌<◌, ◌≤◌, min, length, get_or, IfOk};
ghost use Rattle.frames.specs.Said.{request as request_said};
ghost use Rattle.frames.specs.Writing.{frame};
ghost use Rattle.sending.specs.Sends.{out_of, sequence_by, to_submit};
ghost use Rattle.sending.specs.Writers.{Sendable};
ghost use Rattle.tables.specs.Contents.{contents, frame_of};
ghost use Rattle.tables.specs.Plans.{lengths_of, plan_of};
ghost use Rattle.tables.specs.Refusing.{seen_as};

use crate::numbered::Numbered;
use frames::Message;
use model::{Fault, Machine, Operation, Reason};
use tables::{Counts, Numbers, Slot, Snapshot, Station};
use wire::slot;

// How many operations the station has submitted, as read in a watch of this length.
fn submitted_by(counts: &[Counts], station: usize, limit: u8) -> u8
    requires { station < length counts.now }
    ensures { result ≡ min (get_or counts.now station (record { submitted = 0; executed = 0 })).submitted limit }
{
    counts[station].submitted.min(limit as u16) as u8
}

// The number of the station's next request, if it can be sent.
// Kept: the values that it reads, each by name, since a `Snapshot` and a `Station` each have numbers and tables of their own,
// which every such call would have to show to be the same.
fn next_sequence(numbers: Numbers, end: u16, counts: &[Counts], i: usize) -> Result<u8, Fault>
    requires { i < length counts.now }
    ensures is { result ≡ sequence_by (plan_of numbers) end counts.now i }
    ensures fits { IfOk result (λ q. (end < numbers.wire) × ((1 ≤ q) × (q ≤ numbers.watch.limit))) }
{
    let used = submitted_by(counts, i, numbers.watch.limit);
    if used >= numbers.watch.limit {
        return Err(Reason::NumbersUsed.into());
    }
    if end >= numbers.wire {
        return Err(Reason::WireFull.into());
    }
    Ok(used + 1)
}

// The frame of the station's request.
// Kept: the range of the sequence as a `requires` of its own, since no type of a number knows the length of its watch.
fn request<M: Machine>(at: &Station<'_, '_, M>, sequence: u8, packed: u64) -> Slot
    requires { (1 ≤ sequence) × (sequence ≤ at.now.numbers.watch.limit) }
    ensures { frame_of result ≡ frame (request_said at.now.index at.now.numbers.watch.faults sequence packed) }
{
    let message = Message::Request { sequence, packed };
    slot(at.index as u8, at.numbers.watch.faults, &message)
}

// The request that the station is to send for its operation.
pub fn to_submit<M: Machine>(
    run: &Snapshot<'_, '_, M>,
    station: u32,
    u: &M::Op,
) -> Result<Numbered, Fault>
    ensures is { seen_as out_of result ≡ to_submit (plan_of run.now.numbers) run.now.end (contents M.Op.Operation.bits M.Machine.means run.now.tables.now) station (M.Op.Operation.bits u.now) }
    ensures fits { IfOk result (λ x. Sendable (plan_of run.now.numbers) run.now.end (lengths_of run.now.tables.now) station x.sequence) }
{
    let numbers = run.numbers;
    let t = run.tables;
    let at = numbers.correct(t, station)?;
    let sequence = next_sequence(numbers, run.end, t.counts, at.index)?;
    Ok(Numbered {
        sequence,
        slot: request(&at, sequence, u.pack()),
    })
}
