ghost use Rattle.std.specs.Prelude.{◌≡◌, ℕ, ◌+◌, ◌*◌, ◌<◌, ◌≤◌, map, length, IfOk};
ghost use Rattle.frames.specs.Said.{proposal as said_proposal};
ghost use Rattle.frames.specs.Writing.{frame};
ghost use Rattle.model.specs.Quorums.{stations};
ghost use Rattle.rows.specs.Values.{matrix_of, row_of};
ghost use Rattle.sending.specs.Sends.{kept_entry, kept_rows, number_by, out_of, to_propose};
ghost use Rattle.sending.specs.Writers.{Sendable};
ghost use Rattle.tables.specs.Contents.{contents, frame_of};
ghost use Rattle.tables.specs.Plans.{lengths_of, plan_of};
ghost use Rattle.tables.specs.Refusing.{seen_as};

use crate::gathering::gathered;
use crate::numbered::Numbered;
use frames::Message;
use model::{Fault, Machine, Reason};
use rows::{Matrix, Row};
use tables::{Numbers, Slot, Snapshot, Station};
use wire::slot;

// Entry o of the row that the station keeps of station j, as it is read.
fn kept_entry<M: Machine>(at: &Station<'_, '_, M>, j: usize, o: usize) -> u8
    requires { j < stations at.now.numbers.watch.faults }
    ensures is { result ≡ kept_entry (plan_of at.now.numbers) (map row_of at.now.tables.now.kept.now) at.now.index j o }
    ensures few { result ≤ at.now.numbers.watch.limit }
{
    let watch = at.numbers.watch;
    let n = watch.stations() as usize;
    let t = at.tables;
    let row = t.kept[at.index * n + j];
    row.get(o).min(watch.limit)
}

// The rows that the station keeps.
fn kept_rows<M: Machine>(at: &Station<'_, '_, M>) -> Matrix
    ensures { matrix_of result ≡ kept_rows (plan_of at.now.numbers) (map row_of at.now.tables.now.kept.now) at.now.index }
{
    let n = at.numbers.watch.stations() as usize;
    Matrix {
        side: n as u8,
        entries: gathered(n * n, |k| kept_entry(at, k / n, k % n)),
    }
}

// The frame of the station's proposal.
// Kept: the range of the sequence as a `requires` of its own, since no type of a number knows the length of its watch.
fn proposal<M: Machine>(at: &Station<'_, '_, M>, sequence: u8, matrix: Matrix) -> Slot
    requires sequence { (1 ≤ sequence) × (sequence ≤ at.now.numbers.watch.limit) }
    requires side { length (matrix_of matrix) ≡ stations at.now.numbers.watch.faults * stations at.now.numbers.watch.faults }
    ensures { frame_of result ≡ frame (said_proposal at.now.index at.now.numbers.watch.faults sequence (matrix_of matrix)) }
{
    let message = Message::Proposal { sequence, matrix };
    slot(at.index as u8, at.numbers.watch.faults, &message)
}

// The number of the station's next proposal, if it can be sent.
// Kept: the values that it reads, each by name, since a `Snapshot` and a `Station` each have numbers and tables of their own,
// which every such call would have to show to be the same.
fn next_number(numbers: Numbers, end: u16, last: u8, i: usize) -> Result<u8, Fault>
    ensures is { result ≡ number_by (plan_of numbers) end last i }
    ensures fits { IfOk result (λ q. (end < numbers.wire) × ((1 ≤ q) × (q ≤ numbers.watch.limit))) }
{
    if i != numbers.leader as usize {
        return Err(Reason::NotLeader.into());
    }
    if last >= numbers.watch.limit {
        return Err(Reason::NumbersUsed.into());
    }
    if end >= numbers.wire {
        return Err(Reason::WireFull.into());
    }
    Ok(last + 1)
}

// The proposal that the leader is to send.
pub fn to_propose<M: Machine>(run: &Snapshot<'_, '_, M>, station: u32) -> Result<Numbered, Fault>
    ensures is { seen_as out_of result ≡ to_propose (plan_of run.now.numbers) run.now.end run.now.last (contents M.Op.Operation.bits M.Machine.means run.now.tables.now) station }
    ensures fits { IfOk result (λ x. Sendable (plan_of run.now.numbers) run.now.end (lengths_of run.now.tables.now) station x.sequence) }
{
    let numbers = run.numbers;
    let t = run.tables;
    let at = numbers.correct(t, station)?;
    let i = at.index;
    let sequence = next_number(numbers, run.end, run.last, i)?;
    let matrix = kept_rows(&at);
    Ok(Numbered {
        sequence,
        slot: proposal(&at, sequence, matrix),
    })
}
