ghost use Rattle.std.specs.Prelude.{◌≡◌, ℕ, ◌+◌, ◌*◌, ◌<◌, ◌≤◌, length, drop, OnOk};
ghost use Rattle.frames.specs.Said.{summary as said_summary};
ghost use Rattle.frames.specs.Writing.{frame};
ghost use Rattle.model.specs.Quorums.{held, stations};
ghost use Rattle.sending.specs.Sends.{certified_run, row_at, to_summarise};
ghost use Rattle.sending.specs.Writers.{Sendable};
ghost use Rattle.rows.specs.Values.{row_of};
ghost use Rattle.tables.specs.Contents.{contents, frame_of};
ghost use Rattle.tables.specs.Plans.{lengths_of, plan_of, word_places};
ghost use Rattle.tables.specs.Refusing.{seen_as};

use crate::gathering::gathered;
use frames::Message;
use model::{Fault, Machine, Operation, Reason};
use order::unbroken;
use rows::Row;
use tables::{Numbers, Slot, Snapshot, Station};
use wire::slot;

// The longest unbroken run of the origin's sequences, from 1, that have a certificate at the station.
fn certified_run<M: Machine>(at: &Station<'_, '_, M>, origin: usize) -> u8
    requires { origin < stations at.now.numbers.watch.faults }
    ensures is { result ≡ certified_run (plan_of at.now.numbers) (held M.Op.Operation.bits at.now.tables.now.words.now) at.now.index origin }
    ensures few { result ≤ at.now.numbers.watch.limit }
{
    let watch = at.numbers.watch;
    let n = watch.stations() as usize;
    let t = at.tables;
    let from = (at.index * n + origin) * watch.limit as usize * n;
    unbroken(watch, &t.words[from..], origin)
}

// The station's row: for each origin, how far its sequences have certificates there.
fn row_at<M: Machine>(at: &Station<'_, '_, M>) -> Row
    ensures is { row_of result ≡ row_at (plan_of at.now.numbers) (held M.Op.Operation.bits at.now.tables.now.words.now) at.now.index }
    ensures long { length (row_of result) ≡ stations at.now.numbers.watch.faults }
{
    let n = at.numbers.watch.stations() as usize;
    gathered(n, |origin| certified_run(at, origin))
}

// The frame of the station's summary.
fn summary<M: Machine>(at: &Station<'_, '_, M>, row: Row) -> Slot
    requires { length (row_of row) ≡ stations at.now.numbers.watch.faults }
    ensures { frame_of result ≡ frame (said_summary at.now.index at.now.numbers.watch.faults (row_of row)) }
{
    slot(
        at.index as u8,
        at.numbers.watch.faults,
        &Message::Summary { row },
    )
}

// The summary that the station is to send.
pub fn to_summarise<M: Machine>(run: &Snapshot<'_, '_, M>, station: u32) -> Result<Slot, Fault>
    ensures is { seen_as frame_of result ≡ to_summarise (plan_of run.now.numbers) run.now.end (contents M.Op.Operation.bits M.Machine.means run.now.tables.now) station }
    ensures fits { OnOk result (Sendable (plan_of run.now.numbers) run.now.end (lengths_of run.now.tables.now) station 0) }
{
    let numbers = run.numbers;
    let t = run.tables;
    let at = numbers.correct(t, station)?;
    if run.end >= numbers.wire {
        return Err(Reason::WireFull.into());
    }
    let row = row_at(&at);
    Ok(summary(&at, row))
}
