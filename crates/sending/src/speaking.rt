ghost use Rattle.sending.specs.Sends.{to_speak};
ghost use Rattle.sending.specs.Writers.{Sendable};
ghost use Rattle.std.specs.Prelude.{◌≡◌, OnOk};
ghost use Rattle.tables.specs.Contents.{contents, frame_of};
ghost use Rattle.tables.specs.Plans.{lengths_of, plan_of};
ghost use Rattle.tables.specs.Refusing.{seen_as};

use model::{Fault, Machine, Reason};
use tables::{Slot, Snapshot};
use wire::Wire;

// The frame that the faulty station is to send.
pub fn to_speak<M: Machine>(
    run: &Snapshot<'_, '_, M>,
    station: u32,
    bytes: &[u8],
) -> Result<Slot, Fault>
    ensures is { seen_as frame_of result ≡ to_speak M.Op.Operation.refused (plan_of run.now.numbers) run.now.end (contents M.Op.Operation.bits M.Machine.means run.now.tables.now) station bytes.now }
    ensures fits { OnOk result (Sendable (plan_of run.now.numbers) run.now.end (lengths_of run.now.tables.now) station 0) }
{
    let numbers = run.numbers;
    let t = run.tables;
    let at = numbers.faulty(t, station)?;
    let wire = Wire {
        numbers,
        end: run.end,
        slots: t.wire,
    };
    let slot = wire.sayable::<M::Op>(at.index, bytes)?;
    if run.end >= numbers.wire {
        return Err(Reason::WireFull.into());
    }
    Ok(slot)
}
