ghost use Rattle.std.specs.Prelude.{◌≡◌, ◌+◌, length, IfOk, nat_lt};
ghost use Rattle.delivery.specs.Deliveries.{delivery as delivery_of};
ghost use Rattle.delivery.specs.Tellings.{Fits, frames_in, told, told_by};
ghost use Rattle.tables.specs.Contents.{contents};
ghost use Rattle.tables.specs.Plans.{lengths_of, plan_of};
ghost use Rattle.tables.specs.Refusing.{seen_as};

use crate::change::Delivery;
use crate::hearing::{hear, misnamed};
use model::{Fault, Machine, Reason};
use tables::Snapshot;
use wire::Wire;

// Whether a wire of so many places, which ends at `end`, lacks places for the frames of a delivery.
fn lacks_places<O>(wire: u16, end: u16, delivery: &Delivery<O>) -> bool
    ensures { result ≡ nat_lt wire (end + length (frames_in delivery.now)) }
{
    let frames = delivery.first.is_some() as u32 + delivery.second.is_some() as u32;
    end as u32 + frames > wire as u32
}

// What the delivery of the frame at a place of the wire does at a correct station, or why it is refused. Nothing is changed.
pub fn decide<M: Machine>(
    run: &Snapshot<'_, '_, M>,
    station: u32,
    place: u32,
) -> Result<Delivery<M::Op>, Fault>
    ensures means { seen_as (told_by M.Op.Operation.bits) result ≡ seen_as told (delivery_of M.Op.Operation.refused (plan_of run.now.numbers) run.now.end (contents M.Op.Operation.bits M.Machine.means run.now.tables.now) station place) }
    ensures fits { IfOk result (Fits (plan_of run.now.numbers) run.now.end (lengths_of run.now.tables.now) station) }
{
    let numbers = run.numbers;
    let t = run.tables;
    let at = numbers.correct(t, station)?;
    let wire = Wire {
        numbers,
        end: run.end,
        slots: t.wire,
    };
    let frame = wire.frame_at::<M::Op>(place)?;
    if misnamed(numbers, &frame) {
        return Err(Reason::WrongSender.into());
    }
    let delivery = hear(&at, &frame);
    if lacks_places(numbers.wire, run.end, &delivery) {
        return Err(Reason::WireFull.into());
    }
    Ok(delivery)
}
