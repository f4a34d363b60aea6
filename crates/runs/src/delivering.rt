ghost use Rattle.runs.specs.Perform.{Does, delivers, perform, run_of, took};
ghost use Rattle.std.specs.Prelude.{◌≡◌};

use crate::life::Open;
use crate::settling::{post, settle};
use delivery::{Delivery, Outcome, decide};
use model::{Fault, Machine};
use tables::Tables;

impl Open {
    // Gives the frame at a place of the wire to a station, which takes it, knows it, or lists its speaker as two-faced, and
    // sends what the protocol asks for.
    pub fn deliver<M: Machine>(
        &mut self,
        t: &mut Tables<'_, M>,
        station: u32,
        place: u32,
    ) -> Result<Outcome, Fault>
        ensures { Does took (perform M.Op.Operation.refused (delivers station place) (run_of M.Op.Operation.bits M.Machine.means self.old t.old)) result (run_of M.Op.Operation.bits M.Machine.means self.old t.old) (run_of M.Op.Operation.bits M.Machine.means self.new t.new) }
    {
        let Delivery {
            outcome,
            change,
            first,
            second,
        } = decide(&self.on(t), station, place)?;
        let middle = post(t.wire, self.end, first);
        let end = post(t.wire, middle, second);
        settle(t, station as usize, change);
        self.end = end;
        Ok(outcome)
    }
}
