ghost use Rattle.frames.specs.Writing.{leaves};
ghost use Rattle.runs.specs.Perform.{run_of};
ghost use Rattle.runs.specs.Showing.{shown};
ghost use Rattle.std.specs.Prelude.{◌≡◌, [], length, slice_index_or};

use crate::life::Open;
use model::{Fault, Machine, Reason};
use tables::Tables;
use wire::Wire;

impl Open {
    // Writes the frame at a place of the wire into the front of the buffer, and answers its length.
    pub fn show<M: Machine>(
        &self,
        t: &Tables<'_, M>,
        place: u32,
        to: &mut [u8],
    ) -> Result<usize, Fault>
        ensures answer { result ≡ shown M.Op.Operation.refused (run_of M.Op.Operation.bits M.Machine.means self.now t.now) place (length to.old) }
        ensures leaves { to.new ≡ leaves result (slice_index_or (run_of M.Op.Operation.bits M.Machine.means self.now t.now).held.wire place []) to.old }
    {
        let Open { numbers, end, .. } = self;
        if numbers.short(t) {
            return Err(Reason::ShortTable.into());
        }
        let wire = Wire {
            numbers: *numbers,
            end: *end,
            slots: t.wire,
        };
        wire.show::<M::Op>(place, to)
    }
}
