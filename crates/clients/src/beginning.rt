ghost use Rattle.runs.specs.Pasts.{HasPast, is_open};
ghost use Rattle.runs.specs.Perform.{run_of};
ghost use Rattle.std.specs.Prelude.{IfOk};

use model::{Fault, Machine};
use runs::{Fitted, Open};
use tables::{Setup, Tables};

// Fits and opens a run.
pub(crate) fn begin<M: Machine + Drop>(
    setup: Setup,
    t: &mut Tables<'_, M>,
    start: &M,
) -> Result<Open, Fault>
    ensures { IfOk result (λ x. HasPast M.Op.Operation.refused (M.Machine.means start.now) is_open (run_of M.Op.Operation.bits M.Machine.means x t.new)) }
{
    let fitted = Fitted::new(setup, t)?;
    let run = fitted.open(t, start)?;
    Ok(run)
}
