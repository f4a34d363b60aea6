ghost use Rattle.runs.specs.Pasts.{HasPast, closed_run, is_closed};
ghost use Rattle.std.specs.Prelude.{IfOk};

use crate::beginning::begin;
use model::{Fault, Machine};
use runs::Closed;
use tables::{Setup, Tables};

// Fits and opens a run, submits an operation at two stations, summarises, lets a station speak falsely, and closes the run.
// Any of these calls may be refused.
pub fn send_some<M: Machine + Drop>(
    setup: Setup,
    t: &mut Tables<'_, M>,
    start: &M,
    u: &M::Op,
    bytes: &[u8],
) -> Result<Closed, Fault>
    ensures { IfOk result (λ x. HasPast M.Op.Operation.refused (M.Machine.means start.now) is_closed (closed_run M.Op.Operation.bits M.Machine.means x t.new)) }
{
    let mut run = begin(setup, t, start)?;
    let _ = run.submit(t, 0, u);
    let _ = run.submit(t, 1, u);
    let _ = run.summarise(t, 2);
    let _ = run.speak(t, 3, bytes);
    Ok(run.close())
}
