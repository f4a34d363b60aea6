ghost use Rattle.runs.specs.Pasts.{Continues, HasPast, closed_run, is_closed};
ghost use Rattle.runs.specs.Perform.{run_of};
ghost use Rattle.std.specs.Prelude.{IfOk};

use crate::beginning::begin;
use model::{Fault, Machine};
use runs::{Closed, Open};
use tables::{Setup, Tables};

// Delivers the first places of the wire, as many as named, to a station. Refused deliveries are passed over.
fn hand_over<M: Machine>(run: &mut Open, t: &mut Tables<'_, M>, station: u32, places: u32)
    ensures { Continues M.Op.Operation.refused (run_of M.Op.Operation.bits M.Machine.means run.old t.old) (run_of M.Op.Operation.bits M.Machine.means run.new t.new) }
{
    // Kept: a call takes the number of a place, and there is nothing else to go over.
    for place in 0..places {
        let _ = run.deliver(t, station, place);
    }
}

// The same for each of the first so many stations.
fn hand_to_all<M: Machine>(run: &mut Open, t: &mut Tables<'_, M>, stations: u32, places: u32)
    ensures { Continues M.Op.Operation.refused (run_of M.Op.Operation.bits M.Machine.means run.old t.old) (run_of M.Op.Operation.bits M.Machine.means run.new t.new) }
{
    // Kept: a call takes the number of a station, and there is nothing else to go over.
    for station in 0..stations {
        hand_over(run, t, station, places);
    }
}

// Fits and opens a run, submits an operation, delivers it to all, summarises and delivers, proposes and delivers, and
// closes the run. Any of these calls may be refused.
pub fn order_one<M: Machine + Drop>(
    setup: Setup,
    t: &mut Tables<'_, M>,
    start: &M,
    u: &M::Op,
) -> Result<Closed, Fault>
    ensures { IfOk result (λ x. HasPast M.Op.Operation.refused (M.Machine.means start.now) is_closed (closed_run M.Op.Operation.bits M.Machine.means x t.new)) }
{
    let mut run = begin(setup, t, start)?;
    let _ = run.submit(t, 1, u);
    hand_to_all(&mut run, t, 4, 1);
    hand_to_all(&mut run, t, 4, 4);
    let _ = run.summarise(t, 0);
    let _ = run.summarise(t, 1);
    let _ = run.summarise(t, 2);
    hand_to_all(&mut run, t, 4, 7);
    let _ = run.propose(t, setup.leader);
    hand_to_all(&mut run, t, 4, 8);
    hand_to_all(&mut run, t, 4, 16);
    Ok(run.close())
}
