ghost use Rattle.canal.specs.GateOrders.{packed, said};
ghost use Rattle.gates.specs.Boards.{means};
ghost use Rattle.runs.specs.Perform.{run_of};
ghost use Rattle.sheet_frames.specs.Entering.{Enters, on_line};
ghost use Rattle.sheet_frames.specs.Sheets.{line_of};

use crate::line::{Submission, read_line};
use canal::GateOrder;
use gates::GateBoard;
use model::Fault;
use runs::{Open, Sent};
use tables::Tables;

// Submits the order of a line, and answers what was sent or why nothing was; nothing for a line that holds no six numbers.
pub fn enter(
    run: &mut Open,
    t: &mut Tables<'_, GateBoard>,
    text: &[u8],
) -> Option<Result<Sent, Fault>>
    ensures { Enters (on_line (line_of text.now) (run_of (λ u. packed (said u)) means run.old t.old)) result (run_of (λ u. packed (said u)) means run.old t.old) (run_of (λ u. packed (said u)) means run.new t.new) }
{
    match read_line(text)? {
        Ok(Submission { station, order }) => Some(run.submit(t, station, &order)),
        Err(fault) => Some(Err(fault)),
    }
}
