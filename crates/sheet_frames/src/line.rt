ghost use Rattle.sheet_frames.specs.Sheets.{line_of, meant_by};
ghost use Rattle.std.specs.Prelude.{◌≡◌};

use canal::GateOrder;
use model::Fault;

// An order, and the station that is to submit it.
#[derive(Clone, Copy, PartialEq, Eq, Debug)]
pub struct Submission {
    pub station: u32,
    pub order: GateOrder,
}

// What the line holds: six numbers, the first of which is the station's, if they make an order; nothing for any other line.
pub fn read_line(text: &[u8]) -> Option<Result<Submission, Fault>>
    ensures { meant_by result ≡ line_of text.now }
{
    let [station, gate, opening, day, minute, number] = lines::numbers::<6>(text)?;
    match GateOrder::new(gate, opening, day, minute, number) {
        Ok(order) => Some(Ok(Submission { station, order })),
        Err(fault) => Some(Err(fault)),
    }
}
