ghost use Rattle.gates.specs.Boards.{means, moved_by, new_board};
ghost use Rattle.canal.specs.GateOrders.{said};
ghost use Rattle.canal.specs.Layout.{Made};
ghost use Rattle.lines.specs.Numbers.{numbers_of};
ghost use Rattle.sheet.specs.Sheets.{board_of, entry, on_line, on_order, outcome, stands_open, unfitted};
ghost use Rattle.std.specs.Option.{option_map};
ghost use Rattle.std.specs.Prelude.{◌≡◌, Some, None, ◌==◌};
ghost use Rattle.std.specs.List.{slice_get};

use crate::reply::{Entry, Reply, Sheet, Standing};
use calendar::Date;
use canal::GateOrder;
use gates::GateBoard;
use model::{Fault, Operation, Reason};

// The board of these numbers, or why there is none.
fn fit(gates: u32, mark: u32) -> Result<GateBoard, Fault>
    ensures { Made means (unfitted gates mark) (new_board gates (mark == 1)) result }
{
    if mark > 1 {
        return Err(Fault::new(Reason::OutOfRange, 0));
    }
    GateBoard::new(gates, mark == 1)
}

// Puts the order to the board.
fn put(board: &mut GateBoard, order: &GateOrder) -> Entry
    ensures is { result ≡ entry (means board.old) (said order.now) }
    ensures after { means board.new ≡ moved_by (means board.old) (said order.now) }
{
    let date = board.date(order.day);
    let code = board.take(order);
    Entry {
        gate: order.gate,
        opening: order.opening,
        minute: order.minute,
        bits: order.pack(),
        date,
        code,
    }
}

// What the line is answered with where it should give an order.
fn enter(board: &mut GateBoard, text: &[u8]) -> Reply
    ensures { outcome result (Some (means board.new)) ≡ on_order (means board.old) (numbers_of 5 text.now) }
{
    let Some(ns) = lines::numbers::<5>(text) else {
        return Reply::NoOrder;
    };
    let [gate, opening, day, minute, number] = ns;
    match GateOrder::new(gate, opening, day, minute, number) {
        Ok(order) => Reply::Done(put(board, &order)),
        Err(e) => Reply::Refused(e),
    }
}

impl Sheet {
    // A sheet of which no line has been read.
    pub fn new() -> Sheet
        ensures { board_of result ≡ None }
    {
        Sheet { board: None }
    }

    // Answers the next line.
    pub fn line(&mut self, text: &[u8]) -> Reply
        ensures { outcome result (board_of self.new) ≡ on_line (board_of self.old) text.now }
    {
        if let Some(ns) = lines::numbers::<2>(text) {
            let [gates, mark] = ns;
            return match fit(gates, mark) {
                Ok(board) => {
                    self.board = Some(board);
                    Reply::Board {
                        gates,
                        leap: mark == 1,
                    }
                }
                Err(e) => Reply::Refused(e),
            };
        }
        let Some(before) = self.board else {
            return Reply::NoBoard;
        };
        let mut board = before;
        let reply = enter(&mut board, text);
        self.board = Some(board);
        reply
    }

    // The gate of this number, if it stands open.
    pub fn standing(&self, number: u8) -> Option<Standing>
        ensures { result ≡ stands_open (board_of self.now) number }
    {
        let board = self.board?;
        let gate = board.gate(number)?;
        let last = gate.last?;
        if gate.opening == 0 {
            return None;
        }
        Some(Standing {
            gate: number,
            opening: gate.opening,
            date: board.date(last.day),
            minute: last.minute,
        })
    }
}
