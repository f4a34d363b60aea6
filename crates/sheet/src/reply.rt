use calendar::Date;
use gates::{GateBoard, GateCode};
use model::Fault;

// An order that was made, and what the board did.
#[derive(Clone, Copy)]
pub struct Entry {
    pub gate: u8,
    pub opening: u16,
    pub minute: u16,
    pub bits: u64,
    pub date: Option<Date>,
    pub code: GateCode,
}

// What a line of a sheet is answered with.
#[derive(Clone, Copy)]
pub enum Reply {
    // The line gave a new board.
    Board { gates: u32, leap: bool },
    // The line's order was put to the board.
    Done(Entry),
    // The line's numbers make no board or no order.
    Refused(Fault),
    // No line has given a board yet.
    NoBoard,
    // The line does not hold the five numbers of an order.
    NoOrder,
}

// A gate that stands open, and since when.
#[derive(Clone, Copy)]
pub struct Standing {
    pub gate: u8,
    pub opening: u16,
    pub date: Option<Date>,
    pub minute: u16,
}

// The board that a sheet's lines have come to, if one of them gave it.
#[derive(Clone, Copy)]
pub struct Sheet {
    pub(crate) board: Option<GateBoard>,
}
