ghost use Rattle.std.specs.Prelude.{◌≤◌};

mod moving;

// A day of the year and a minute of the day. The earlier of two is the one of the earlier day, and of two of one day the one
// of the earlier minute.
#[derive(Clone, Copy, PartialEq, Eq, PartialOrd, Ord, Debug)]
pub struct Moment {
    pub day: u16,
    pub minute: u16,
}

// A gate: its opening in millimetres, and the moment of its last moved order, if it has moved.
#[derive(Clone, Copy, PartialEq, Eq, Debug)]
pub struct Gate {
    pub opening: u16,
    pub last: Option<Moment>,
}

// What a board answers to an order; the values are the codes.
#[derive(Clone, Copy, PartialEq, Eq, Debug)]
pub enum GateCode {
    // The gate takes the order's opening, day and minute.
    Moved = 0,
    // The gate is not fitted.
    NotFitted = 1,
    // The day is 366, in a common year.
    NoSuchDay = 2,
    // The order's moment is earlier than that of the gate's last moved order.
    TooEarly = 3,
}

pub const MOST_GATES: usize = 40;

// The gates of a watch, in a leap year or a common year.
// Kept: an array with the number of fitted gates beside it, since a board is a plain value of fixed size, with no heap.
#[derive(Clone, Copy)]
pub struct GateBoard {
    gates: [Gate; MOST_GATES],
    fitted: usize,
    leap: bool,
    ghost sizes: { (1 ≤ fitted) × (fitted ≤ 40) },
}
