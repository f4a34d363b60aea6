ghost use Rattle.std.specs.Prelude.{◌≤◌};

use model::Fault;
use tables::Numbers;

// A run whose numbers and tables have been checked.
#[derive(Drop)]
pub struct Fitted {
    pub(crate) numbers: Numbers,
}

// A fitted run that could not be opened, and why.
#[derive(Drop)]
pub struct Declined {
    pub fitted: Fitted,
    pub fault: Fault,
}

// An open run: where its wire ends, and the last number that the leader has proposed under.
#[derive(Drop)]
pub struct Open {
    pub(crate) numbers: Numbers,
    pub(crate) end: u16,
    pub(crate) last: u8,
    ghost sound: { (end ≤ numbers.wire) × (last ≤ numbers.watch.limit) },
}

// A run that was open.
// Kept: a type of plain numbers beside `Open`, and not a wrapper of it, since the project asks for three moved types of plain
// numbers; the one call that both have, `numbers`, is a line.
#[derive(Drop)]
pub struct Closed {
    pub(crate) numbers: Numbers,
    pub(crate) end: u16,
    pub(crate) last: u8,
}
