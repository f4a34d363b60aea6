ghost use Rattle.std.specs.Prelude.{◌≤◌};

use model::Machine;
use rows::{Matrix, Row};

// A place of the wire: the bytes of a frame.
// Kept: an array with the length beside it, since tables are lent and of fixed size, with no heap.
#[derive(Clone, Copy)]
pub struct Slot {
    pub bytes: [u8; 194],
    pub len: u8,
    ghost fits: { len ≤ 194 },
}

// How many operations a station has submitted, and how many it has executed.
#[derive(Clone, Copy)]
pub struct Counts {
    pub submitted: u16,
    pub executed: u16,
}

// An executed operation, with its origin and the number that the origin gave it.
#[derive(Drop)]
pub struct Entry<O> {
    pub origin: u8,
    pub sequence: u8,
    pub operation: O,
}

// The tables of a run, lent to each call. For N stations and a watch of length L:
// words has N × N × L × N places, by station, origin, sequence and speaker; votes and commits N × L × N each, by station,
// proposal and speaker; kept N × N rows, by station and speaker; executed N × N × L entries, by station and position;
// machines, counts and accused one for each station. What lies behind is never touched.
// Kept: no model of its own, since a model's value cannot name the machine's `State`; so clauses say `contents` of tables.
#[derive(Drop)]
pub struct Tables<'a, M: Machine> {
    pub wire: &'a mut [Slot],
    pub words: &'a mut [Option<M::Op>],
    pub votes: &'a mut [Option<Matrix>],
    pub commits: &'a mut [Option<Matrix>],
    pub kept: &'a mut [Row],
    pub executed: &'a mut [Option<Entry<M::Op>>],
    pub machines: &'a mut [M],
    pub counts: &'a mut [Counts],
    pub accused: &'a mut [u16],
}
