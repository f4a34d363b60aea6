ghost use Rattle.std.specs.Prelude.{◌≤◌};

mod moving;

// A pound: the water that it holds, and the most that it can hold, in cubic metres.
#[derive(Clone, Copy, PartialEq, Eq, Debug)]
pub struct Pound {
    pub volume: u32,
    pub capacity: u32,
    ghost sizes: { (volume ≤ capacity) × (capacity ≤ 1000000) },
}

// What a ledger answers to a transfer; the values are the codes.
#[derive(Clone, Copy, PartialEq, Eq, Debug)]
pub enum PoundCode {
    // The volume moves from the source to the target.
    Moved = 0,
    // The source or the target is not fitted.
    NotFitted = 1,
    // The source is the target.
    SamePound = 2,
    // The source holds less than the volume.
    TooLittle = 3,
    // The target would pass its capacity.
    TooMuch = 4,
}

// The two pounds of a transfer as they are after it.
#[derive(Clone, Copy)]
struct Booking {
    source: Pound,
    target: Pound,
}

pub const MOST_POUNDS: usize = 32;

// The pounds of a canal.
// Kept: an array with the number of fitted pounds beside it, since a ledger is a plain value of fixed size, with no heap.
#[derive(Clone, Copy)]
pub struct PoundLedger {
    pounds: [Pound; MOST_POUNDS],
    fitted: usize,
    ghost sizes: { (1 ≤ fitted) × (fitted ≤ 32) },
}
