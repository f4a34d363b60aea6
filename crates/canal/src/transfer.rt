ghost use Rattle.std.specs.Prelude.{◌^◌, ◌<◌, ◌≤◌};

mod packing;

// A transfer of water from one pound to another: its volume in cubic metres, and the order's own number.
#[derive(Clone, Copy, PartialEq, Eq, Debug)]
pub struct Transfer {
    pub source: u8,
    pub target: u8,
    pub volume: u32,
    pub number: u32,
    ghost ranges: { (source ≤ 31) × (target ≤ 31) × ((1 ≤ volume) × (volume ≤ 1000000)) × (number < 2 ^ 24) },
}
