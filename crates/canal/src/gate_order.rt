ghost use Rattle.std.specs.Prelude.{◌^◌, ◌<◌, ◌≤◌};

mod packing;

// An order to set a gate: its opening in millimetres, the day of the year and the minute of the day from which it stands,
// and the order's own number.
#[derive(Clone, Copy, PartialEq, Eq, Debug)]
pub struct GateOrder {
    pub gate: u8,
    pub opening: u16,
    pub day: u16,
    pub minute: u16,
    pub number: u32,
    ghost ranges: { (gate ≤ 39) × (opening ≤ 4000) × ((1 ≤ day) × (day ≤ 366)) × (minute ≤ 1439) × (number < 2 ^ 24) },
}
