ghost use Rattle.std.specs.Prelude.{◌≤◌};

// The two numbers that all rules of a run go by: how many stations may be faulty, and how many operations an origin,
// and proposals the leader, may number.
#[derive(Clone, Copy)]
pub struct Watch {
    pub faults: u8,
    pub limit: u8,
    ghost ok: { (1 ≤ faults) × (faults ≤ 5) × (1 ≤ limit) × (limit ≤ 63) },
}
