ghost use Rattle.std.specs.Prelude.{◌+◌, ◌*◌, ◌<◌, ◌≤◌};

use model::Watch;

// The numbers that a run is asked for with: how many stations may be faulty, the watch length, the leader, and the set of
// the faulty stations.
#[derive(Clone, Copy, PartialEq, Eq, Debug)]
pub struct Setup {
    pub faults: u32,
    pub length: u32,
    pub leader: u32,
    pub faulty: u32,
}

// The numbers of a run that never change: the watch, the leader, the set of the faulty stations, and how many places of the
// wire are used.
#[derive(Clone, Copy)]
pub struct Numbers {
    pub watch: Watch,
    pub leader: u8,
    pub faulty: u16,
    pub wire: u16,
    ghost led: { leader < 3 * watch.faults + 1 },
    ghost wired: { (1 ≤ wire) × (wire ≤ 65535) },
}
