ghost use Rattle.std.specs.Prelude.{◌≡◌, ℕ, ◌^◌, ◌<◌, ◌≤◌, Decides, count_ones};
ghost use Rattle.model.specs.Sets.{named, joined, parted, Within};

// A set of stations is a number of 16 bits, in which station j counts 2^j.

// Whether the set names station j. It names none from 16 on.
pub fn names(set: u16, j: usize) -> bool
    ensures { result ≡ named set j }
{
    j < 16 && (set >> j) & 1 == 1
}

// The set with station j. From 16 on there is no station to add.
pub fn with(set: u16, j: usize) -> u16
    ensures { result ≡ joined set j }
{
    if j < 16 { set | (1 << j) } else { set }
}

// The set without station j.
pub fn without(set: u16, j: usize) -> u16
    ensures { result ≡ parted set j }
{
    if names(set, j) { set - (1 << j) } else { set }
}

// How many stations the set names.
pub fn count(set: u16) -> u8
    ensures { result ≡ count_ones set }
{
    set.count_ones() as u8
}

// Whether the set names only stations below n.
pub fn within(set: u16, n: usize) -> bool
    ensures { Decides result (Within n set) }
{
    n >= 16 || set >> n == 0
}

// Whether the set may be that of the faulty stations, of n where at most f are faulty.
pub fn bearable(set: u16, n: usize, f: u8) -> bool
    ensures { Decides result (Within n set × (count_ones set ≤ f)) }
{
    within(set, n) && count(set) <= f
}
