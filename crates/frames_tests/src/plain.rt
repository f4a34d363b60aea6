ghost use Rattle.std.specs.Prelude.{◌≡◌, ℕ, ◌/◌, ◌%◌, ◌^◌, ◌<◌};

// An operation for the tests: 64 bits, the first two 01 and the next six below 40.
#[derive(Clone, Copy, PartialEq, Eq, Debug)]
pub struct Plain {
    pub packed: u64,
    ghost fits: { packed < 2 ^ 64 },
    ghost tag: { packed / 4611686018427387904 ≡ 1 },
    ghost low: { packed / 72057594037927936 % 64 < 40 },
}
