ghost use Rattle.std.specs.Prelude.{◌≡◌, ℕ, ◌+◌, ◌-◌, ◌*◌, ◌^◌, ◌<◌, ◌≤◌, Ok, Err};
ghost use Rattle.canal.specs.Layout.{content, ranged};

use model::{Fault, Reason};

// A field of a packed operation: its first bit among the 64, the most significant being bit 0; how many bits it has;
// and the least and the largest number that it may hold.
#[derive(Clone, Copy)]
pub struct Field {
    pub at: u16,
    pub width: u16,
    pub least: u32,
    pub most: u32,
}

// Every operation begins with its type's tag and ends with its number.
pub(crate) const TAG: Field = Field {
    at: 0,
    width: 2,
    least: 1,
    most: 2,
};

pub(crate) const NUMBER: Field = Field {
    at: 40,
    width: 24,
    least: 0,
    most: 16777215,
};

impl Field {
    // The number, if the field may hold it.
    pub(crate) fn check(self, value: u32) -> Result<u32, Fault>
        ensures { result ≡ ranged self value }
    {
        if value < self.least || self.most < value {
            return Err(Fault::new(Reason::OutOfRange, self.at));
        }
        Ok(value)
    }

    // The number in the field's bits.
    pub(crate) fn of(self, bits: u64) -> u32
        requires place { self.at + self.width ≤ 64 }
        requires size { (1 ≤ self.width) × (self.width ≤ 32) }
        ensures { result ≡ content self bits }
    {
        ((bits >> (64 - self.at - self.width)) & ((1 << self.width) - 1)) as u32
    }

    // The bits before the field, followed by the field with this number.
    pub(crate) fn after(self, bits: u64, value: u32) -> u64
        requires place { self.at + self.width ≤ 64 }
        requires size { (1 ≤ self.width) × (self.width ≤ 32) }
        requires room { (bits < 2 ^ self.at) × (value < 2 ^ self.width) }
        ensures { result ≡ bits * 2 ^ self.width + value }
    {
        (bits << self.width) | value as u64
    }
}
