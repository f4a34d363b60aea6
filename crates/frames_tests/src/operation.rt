ghost use Rattle.std.specs.Prelude.{ℕ};
ghost use Rattle.frames_tests.specs.Plain.{plain_fault};
ghost use Rattle.std.proofs.Common.{rules};

use crate::plain::Plain;
use model::{Fault, Operation, Reason, Word};

impl Word for Plain {
    ghost Value = { ℕ };

    ghost means = { λ u. u.packed };

    fn same(&self, other: &Plain) -> bool {
        self == other
    }
}

impl Operation for Plain {
    ghost bits = { λ u. u.packed };

    ghost refused = { plain_fault };

    ghost fits = { Prim.search rules };

    ghost one = { Prim.search rules };

    ghost apart = { Prim.search rules };

    ghost whole = { Prim.search rules };

    fn pack(&self) -> u64 {
        self.packed
    }

    fn unpack(packed: u64) -> Result<Plain, Fault> {
        if packed / 4611686018427387904 != 1 {
            return Err(Fault::new(Reason::OtherTag, 0));
        }
        if packed / 72057594037927936 % 64 >= 40 {
            return Err(Fault::new(Reason::OutOfRange, 2));
        }
        Ok(Plain { packed })
    }
}
