ghost use Rattle.canal.specs.GateOrders.{refusal as others};
ghost use Rattle.model.specs.Words.{Unpacked};
ghost use Rattle.std.specs.Prelude.{◌≡◌, [], ◌∷◌, IfOk};
ghost use Rattle.canal.specs.Layout.{Made, Unique, bad};
ghost use Rattle.canal.specs.Transfers.{Move, fields, move, packed, read, refusal, said, wrong};
ghost use Rattle.std.proofs.Common.{rules};

use crate::layout::{Field, NUMBER, TAG};
use crate::transfer::Transfer;
use model::{Fault, Operation, Reason, Word};
use std::fmt;

const SOURCE: Field = Field {
    at: 2,
    width: 5,
    least: 0,
    most: 31,
};

const TARGET: Field = Field {
    at: 7,
    width: 5,
    least: 0,
    most: 31,
};

const VOLUME: Field = Field {
    at: 12,
    width: 20,
    least: 1,
    most: 1000000,
};

const ZEROS: Field = Field {
    at: 32,
    width: 8,
    least: 0,
    most: 0,
};

// The transfer with these numbers, if each is in its range; `zeros` is what the zero bits hold.
fn checked(
    source: u32,
    target: u32,
    volume: u32,
    zeros: u32,
    number: u32,
) -> Result<Transfer, Fault>
    ensures { Made said (bad fields (source ∷ target ∷ volume ∷ zeros ∷ number ∷ [])) (move source target volume number) result }
{
    let source = SOURCE.check(source)? as u8;
    let target = TARGET.check(target)? as u8;
    let volume = VOLUME.check(volume)?;
    ZEROS.check(zeros)?;
    let number = NUMBER.check(number)?;
    Ok(Transfer {
        source,
        target,
        volume,
        number,
    })
}

impl Transfer {
    // The transfer with these numbers, if each is in its range.
    pub fn new(source: u32, target: u32, volume: u32, number: u32) -> Result<Transfer, Fault>
        ensures { Made said (wrong (move source target volume number)) (move source target volume number) result }
    {
        checked(source, target, volume, 0, number)
    }
}

impl Word for Transfer {
    ghost Value = { Move };

    ghost means = { said };

    fn same(&self, other: &Self) -> bool {
        *self == *other
    }
}

impl Operation for Transfer {
    ghost bits = { λ u. packed (said u) };

    ghost refused = { refusal };

    ghost fits = { Prim.search rules };

    ghost one = { Prim.search rules };

    ghost apart = { Prim.search rules };

    ghost whole = { Prim.search rules };

    // Unpacking what is packed gives an equal operation, and no other bits do.
    fn pack(&self) -> u64
        ensures is { result ≡ packed (said self.now) }
        ensures unique { Unique refusal others read result (said self.now) }
    {
        let bits = SOURCE.after(2, self.source as u32);
        let bits = TARGET.after(bits, self.target as u32);
        let bits = VOLUME.after(bits, self.volume);
        let bits = ZEROS.after(bits, 0);
        NUMBER.after(bits, self.number)
    }

    // Packing what is unpacked gives the same bits, and what other bits give is not equal.
    fn unpack(bits: u64) -> Result<Transfer, Fault>
        ensures is { Unpacked (λ u. packed (said u)) refusal bits result }
        ensures unique { IfOk result (λ u. Unique refusal others read bits (said u)) }
    {
        if TAG.of(bits) != 2 {
            return Err(Fault::new(Reason::OtherTag, TAG.at));
        }
        checked(
            SOURCE.of(bits),
            TARGET.of(bits),
            VOLUME.of(bits),
            ZEROS.of(bits),
            NUMBER.of(bits),
        )
    }
}

// The fields in their order, without the tag and the zero bits.
impl fmt::Display for Transfer {
    fn fmt<W: fmt::Write>(&self, f: &mut fmt::Formatter<W>) -> fmt::Result {
        let source = self.source;
        let target = self.target;
        let volume = self.volume;
        let number = self.number;
        write!(f, "{source} {target} {volume} {number}")
    }
}
