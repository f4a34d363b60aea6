ghost use Rattle.canal.specs.GateOrders.{Order, order, packed, read, refusal, said, wrong};
ghost use Rattle.canal.specs.Transfers.{refusal as others};
ghost use Rattle.model.specs.Words.{Unpacked};
ghost use Rattle.std.specs.Prelude.{◌≡◌, IfOk};
ghost use Rattle.canal.specs.Layout.{Made, Unique};
ghost use Rattle.std.proofs.Common.{rules};

use crate::gate_order::GateOrder;
use crate::layout::{Field, NUMBER, TAG};
use model::{Fault, Operation, Reason, Word};
use std::fmt;

const GATE: Field = Field {
    at: 2,
    width: 6,
    least: 0,
    most: 39,
};

const OPENING: Field = Field {
    at: 8,
    width: 12,
    least: 0,
    most: 4000,
};

const DAY: Field = Field {
    at: 20,
    width: 9,
    least: 1,
    most: 366,
};

const MINUTE: Field = Field {
    at: 29,
    width: 11,
    least: 0,
    most: 1439,
};

impl GateOrder {
    // The order with these numbers, if each is in its range.
    pub fn new(
        gate: u32,
        opening: u32,
        day: u32,
        minute: u32,
        number: u32,
    ) -> Result<GateOrder, Fault>
        ensures { Made said (wrong (order gate opening day minute number)) (order gate opening day minute number) result }
    {
        let gate = GATE.check(gate)? as u8;
        let opening = OPENING.check(opening)? as u16;
        let day = DAY.check(day)? as u16;
        let minute = MINUTE.check(minute)? as u16;
        let number = NUMBER.check(number)?;
        Ok(GateOrder {
            gate,
            opening,
            day,
            minute,
            number,
        })
    }
}

impl Word for GateOrder {
    ghost Value = { Order };

    ghost means = { said };

    fn same(&self, other: &Self) -> bool {
        *self == *other
    }
}

impl Operation for GateOrder {
    ghost bits = { λ u. packed (said u) };

    ghost refused = { refusal };

    ghost fits = { Prim.search rules };

    ghost one = { Prim.search rules };

    ghost apart = { Prim.search rules };

    ghost whole = { Prim.search rules };

    // Unpacking what is packed gives an equal operation, and no other bits do.
    fn pack(&self) -> u64
        ensures is { result ≡ packed (said self.now) }
        ensures unique { Unique refusal others read result (said self.now) }
    {
        let bits = GATE.after(1, self.gate as u32);
        let bits = OPENING.after(bits, self.opening as u32);
        let bits = DAY.after(bits, self.day as u32);
        let bits = MINUTE.after(bits, self.minute as u32);
        NUMBER.after(bits, self.number)
    }

    // Packing what is unpacked gives the same bits, and what other bits give is not equal.
    fn unpack(bits: u64) -> Result<GateOrder, Fault>
        ensures is { Unpacked (λ u. packed (said u)) refusal bits result }
        ensures unique { IfOk result (λ u. Unique refusal others read bits (said u)) }
    {
        if TAG.of(bits) != 1 {
            return Err(Fault::new(Reason::OtherTag, TAG.at));
        }
        GateOrder::new(
            GATE.of(bits),
            OPENING.of(bits),
            DAY.of(bits),
            MINUTE.of(bits),
            NUMBER.of(bits),
        )
    }
}

// The fields in their order, without the tag.
impl fmt::Display for GateOrder {
    fn fmt<W: fmt::Write>(&self, f: &mut fmt::Formatter<W>) -> fmt::Result {
        let gate = self.gate;
        let opening = self.opening;
        let day = self.day;
        let minute = self.minute;
        let number = self.number;
        write!(f, "{gate} {opening} {day} {minute} {number}")
    }
}
