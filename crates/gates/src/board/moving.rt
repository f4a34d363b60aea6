ghost use Rattle.std.specs.Prelude.{◌≡◌, ℕ};
ghost use Rattle.gates.specs.Boards.{Board, means, moment, moved_by, new_board, number_of, unfit, verdict};
ghost use Rattle.calendar.specs.Calendar.{date_of};
ghost use Rattle.canal.specs.GateOrders.{read, said};
ghost use Rattle.canal.specs.Layout.{Made};
ghost use Rattle.std.specs.List.{slice_get};

use crate::board::{Gate, GateBoard, GateCode, MOST_GATES, Moment};
use calendar::Date;
use canal::GateOrder;
use model::{Fault, Machine, Reason};

// The moment from which an order stands.
impl From<&GateOrder> for Moment {
    ghost from_gives = { λ order m. m ≡ moment (said order.now) };

    fn from(order: &GateOrder) -> Moment {
        Moment {
            day: order.day,
            minute: order.minute,
        }
    }
}

impl GateBoard {
    // A board with this many gates, all closed.
    pub fn new(gates: u32, leap: bool) -> Result<GateBoard, Fault>
        ensures { Made means (unfit gates) (new_board gates leap) result }
    {
        if gates < 1 || gates > MOST_GATES as u32 {
            return Err(Fault::new(Reason::OutOfRange, 0));
        }
        let closed = Gate {
            opening: 0,
            last: None,
        };
        Ok(GateBoard {
            gates: [closed; MOST_GATES],
            fitted: gates as usize,
            leap,
        })
    }

    // The gate of this number, if it is fitted.
    pub fn gate(&self, number: u8) -> Option<Gate>
        ensures { result ≡ slice_get (means self.now).gates number }
    {
        self.gates[..self.fitted].get(number as usize).copied()
    }

    // The date of a day of the board's year.
    pub fn date(&self, day: u16) -> Option<Date>
        ensures { result ≡ date_of (means self.now).leap day }
    {
        Date::of(self.leap, day as u32)
    }

    // What the board answers to the order.
    fn judge(&self, order: &GateOrder) -> GateCode
        ensures { result ≡ verdict (means self.now) (said order.now) }
    {
        let Some(gate) = self.gate(order.gate) else {
            return GateCode::NotFitted;
        };
        if order.day == 366 && !self.leap {
            return GateCode::NoSuchDay;
        }
        match gate.last {
            Some(last) if Moment::from(order) < last => GateCode::TooEarly,
            _ => GateCode::Moved,
        }
    }

    // Takes the order: the gate moves, or the board stays as it is.
    pub fn take(&mut self, order: &GateOrder) -> GateCode
        ensures answer { result ≡ verdict (means self.old) (said order.now) }
        ensures after { means self.new ≡ moved_by (means self.old) (said order.now) }
    {
        match self.judge(order) {
            GateCode::Moved => {
                let gate = Gate {
                    opening: order.opening,
                    last: Some(order.into()),
                };
                self.gates[order.gate as usize] = gate;
                GateCode::Moved
            }
            code => code,
        }
    }
}

impl Machine for GateBoard {
    type Op = GateOrder;

    ghost State = { Board };

    ghost means = { means };

    ghost step = { λ b bits. moved_by b (read bits) };

    ghost code = { λ b bits. number_of (verdict b (read bits)) };

    fn apply(&mut self, order: &GateOrder) -> u8 {
        self.take(order) as u8
    }

    fn copy(&self) -> GateBoard {
        *self
    }
}
