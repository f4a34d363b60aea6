ghost use Rattle.std.specs.Prelude.{◌≡◌, ℕ, ◌+◌, ◌<◌, ◌≤◌, List, map, length};
ghost use Rattle.canal.specs.Layout.{Made};
ghost use Rattle.pounds.specs.Ledgers.{Booked, Level, few, fits, level, level_of, means, moved_by, number_of, total, verdict};
ghost use Rattle.canal.specs.Transfers.{packed, read, said};
ghost use Rattle.std.specs.Option.{option_map};
ghost use Rattle.std.specs.List.{slice_get};

use crate::ledger::{Booking, MOST_POUNDS, Pound, PoundCode, PoundLedger};
use canal::Transfer;
use model::{Fault, Machine, Reason};

impl Pound {
    // A pound that holds this much of this capacity.
    pub fn new(volume: u32, capacity: u32) -> Result<Pound, Fault>
        ensures { Made level_of (fits volume capacity) (level volume capacity) result }
    {
        if capacity > 1000000 || volume > capacity {
            return Err(Fault::new(Reason::OutOfRange, 0));
        }
        Ok(Pound { volume, capacity })
    }
}

impl PoundLedger {
    // A ledger of these pounds.
    pub fn new(pounds: &[Pound]) -> Result<PoundLedger, Fault>
        ensures { Made means (few (length pounds.now)) (map level_of pounds.now) result }
    {
        let fitted = pounds.len();
        if fitted < 1 || fitted > MOST_POUNDS {
            return Err(Fault::new(Reason::OutOfRange, 0));
        }
        let none = Pound {
            volume: 0,
            capacity: 0,
        };
        let mut all = [none; MOST_POUNDS];
        all[0..fitted].copy_from_slice(pounds);
        Ok(PoundLedger {
            pounds: all,
            fitted,
        })
    }

    // The pound of this number, if it is fitted.
    pub fn pound(&self, number: u8) -> Option<Pound>
        ensures { option_map level_of result ≡ slice_get (means self.now) number }
    {
        self.pounds[..self.fitted].get(number as usize).copied()
    }

    // What the ledger answers to the transfer, and the two pounds as they will be.
    fn judge(&self, order: &Transfer) -> Result<Booking, PoundCode>
        ensures { Booked (means self.now) (said order.now) result }
    {
        let source = self.pound(order.source).ok_or(PoundCode::NotFitted)?;
        let target = self.pound(order.target).ok_or(PoundCode::NotFitted)?;
        if order.source == order.target {
            return Err(PoundCode::SamePound);
        }
        if source.volume < order.volume {
            return Err(PoundCode::TooLittle);
        }
        if target.volume + order.volume > target.capacity {
            return Err(PoundCode::TooMuch);
        }
        Ok(Booking {
            source: Pound {
                volume: source.volume - order.volume,
                capacity: source.capacity,
            },
            target: Pound {
                volume: target.volume + order.volume,
                capacity: target.capacity,
            },
        })
    }

    // Takes the transfer: the volume moves, or the ledger stays as it is. No water is made or lost.
    pub fn take(&mut self, order: &Transfer) -> PoundCode
        ensures answer { result ≡ verdict (means self.old) (said order.now) }
        ensures after { means self.new ≡ moved_by (means self.old) (said order.now) }
        ensures conserved { total (means self.new) ≡ total (means self.old) }
    {
        match self.judge(order) {
            Ok(booking) => {
                self.pounds[order.source as usize] = booking.source;
                self.pounds[order.target as usize] = booking.target;
                PoundCode::Moved
            }
            Err(code) => code,
        }
    }
}

impl Machine for PoundLedger {
    type Op = Transfer;

    ghost State = { List Level };

    ghost means = { means };

    ghost step = { λ ps bits. moved_by ps (read bits) };

    ghost code = { λ ps bits. number_of (verdict ps (read bits)) };

    fn apply(&mut self, order: &Transfer) -> u8
        ensures state { means self.new ≡ moved_by (means self.old) (read (packed (said order.now))) }
        ensures answer { result ≡ number_of (verdict (means self.old) (read (packed (said order.now)))) }
        ensures conserved { total (means self.new) ≡ total (means self.old) }
    {
        self.take(order) as u8
    }

    fn copy(&self) -> PoundLedger {
        *self
    }
}
