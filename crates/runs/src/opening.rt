ghost use Rattle.runs.specs.Opening.{Opens};
ghost use Rattle.tables.specs.Contents.{contents};
ghost use Rattle.tables.specs.Plans.{fitted, lengths_of, plan_of};
ghost use Rattle.tables.specs.Refusing.{seen_as};
ghost use Rattle.std.specs.Prelude.{◌≡◌};

use crate::life::{Declined, Fitted, Open};
use model::{Fault, Machine};
use tables::{Numbers, Setup, Tables};

// A run that could not be opened is passed on as the reason alone.
impl From<Declined> for Fault {
    ghost from_gives = { λ declined fault. fault ≡ declined.fault };

    fn from(declined: Declined) -> Fault {
        declined.fault
    }
}

impl Fitted {
    // Checks the numbers of a run and the tables that it is to have.
    pub fn new<M: Machine>(setup: Setup, t: &Tables<'_, M>) -> Result<Fitted, Fault>
        ensures { seen_as (λ x. plan_of x.numbers) result ≡ fitted setup.faults setup.length setup.leader setup.faulty (lengths_of t.now) }
    {
        let numbers = Numbers::fit(setup, t)?;
        Ok(Fitted { numbers })
    }

    // Opens the run: each station starts from a copy of this machine.
    pub fn open<M: Machine + Drop>(self, t: &mut Tables<'_, M>, start: &M) -> Result<Open, Declined>
        ensures { Opens (plan_of self.numbers) (M.Machine.means start.now) (lengths_of t.old) (contents M.Op.Operation.bits M.Machine.means t.old) result (contents M.Op.Operation.bits M.Machine.means t.new) }
    {
        let numbers = self.numbers;
        match numbers.lay(t, start) {
            Ok(()) => Ok(Open {
                numbers,
                end: 0,
                last: 0,
            }),
            Err(fault) => Err(Declined {
                fitted: self,
                fault,
            }),
        }
    }
}
