ghost use Rattle.tables.specs.Plans.{plan_of};
ghost use Rattle.std.specs.Prelude.{◌≡◌};

use crate::life::{Closed, Open};
use tables::Numbers;

impl Open {
    // The run's numbers, by which it is read.
    pub fn numbers(&self) -> Numbers
        ensures { plan_of result ≡ plan_of self.now.numbers }
    {
        let Open { numbers, .. } = self;
        *numbers
    }

    // Ends the run. What its tables hold can still be read.
    pub fn close(self) -> Closed
        ensures numbers { plan_of result.numbers ≡ plan_of self.numbers }
        ensures end { result.end ≡ self.end }
        ensures last { result.last ≡ self.last }
    {
        Closed {
            numbers: self.numbers,
            end: self.end,
            last: self.last,
        }
    }
}

impl Closed {
    // The run's numbers, by which it is read.
    pub fn numbers(&self) -> Numbers
        ensures { plan_of result ≡ plan_of self.now.numbers }
    {
        self.numbers
    }
}
