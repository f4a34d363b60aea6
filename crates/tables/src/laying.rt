ghost use Rattle.std.specs.Prelude.{◌≡◌, ℕ, ◌*◌, ◌≤◌};
ghost use Rattle.model.specs.Quorums.{stations};
ghost use Rattle.tables.specs.Contents.{Lays, contents, opened_on};
ghost use Rattle.tables.specs.Plans.{Places, Stations, lengths_of, plan_of};

use crate::clear::fill_front;
use crate::fit::{too_short, vote_places, word_places};
use crate::numbers::Numbers;
use crate::tables::{Counts, Tables};
use model::{Fault, Machine, Reason};
use rows::Row;

// Clears the tables for a run of these numbers.
fn clear<M: Machine + Drop>(numbers: Numbers, t: &mut Tables<'_, M>, start: &M)
    requires places { Places (stations numbers.watch.faults) numbers.watch.limit (lengths_of t.old) }
    requires stations { Stations (stations numbers.watch.faults) numbers.wire (lengths_of t.old) }
    ensures { contents M.Op.Operation.bits M.Machine.means t.new ≡ opened_on (plan_of numbers) (M.Machine.means start.now) (contents M.Op.Operation.bits M.Machine.means t.old) }
{
    let n = numbers.watch.stations() as usize;
    let votes = vote_places(numbers.watch);
    fill_front(t.words, word_places(numbers.watch), || None);
    fill_front(t.votes, votes, || None);
    fill_front(t.commits, votes, || None);
    fill_front(t.kept, n * n, || Row::zero(n));
    fill_front(t.machines, n, || start.copy());
    let none = Counts {
        submitted: 0,
        executed: 0,
    };
    fill_front(t.counts, n, || none);
    fill_front(t.accused, n, || 0);
}

impl Numbers {
    // Makes the tables ready for a run of these numbers, in which each station starts from a copy of this machine.
    pub fn lay<M: Machine + Drop>(self, t: &mut Tables<'_, M>, start: &M) -> Result<(), Fault>
        ensures { Lays (plan_of self) (M.Machine.means start.now) (lengths_of t.old) (contents M.Op.Operation.bits M.Machine.means t.old) result (contents M.Op.Operation.bits M.Machine.means t.new) }
    {
        if too_short(self.watch, self.wire as usize, t) {
            return Err(Reason::ShortTable.into());
        }
        clear(self, t, start);
        Ok(())
    }
}
