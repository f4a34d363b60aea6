ghost use Rattle.std.specs.Prelude.{◌≡◌, ℕ, ◌+◌, ◌*◌, ◌^◌, ◌<◌, ◌≤◌, ◌||◌};
ghost use Rattle.model.specs.Quorums.{stations};
ghost use Rattle.tables.specs.Plans.{entry_places, few_places, few_stations, fitted, lengths_of, plan_of, short, vote_places, word_places};
ghost use Rattle.tables.specs.Refusing.{seen_as};
ghost use Rattle.std.specs.Int.Count.{ones};

use crate::numbers::{Numbers, Setup};
use crate::tables::Tables;
use model::{Fault, Machine, Reason, Watch};

// How many places the words of a run take.
pub(crate) fn word_places(watch: Watch) -> usize
    ensures is { result ≡ word_places (stations watch.faults) watch.limit }
{
    let n = watch.stations() as usize;
    n * n * watch.limit as usize * n
}

// How many places its first votes take, and its commits.
pub(crate) fn vote_places(watch: Watch) -> usize
    ensures is { result ≡ vote_places (stations watch.faults) watch.limit }
{
    let n = watch.stations() as usize;
    n * watch.limit as usize * n
}

// How many entries its executed lists take.
pub(crate) fn entry_places(watch: Watch) -> usize
    ensures is { result ≡ entry_places (stations watch.faults) watch.limit }
{
    let n = watch.stations() as usize;
    n * n * watch.limit as usize
}

fn few_places<M: Machine>(watch: Watch, t: &Tables<'_, M>) -> bool
    ensures { result ≡ few_places (stations watch.faults) watch.limit (lengths_of t.now) }
{
    let votes = vote_places(watch);
    t.words.len() < word_places(watch)
        || t.votes.len() < votes
        || t.commits.len() < votes
        || t.executed.len() < entry_places(watch)
}

fn few_stations<M: Machine>(watch: Watch, wire: usize, t: &Tables<'_, M>) -> bool
    ensures { result ≡ few_stations (stations watch.faults) wire (lengths_of t.now) }
{
    let n = watch.stations() as usize;
    t.wire.len() < wire
        || t.kept.len() < n * n
        || t.machines.len() < n
        || t.counts.len() < n
        || t.accused.len() < n
}

// Whether a table is too short for a watch and this many places of the wire.
pub(crate) fn too_short<M: Machine>(watch: Watch, wire: usize, t: &Tables<'_, M>) -> bool
    ensures { result ≡ short (stations watch.faults) watch.limit wire (lengths_of t.now) }
{
    few_places(watch, t) || few_stations(watch, wire, t)
}

impl Numbers {
    // Checks the numbers of a run and the tables that it is to have.
    pub fn fit<M: Machine>(setup: Setup, t: &Tables<'_, M>) -> Result<Numbers, Fault>
        ensures { seen_as plan_of result ≡ fitted setup.faults setup.length setup.leader setup.faulty (lengths_of t.now) }
    {
        let watch = Watch::new(setup.faults, setup.length)?;
        let n = watch.stations() as u32;
        if setup.leader >= n {
            return Err(Reason::Leader.into());
        }
        if setup.faulty >= 1 << n || setup.faulty.count_ones() > setup.faults {
            return Err(Reason::FaultySet.into());
        }
        if too_short(watch, 1, t) {
            return Err(Reason::ShortTable.into());
        }
        Ok(Numbers {
            watch,
            leader: setup.leader as u8,
            faulty: setup.faulty as u16,
            wire: t.wire.len().min(65535) as u16,
        })
    }
}
