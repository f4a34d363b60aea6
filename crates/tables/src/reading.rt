ghost use Rattle.std.specs.Prelude.{◌≡◌, ℕ, ◌+◌, ◌<◌, ◌≤◌, min, false, length, get_or, take, drop, nat_eq};
ghost use Rattle.model.specs.Decided.{certified_by};
ghost use Rattle.model.specs.Quorums.{held, stations};
ghost use Rattle.tables.specs.Contents.{contents, done_of};
ghost use Rattle.tables.specs.Plans.{lengths_of, plan_of, word_places};
ghost use Rattle.tables.specs.Reading.{accused_by, certified_at, executed_at, first_place, joined, state_of};
ghost use Rattle.std.specs.Option.{option_map};
ghost use Rattle.std.specs.List.{slice_get};

use crate::numbers::Numbers;
use crate::tables::{Counts, Entry, Tables};
use model::{Machine, Operation, Watch, certified};

impl Numbers {
    // The set of the speakers that the station has found two-faced.
    pub fn accused<M: Machine>(self, t: &Tables<'_, M>, station: u32) -> Option<u16>
        ensures { result ≡ accused_by (plan_of self) (lengths_of t.now) (contents M.Op.Operation.bits M.Machine.means t.now) station }
    {
        let at = self.correct(t, station).ok()?;
        t.accused.get(at.index).copied()
    }

    // The station's machine.
    pub fn machine<'b, M: Machine>(self, t: &'b Tables<'_, M>, station: u32) -> Option<&'b M>
        ensures { option_map (λ m. M.Machine.means m.now) result ≡ state_of (plan_of self) (lengths_of t.now) (contents M.Op.Operation.bits M.Machine.means t.now) station }
    {
        let at = self.correct(t, station).ok()?;
        t.machines.get(at.index)
    }

    // The operation that has a certificate at the station, for this origin and sequence.
    pub fn certified<'b, M: Machine>(
        self,
        t: &'b Tables<'_, M>,
        station: u32,
        origin: u32,
        sequence: u32,
    ) -> Option<&'b M::Op>
        ensures { option_map (λ u. M.Op.Operation.bits u.now) result ≡ certified_at (plan_of self) (lengths_of t.now) (contents M.Op.Operation.bits M.Machine.means t.now) station origin sequence }
    {
        let at = self.correct(t, station).ok()?;
        let n = self.watch.stations() as u32;
        if origin >= n || sequence < 1 || sequence > self.watch.limit as u32 {
            return None;
        }
        let from = first_place(self.watch, at.index, origin, sequence);
        certified_in(
            t.words,
            from,
            n as usize,
            origin as usize,
            self.watch.faults,
        )
    }

    // The entry at a position of the station's executed list, counted from 0.
    pub fn executed<'b, M: Machine>(
        self,
        t: &'b Tables<'_, M>,
        station: u32,
        position: u32,
    ) -> Option<&'b Entry<M::Op>>
        ensures { option_map (λ e. done_of M.Op.Operation.bits e.now) result ≡ executed_at (plan_of self) (lengths_of t.now) (contents M.Op.Operation.bits M.Machine.means t.now) station position }
    {
        let at = self.correct(t, station).ok()?;
        let most = self.watch.stations() as usize * self.watch.limit as usize;
        if position as usize >= executed_by(t.counts, at.index, most) {
            return None;
        }
        present(t.executed, at.index * most + position as usize)
    }
}

// Where the places of an origin's sequence begin at a station.
// Kept: of its own, beside `places_of` of `delivery`, since a public function may not ask that numbers are within ranges.
// Kept: the range of the sequence as a `requires` of its own, since no type of a number knows the length of its watch.
fn first_place(watch: Watch, station: usize, origin: u32, sequence: u32) -> usize
    requires stations { (station < stations watch.faults) × (origin < stations watch.faults) }
    requires sequence { (1 ≤ sequence) × (sequence ≤ watch.limit) }
    ensures is { result ≡ first_place (stations watch.faults) watch.limit station origin sequence }
    ensures fits { result + stations watch.faults ≤ word_places (stations watch.faults) watch.limit }
{
    let n = watch.stations() as usize;
    let row = station * n + origin as usize;
    (row * watch.limit as usize + (sequence as usize - 1)) * n
}

// The word that has a certificate among the n places from this one on, by its packed form.
fn certified_in<O: Operation>(
    words: &[Option<O>],
    from: usize,
    n: usize,
    origin: usize,
    f: u8,
) -> Option<&O>
    requires { from + n ≤ length words.now }
    ensures { option_map (λ u. O.Operation.bits u.now) result ≡ certified_by nat_eq f (take n (drop from (held O.Operation.bits words.now))) origin }
{
    certified(&words[from..from + n], origin, f)
}

// How many operations the station has executed, read as at most this many.
fn executed_by(counts: &[Counts], station: usize, most: usize) -> usize
    requires { station < length counts.now }
    ensures { result ≡ min (get_or counts.now station (record { submitted = 0; executed = 0 })).executed most }
{
    (counts[station].executed as usize).min(most)
}

// What is present at this place, if anything is.
// Kept: beside `word_at` of `model`, which speaks of words by what they mean, and an entry is no word.
fn present<T>(items: &[Option<T>], place: usize) -> Option<&T>
    ensures { option_map (λ x. x.now) result ≡ joined (slice_get items.now place) }
{
    items.get(place)?.as_ref()
}
