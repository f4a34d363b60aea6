ghost use Rattle.std.specs.Prelude.{◌≡◌, ℕ, ◌+◌, ◌-◌, ◌*◌, ◌^◌, ◌<◌, ◌≤◌};
ghost use Rattle.delivery.specs.Deliveries.{first_vote as first_vote_of};
ghost use Rattle.delivery.specs.Hearings.{Voted, Worded};
ghost use Rattle.model.specs.Quorums.{stations};
ghost use Rattle.tables.specs.Plans.{plan_of, vote_places, word_places};
ghost use Rattle.tables.specs.Reading.{first_place};

use crate::heard::{Spoken, Vote};
use model::{Machine, Watch};
use tables::Station;

// Where the places of a number begin, in a row of numbers.
// Kept: the range of the number as a `requires` of its own, since no type of a number knows the length of its watch; and
// places that are computed, since the tables of a run are lent as flat slices; and of its own, beside `first_place` of
// `tables`, since a public function may not ask that numbers are within ranges.
fn places_of(watch: Watch, row: usize, number: u8) -> usize
    requires row { row < 256 }
    requires number { (1 ≤ number) × (number ≤ watch.limit) }
    ensures is { result ≡ (row * watch.limit + (number - 1)) * stations watch.faults }
    ensures small { result < 2 ^ 18 }
    ensures fits { (rows : ℕ) → row < rows → result + stations watch.faults ≤ rows * watch.limit * stations watch.faults }
{
    let n = watch.stations() as usize;
    (row * watch.limit as usize + (number as usize - 1)) * n
}

// The place of a speaker's row at a station.
pub(crate) fn row_place(watch: Watch, station: usize, speaker: u8) -> usize
    requires stations { (station < stations watch.faults) × (speaker < stations watch.faults) }
    ensures is { result ≡ station * stations watch.faults + speaker }
    ensures small { result < 256 }
    ensures fits { result < stations watch.faults * stations watch.faults }
{
    station * watch.stations() as usize + speaker as usize
}

// Where the places of a number begin at a station, among the first votes or the commits.
// Kept: the range of the number as a `requires` of its own, since no type of a number knows the length of its watch.
pub(crate) fn first_vote(watch: Watch, station: usize, number: u8) -> usize
    requires station { station < stations watch.faults }
    requires number { (1 ≤ number) × (number ≤ watch.limit) }
    ensures is { result ≡ (station * watch.limit + (number - 1)) * stations watch.faults }
    ensures small { result < 2 ^ 18 }
    ensures fits { result + stations watch.faults ≤ vote_places (stations watch.faults) watch.limit }
{
    places_of(watch, station, number)
}

// The place of a vote at a station, among the first votes or the commits.
pub(crate) fn vote_place<M: Machine>(at: &Station<'_, '_, M>, vote: &Vote) -> usize
    requires { Voted (plan_of at.now.numbers) vote.now }
    ensures is { result ≡ first_vote_of (plan_of at.now.numbers) at.now.index vote.now.number + vote.now.speaker }
    ensures fits { result < vote_places (stations at.now.numbers.watch.faults) at.now.numbers.watch.limit }
{
    first_vote(at.numbers.watch, at.index, vote.number) + vote.speaker as usize
}

// The place of a speaker's word on an origin's sequence at a station.
pub(crate) fn word_place<M: Machine>(at: &Station<'_, '_, M>, spoken: Spoken) -> usize
    requires { Worded M.Op.Operation.refused (plan_of at.now.numbers) spoken }
    ensures is { result ≡ first_place (stations at.now.numbers.watch.faults) at.now.numbers.watch.limit at.now.index spoken.origin spoken.sequence + spoken.speaker }
    ensures fits { result < word_places (stations at.now.numbers.watch.faults) at.now.numbers.watch.limit }
{
    let watch = at.numbers.watch;
    let row = row_place(watch, at.index, spoken.origin);
    places_of(watch, row, spoken.sequence) + spoken.speaker as usize
}
