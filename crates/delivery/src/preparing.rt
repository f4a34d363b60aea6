ghost use Rattle.std.specs.Prelude.{◌≡◌, ◌+◌, ◌≤◌, length, take, is_some, Some, slice_set};
ghost use Rattle.delivery.specs.Deliveries.{first_vote, prepared_at};
ghost use Rattle.delivery.specs.Hearings.{Voted};
ghost use Rattle.delivery.specs.Tellings.{newly};
ghost use Rattle.model.specs.Decided.{certified_by};
ghost use Rattle.model.specs.Quorums.{held};
ghost use Rattle.rows.specs.Caps.{capped_at};
ghost use Rattle.rows.specs.Values.{matrix_of};
ghost use Rattle.tables.specs.Plans.{plan_of};
ghost use Rattle.wire.specs.Wires.{same_list};

use crate::heard::Vote;
use crate::meeting::capped_at;
use crate::places::first_vote;
use model::{Machine, certified};
use rows::Matrix;
use tables::Station;

// These places, sixteen at most, as they are read.
fn places_read(votes: &[Option<Matrix>], limit: u8) -> [Option<Matrix>; 16]
    requires { length votes.now ≤ 16 }
    ensures { held matrix_of (take (length votes.now) result) ≡ held (capped_at limit) (held matrix_of votes.now) }
{
    // Kept: the places by number, since of a zipped `&mut` the check knows nothing of what stands behind the last.
    let mut places = [None; 16];
    for (k, place) in places[..votes.len()].iter_mut().enumerate() {
        *place = capped_at(votes, k, limit);
    }
    places
}

// Whether these places are a certificate whose head is the leader.
fn prepared(places: &[Option<Matrix>], leader: u8, f: u8) -> bool
    ensures { result ≡ is_some (certified_by same_list f (held matrix_of places.now) leader) }
{
    certified(places, leader as usize, f).is_some()
}

// Whether a station that is not prepared for a number becomes so when it takes this first vote.
pub(crate) fn newly_prepared<M: Machine>(at: &Station<'_, '_, M>, vote: &Vote) -> bool
    requires { Voted (plan_of at.now.numbers) vote.now }
    ensures { let p = plan_of at.now.numbers in
        let votes = held matrix_of at.now.tables.now.votes.now in
        let i = at.now.index in
        let n = vote.now.number in
        result ≡ newly (prepared_at p votes i n) (prepared_at p (slice_set votes (first_vote p i n + vote.now.speaker) (Some (matrix_of vote.now.matrix))) i n) }
{
    let numbers = at.numbers;
    let n = numbers.watch.stations() as usize;
    let from = first_vote(numbers.watch, at.index, vote.number);
    let t = at.tables;
    let mut places = places_read(&t.votes[from..from + n], numbers.watch.limit);
    if prepared(&places[..n], numbers.leader, numbers.watch.faults) {
        return false;
    }
    places[vote.speaker as usize] = Some(vote.matrix);
    prepared(&places[..n], numbers.leader, numbers.watch.faults)
}
