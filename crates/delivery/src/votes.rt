ghost use Rattle.std.specs.Prelude.{◌≡◌};
ghost use Rattle.delivery.specs.Deliveries.{commit as commit_of, vote as vote_of};
ghost use Rattle.delivery.specs.Hearings.{Hears, Makes, Voted};
ghost use Rattle.delivery.specs.Tellings.{takes};
ghost use Rattle.model.specs.Quorums.{held};
ghost use Rattle.rows.specs.Values.{matrix_of};
ghost use Rattle.tables.specs.Plans.{lengths_of, plan_of};

use crate::change::{Change, Delivery};
use crate::heard::Vote;
use crate::meeting::meet_matrix;
use crate::outcome::Outcome;
use crate::places::vote_place;
use crate::preparing::newly_prepared;
use crate::sending::{echoes, quiet, sent, settled, taken};
use frames::Message;
use model::Machine;
use tables::Station;

// What a speaker's commit on a number does at a station.
pub(crate) fn hear_commit<M: Machine>(at: &Station<'_, '_, M>, vote: &Vote) -> Delivery<M::Op>
    requires { Voted (plan_of at.now.numbers) vote.now }
    ensures { Hears M.Op.Operation.bits M.Machine.means at.now.numbers at.now.tables.now at.now.index (commit_of vote.now.number vote.now.speaker (matrix_of vote.now.matrix)) result }
{
    let place = vote_place(at, vote);
    let matrix = vote.matrix;
    let t = at.tables;
    let outcome = meet_matrix(t.commits, place, at.numbers.watch.limit, &matrix);
    settled(outcome, vote.speaker, || {
        quiet(Outcome::Taken, Change::Second { at: place, matrix })
    })
}

// What taking a speaker's first vote on a number does at a station.
fn take_vote<M: Machine>(at: &Station<'_, '_, M>, vote: &Vote) -> Delivery<M::Op>
    requires { Voted (plan_of at.now.numbers) vote.now }
    ensures { Makes M.Op.Operation.bits (lengths_of at.now.tables.now) at.now.index (takes (plan_of at.now.numbers) (held matrix_of at.now.tables.now.votes.now) at.now.index vote.now.number vote.now.speaker (matrix_of vote.now.matrix)) result }
{
    let place = vote_place(at, vote);
    let matrix = vote.matrix;
    let sender = at.index as u8;
    let faults = at.numbers.watch.faults;
    let prepare = Message::Prepare {
        sequence: vote.number,
        matrix,
    };
    let commit = Message::Commit {
        sequence: vote.number,
        matrix,
    };
    let echo = echoes(at.index, at.numbers.leader, vote.speaker).then_some(prepare);
    let one = sent(sender, faults, echo);
    let next = sent(sender, faults, newly_prepared(at, vote).then_some(commit));
    taken(Change::First { at: place, matrix }, one, next)
}

// What a speaker's first vote on a number does at a station.
pub(crate) fn hear_vote<M: Machine>(at: &Station<'_, '_, M>, vote: &Vote) -> Delivery<M::Op>
    requires { Voted (plan_of at.now.numbers) vote.now }
    ensures { Hears M.Op.Operation.bits M.Machine.means at.now.numbers at.now.tables.now at.now.index (vote_of vote.now.number vote.now.speaker (matrix_of vote.now.matrix)) result }
{
    let place = vote_place(at, vote);
    let t = at.tables;
    let outcome = meet_matrix(t.votes, place, at.numbers.watch.limit, &vote.matrix);
    settled(outcome, vote.speaker, || take_vote(at, vote))
}
