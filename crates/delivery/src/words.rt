ghost use Rattle.std.specs.Prelude.{◌<◌, length};
ghost use Rattle.delivery.specs.Deliveries.{echoes, effect, place as place_of};
ghost use Rattle.delivery.specs.Hearings.{Hears, Makes, Worded, word_of};
ghost use Rattle.delivery.specs.declared.outcome.Outcome.TheVariants.{Taken as TakenIs};
ghost use Rattle.frames.specs.Said.{ack as ack_of};
ghost use Rattle.tables.specs.Plans.{lengths_of, plan_of};

use crate::change::{Change, Delivery};
use crate::heard::Spoken;
use crate::meeting::meet_word;
use crate::places::word_place;
use crate::sending::{echoes, sent, settled, taken};
use frames::Message;
use model::{Machine, Operation};
use tables::Station;

// What taking a speaker's word into its place does at a station.
fn take_word<M: Machine>(
    at: &Station<'_, '_, M>,
    spoken: Spoken,
    place: usize,
    word: M::Op,
) -> Delivery<M::Op>
    requires worded { Worded M.Op.Operation.refused (plan_of at.now.numbers) spoken }
    requires within { place < length at.now.tables.now.words.now }
    ensures { Makes M.Op.Operation.bits (lengths_of at.now.tables.now) at.now.index (effect TakenIs spoken.speaker (place_of place (M.Op.Operation.bits word)) (echoes at.now.index spoken.origin spoken.speaker (ack_of at.now.index at.now.numbers.watch.faults spoken.sequence spoken.origin spoken.packed))) result }
{
    let ack = Message::Ack {
        sequence: spoken.sequence,
        origin: spoken.origin,
        packed: spoken.packed,
    };
    let echo = echoes(at.index, spoken.origin, spoken.speaker).then_some(ack);
    let frame = sent(at.index as u8, at.numbers.watch.faults, echo);
    taken(Change::Place { at: place, word }, frame, None)
}

// What a speaker's word on an origin's sequence does at a station.
pub(crate) fn hear_word<M: Machine>(at: &Station<'_, '_, M>, spoken: Spoken) -> Delivery<M::Op>
    requires { Worded M.Op.Operation.refused (plan_of at.now.numbers) spoken }
    ensures { Hears M.Op.Operation.bits M.Machine.means at.now.numbers at.now.tables.now at.now.index (word_of spoken) result }
{
    let Ok(word) = M::Op::unpack(spoken.packed) else {
        unreachable()
    };
    let place = word_place(at, spoken);
    let t = at.tables;
    let outcome = meet_word(t.words, place, &word);
    settled(
        outcome,
        spoken.speaker,
        || take_word(at, spoken, place, word),
    )
}
