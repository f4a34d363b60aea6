ghost use Rattle.delivery.specs.Deliveries.{meets};
ghost use Rattle.delivery.specs.Meetings.{Meets};
ghost use Rattle.model.specs.Quorums.{held as held_in, meant};
ghost use Rattle.rows.specs.Caps.{capped_at};
ghost use Rattle.rows.specs.Values.{matrix_of};
ghost use Rattle.std.specs.Prelude.{◌≡◌, None, nat_eq, slice_index_or};
ghost use Rattle.wire.specs.Wires.{same_list};

use crate::outcome::Outcome;
use model::{Operation, Word, word_at};
use rows::Matrix;

// How a word meets what its place holds.
fn meet<W: Word>(held: Option<&W>, word: &W) -> Outcome
    ensures { Meets (meant (λ u. W.Word.means u.now) held.entry) (W.Word.means word.now) result }
{
    match held {
        Some(known) if known.same(word) => Outcome::Known,
        Some(_) => Outcome::TwoFaced,
        None => Outcome::Taken,
    }
}

// How an operation meets the word at this place.
pub(crate) fn meet_word<O: Operation>(words: &[Option<O>], at: usize, word: &O) -> Outcome
    ensures { result ≡ meets nat_eq (slice_index_or (held_in O.Operation.bits words.now) at None) (O.Operation.bits word.now) }
{
    meet(word_at(words, at), word)
}

// The matrix at this place, if there is one, as it is read: an entry above the limit as the limit.
pub(crate) fn capped_at(places: &[Option<Matrix>], at: usize, limit: u8) -> Option<Matrix>
    ensures { meant matrix_of result ≡ meant (capped_at limit) (slice_index_or (held_in matrix_of places.now) at None) }
{
    word_at(places, at).map(|matrix| matrix.capped(limit))
}

// How a matrix meets the one at this place.
pub(crate) fn meet_matrix(
    places: &[Option<Matrix>],
    at: usize,
    limit: u8,
    matrix: &Matrix,
) -> Outcome
    ensures { result ≡ meets same_list (meant (capped_at limit) (slice_index_or (held_in matrix_of places.now) at None)) (matrix_of matrix.now) }
{
    let held = capped_at(places, at, limit);
    meet(held.as_ref(), matrix)
}
