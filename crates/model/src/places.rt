ghost use Rattle.std.specs.Prelude.{◌≡◌, ℕ, ◌*◌, ◌≤◌, length, Some, None, Decides, nat_le, slice_index_or};
ghost use Rattle.model.specs.Quorums.{Answers, Backers, Certificate, Ordered, Tally, held, meant, quorum, stations};

use crate::sets::{count, with, without};
use crate::traits::Word;

// Whether the place holds a word the same as the given one.
fn holds<W: Word>(place: &Option<W>, word: &W) -> bool
    ensures { Decides result (meant W.Word.means place.now ≡ Some (W.Word.means word.now)) }
{
    place.as_ref().is_some_and(|held| held.same(word))
}

// The set of the places, sixteen at most, that hold a word the same as the given one.
fn backers<W: Word>(places: &[Option<W>], word: &W) -> u16
    ensures { Backers (held W.Word.means places.now) (W.Word.means word.now) result }
{
    // Kept: a loop, since a fold would say in a clause of its closure what its set holds so far, and be no plainer.
    let mut set = 0;
    for (j, place) in places.iter().enumerate() {
        if holds(place, word) {
            set = with(set, j);
        }
    }
    set
}

// How many places hold a word the same as the given one.
pub fn tally<W: Word>(places: &[Option<W>], word: &W) -> u8
    ensures { Tally (held W.Word.means places.now) (W.Word.means word.now) result }
{
    count(backers(places, word))
}

// The word at this place, if there is one.
pub fn word_at<W: Word>(places: &[Option<W>], at: usize) -> Option<&W>
    ensures { meant (λ u. W.Word.means u.now) result ≡ slice_index_or (held W.Word.means places.now) at None }
{
    places.get(at)?.as_ref()
}

// Whether so many are a quorum.
fn is_quorum(number: u8, f: u8) -> bool
    ensures { result ≡ nat_le (quorum f) number }
{
    u16::from(number) >= 2 * u16::from(f) + 1
}

// Whether so many are enough beside the head.
fn are_enough(others: u8, f: u8) -> bool
    ensures { result ≡ nat_le (2 * f) others }
{
    u16::from(others) >= 2 * u16::from(f)
}

// The word that has a certificate under this head, if there is one: the head's place holds it, and at least 2f other
// places hold the same.
pub fn certified<W: Word>(places: &[Option<W>], head: usize, f: u8) -> Option<&W>
    ensures { Answers (Certificate f (held W.Word.means places.now) head) (meant (λ u. W.Word.means u.now) result) }
{
    let word = word_at(places, head)?;
    let others = count(without(backers(places, word), head));
    if are_enough(others, f) {
        Some(word)
    } else {
        None
    }
}

// Whether at least 2f + 1 places hold a word the same as the given one.
fn has_quorum<W: Word>(places: &[Option<W>], word: &W, f: u8) -> bool
    ensures { Decides result (Ordered f (held W.Word.means places.now) (W.Word.means word.now)) }
{
    is_quorum(tally(places, word), f)
}

// The word that at least 2f + 1 places hold, if there is one. Among 3f + 1 places there are never two.
pub fn ordered<W: Word>(places: &[Option<W>], f: u8) -> Option<&W>
    ensures finds { Answers (Ordered f (held W.Word.means places.now)) (meant (λ u. W.Word.means u.now) result) }
    ensures single { (v w : W.Word.Value) → length places.now ≤ stations f → Ordered f (held W.Word.means places.now) v → Ordered f (held W.Word.means places.now) w → v ≡ w }
{
    places.iter().flatten().find(
        |word|
            ensures { Decides result (Ordered f (held W.Word.means places.entry.now) (W.Word.means word.now.now)) }
        { has_quorum(places, word, f) },
    )
}
