ghost use Rattle.std.specs.Prelude.{◌≡◌, ℕ, Decides};
ghost use Rattle.model.specs.Quorums.{stations};
ghost use Rattle.order.specs.Laws.{RowLaws};
ghost use Rattle.order.specs.Rows.{Consistent, entry as entry_of, none_smaller, read, some_larger, standing};

use crate::standing::Standing;
use model::Watch;

// The row's number for an origin, as read in a watch of this length.
fn entry(row: &[u8], origin: usize, limit: u8) -> u8
    ensures { result ≡ entry_of (read limit row.now) origin }
{
    row.get(origin).map_or(0, |entry| (*entry).min(limit))
}

// Whether no entry of `a` is smaller than that of `b`.
fn none_smaller(watch: Watch, a: &[u8], b: &[u8]) -> bool
    ensures { result ≡ none_smaller (stations watch.faults) (read watch.limit a.now) (read watch.limit b.now) }
{
    let n = usize::from(watch.stations());
    (0..n).all(|origin| entry(a, origin, watch.limit) >= entry(b, origin, watch.limit))
}

// Whether some entry of `a` is larger than that of `b`.
fn some_larger(watch: Watch, a: &[u8], b: &[u8]) -> bool
    ensures { result ≡ some_larger (stations watch.faults) (read watch.limit a.now) (read watch.limit b.now) }
{
    let n = usize::from(watch.stations());
    (0..n).any(|origin| entry(a, origin, watch.limit) > entry(b, origin, watch.limit))
}

// How the new row stands to the kept one. Only the entries of the watch's stations count; an entry that is not there
// is 0, and one above the watch length is read as the watch length.
pub fn compare(watch: Watch, new: &[u8], kept: &[u8]) -> Standing
    ensures { result ≡ standing (stations watch.faults) (read watch.limit new.now) (read watch.limit kept.now) }
{
    if !some_larger(watch, new, kept) {
        Standing::Known
    } else if none_smaller(watch, new, kept) {
        Standing::Newer
    } else {
        Standing::Inconsistent
    }
}

// Whether one of the two rows, read so, is at least as up-to-date as the other. The laws of rows stand here: what the two
// questions say, that exactly one standing holds, and that being at least as up-to-date is an order.
pub fn consistent(watch: Watch, a: &[u8], b: &[u8]) -> bool
    ensures answer { Decides result (Consistent (stations watch.faults) (read watch.limit a.now) (read watch.limit b.now)) }
    ensures laws { RowLaws }
{
    none_smaller(watch, a, b) || none_smaller(watch, b, a)
}
