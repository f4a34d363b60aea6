ghost use Rattle.std.specs.Prelude.{◌≡◌, ℕ, ◌<◌, ◌≤◌, List, [], ◌∷◌, ◌++◌, length};
ghost use Rattle.model.specs.Quorums.{stations};
ghost use Rattle.order.specs.Columns.{Matrix};
ghost use Rattle.order.specs.Laws.{OrderLaws};
ghost use Rattle.order.specs.Orders.{added, after, found, order as order_of, total};
ghost use Rattle.order.specs.Reaches.{Raised, Reached, kept};
ghost use Rattle.std.specs.List.{slice_get};

use crate::columns::column;
use crate::key::Key;
use crate::reach::Reach;
use model::Watch;

impl Reach {
    // Before any matrix.
    pub fn start() -> Reach
        ensures none { (o : ℕ) → kept result o ≡ 0 }
        ensures reached { (f limit : ℕ) → Reached f limit [] result }
    {
        Reach { reaches: [0; 16] }
    }

    // The reach of an origin; 0 from 16 on.
    pub fn of(&self, origin: u8) -> u8
        ensures { result ≡ kept self.now origin }
    {
        self.reaches.get(usize::from(origin)).copied().unwrap_or(0)
    }

    // How many operations are ordered so far.
    pub fn ordered(&self, watch: Watch) -> u16
        ensures { result ≡ total (stations watch.faults) (kept self.now) }
    {
        (0..watch.stations())
            .map(|origin| u16::from(self.of(origin)))
            .sum()
    }

    // What stands at a position of what the matrix adds, if it adds so many.
    fn added_at(&self, watch: Watch, matrix: &[u8], position: u16) -> Option<Key>
        ensures { result ≡ slice_get (added watch.faults watch.limit (kept self.now) matrix.now) position }
    {
        // Kept: a loop, since a `try_fold` would say in a clause of its closure what is left so far, and be no plainer.
        let n = watch.stations();
        let mut left = position;
        for origin in 0..n {
            let old = self.of(origin);
            let count = column(watch, matrix, origin).saturating_sub(old);
            if left < u16::from(count) {
                return Some(Key {
                    origin,
                    sequence: old + 1 + left as u8,
                });
            }
            left -= u16::from(count);
        }
        None
    }

    // Raises each reach to the value of its column.
    fn raise(&mut self, watch: Watch, matrix: &[u8])
        ensures { Raised watch.faults watch.limit matrix.now self.old self.new }
    {
        let n = usize::from(watch.stations());
        for (origin, reach) in self.reaches[..n].iter_mut().enumerate() {
            *reach = (*reach).max(column(watch, matrix, origin as u8));
        }
    }

    // Takes one matrix more, and answers what stands at position `k` of the order if it is among what this matrix adds.
    pub fn take(&mut self, watch: Watch, matrix: &[u8], k: u16) -> Option<Key>
        ensures answer { result ≡ after (total (stations watch.faults) (kept self.old)) (added watch.faults watch.limit (kept self.old) matrix.now) k }
        ensures raises { Raised watch.faults watch.limit matrix.now self.old self.new }
        ensures follows { (Xs : List Matrix) → Reached watch.faults watch.limit Xs self.old → Reached watch.faults watch.limit (Xs ++ matrix.now ∷ []) self.new × (result ≡ found watch.faults watch.limit Xs matrix.now k) }
    {
        let ordered = self.ordered(watch);
        let answer = k
            .checked_sub(ordered)
            .and_then(|position| self.added_at(watch, matrix, position));
        self.raise(watch, matrix);
        answer
    }
}

// What stands at position `k` of the order that these matrices give, if it comes so far. The laws of the order stand
// here: no operation twice, an order over more matrices begins with that over fewer, an origin's sequences rise from 1
// without a gap, each operation is backed by a quorum of rows, and the order is the one list that has what the proposals
// add, by proposal, origin and sequence.
pub fn kth(watch: Watch, matrices: &[[u8; 256]], k: u16) -> Option<Key>
    ensures laws { OrderLaws }
    ensures answer { result ≡ slice_get (order_of watch.faults watch.limit matrices.now) k }
{
    // Kept: a loop, since the closure of a `find_map` would change the reach that it captures.
    let mut reach = Reach::start();
    for matrix in matrices {
        if let Some(key) = reach.take(watch, matrix, k) {
            return Some(key);
        }
    }
    None
}
