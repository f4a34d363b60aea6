ghost use Rattle.std.specs.Prelude.{◌≡◌, ℕ, ◌+◌};
ghost use Rattle.model.specs.Quorums.{Meet, Most, Shared};

use crate::watch::Watch;

// How many stations two quorums share at least: f + 1, where each has 2f + 1 of the 3f + 1 stations. So they share one
// outside any set of at most f; and of one quorum f + 1 are outside such a set.
pub fn quorums_share(watch: Watch) -> u8
    ensures number { result ≡ watch.faults + 1 }
    ensures meet { Meet }
    ensures shared { Shared }
    ensures most { Most }
{
    watch.faults + 1
}
