ghost use Rattle.std.specs.Prelude.{◌≡◌, ℕ, ◌+◌, Decides, not};
ghost use Rattle.model.specs.Quorums.{held};
ghost use Rattle.order.specs.Runs.{CertifiedAt, Longest, part as part_of};

use model::{Watch, Word, certified};

// The places of a sequence, where `n` speakers have one each.
fn part<W: Word>(places: &[Option<W>], n: u8, before: u8) -> &[Option<W>]
    ensures { result.now ≡ part_of n (before + 1) places.now }
{
    // Kept: `chunks(n)` and `nth` go over every part before this one, and ask that n is not 0; the two ends are as plain.
    let start = (usize::from(before) * usize::from(n)).min(places.len());
    let end = (start + usize::from(n)).min(places.len());
    &places[start..end]
}

// Whether the sequence after this one has a certificate.
fn next_certified<W: Word>(watch: Watch, places: &[Option<W>], head: usize, before: u8) -> bool
    ensures { Decides result (CertifiedAt watch.faults (held W.Word.means places.now) head (before + 1)) }
{
    certified(part(places, watch.stations(), before), head, watch.faults).is_some()
}

// The longest unbroken run of certified sequences from 1, over the places of one origin.
pub fn unbroken<W: Word>(watch: Watch, places: &[Option<W>], head: usize) -> u8
    ensures { Longest watch.faults watch.limit (held W.Word.means places.now) head result }
{
    (0..watch.limit)
        .find(
            |before|
                ensures { Decides (not result) (CertifiedAt watch.faults (held W.Word.means places.entry.now) head (before.now + 1)) }
            { !next_certified(watch, places, head, *before) },
        )
        .unwrap_or(watch.limit)
}
