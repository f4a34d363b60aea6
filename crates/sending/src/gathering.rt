ghost use Rattle.std.specs.Prelude.{◌≡◌, ℕ, ◌<◌, ◌≤◌, slice_index};
ghost use Rattle.rows.specs.Values.{entries_of};

use rows::Entries;

// So many entries, each what the call gives for its place.
pub(crate) fn gathered<const MOST: usize, F: Fn(usize) -> u8>(
    count: usize,
    entry: F,
) -> Entries<MOST>
    requires few { count ≤ MOST }
    requires callable { (k : ℕ) → k < count → F.pre entry k }
    requires small { (k v : ℕ) → k < count → F.post entry k v → v < 64 }
    ensures count { result.count ≡ count }
    ensures entries { (k : ℕ) → k < count → F.post entry k (slice_index (entries_of result) k) }
{
    let mut cells = [0; MOST];
    for (k, cell) in cells[..count].iter_mut().enumerate() {
        *cell = entry(k);
    }
    Entries { count, cells }
}
