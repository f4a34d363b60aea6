// A number that goes with what tables hold: other contents are all but sure to have another.
use model::{Machine, Operation};
use rows::{Matrix, Row};
use tables::{Counts, Entry, Slot, Tables};

fn mix(h: u64, x: u64) -> u64 {
    (h.rotate_left(7) ^ x).wrapping_mul(0x9E37_79B9_7F4A_7C15)
}

// The number after these items too, each of which the call mixes in.
fn of_all<T, F: Fn(u64, &T) -> u64>(h: u64, items: &[T], of_one: F) -> u64
    requires { F.IsAlwaysCallable of_one }
{
    items.iter().fold(h, of_one)
}

fn of_bytes(h: u64, bytes: &[u8]) -> u64 {
    of_all(h, bytes, |h, b| mix(h, *b as u64))
}

pub fn of_wire(h: u64, wire: &[Slot]) -> u64 {
    of_all(
        h,
        wire,
        |h, slot| mix(of_bytes(h, &slot.bytes), slot.len as u64),
    )
}

pub fn of_words<O: Operation>(h: u64, words: &[Option<O>]) -> u64 {
    of_all(
        h,
        words,
        |h, word| mix(h, word.as_ref().map_or(1, |u| u.pack())),
    )
}

fn of_matrix(h: u64, matrix: &Matrix) -> u64 {
    mix(of_bytes(h, &matrix.entries.cells), matrix.side as u64)
}

pub fn of_matrices(h: u64, matrices: &[Option<Matrix>]) -> u64 {
    of_all(h, matrices, |h, matrix| match matrix {
        Some(m) => of_matrix(h, m),
        None => mix(h, 99),
    })
}

pub fn of_rows(h: u64, rows: &[Row]) -> u64 {
    of_all(
        h,
        rows,
        |h, row| mix(of_bytes(h, &row.cells), row.count as u64),
    )
}

fn of_entry<O: Operation>(h: u64, entry: &Entry<O>) -> u64 {
    let h = mix(mix(h, entry.origin as u64), entry.sequence as u64);
    mix(h, entry.operation.pack())
}

pub fn of_entries<O: Operation>(h: u64, entries: &[Option<Entry<O>>]) -> u64 {
    of_all(h, entries, |h, entry| match entry {
        Some(e) => of_entry(h, e),
        None => mix(h, 1),
    })
}

pub fn of_counts(h: u64, counts: &[Counts]) -> u64 {
    of_all(
        h,
        counts,
        |h, c| mix(mix(h, c.submitted as u64), c.executed as u64),
    )
}

pub fn of_sets(h: u64, sets: &[u16]) -> u64 {
    of_all(h, sets, |h, set| mix(h, *set as u64))
}

// All tables but the machines.
pub fn mark<M: Machine>(t: &Tables<'_, M>) -> u64 {
    let h = of_wire(0, t.wire);
    let h = of_words(h, t.words);
    let h = of_matrices(h, t.votes);
    let h = of_matrices(h, t.commits);
    let h = of_rows(h, t.kept);
    let h = of_entries(h, t.executed);
    let h = of_counts(h, t.counts);
    of_sets(h, t.accused)
}
