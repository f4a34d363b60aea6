ghost use Rattle.std.specs.Prelude.{◌≡◌, ℕ, ◌*◌, ◌<◌, ◌≤◌, length, slice_index};

// Up to MOST entries, each below 64. They stand in the first cells.
// Kept: an array with the count beside it, since rows and matrices are plain values of fixed size, with no heap.
#[derive(Clone, Copy)]
pub struct Entries<const MOST: usize> {
    pub count: usize,
    pub cells: [u8; MOST],
    ghost few: { count ≤ MOST },
    ghost whole: { length cells ≡ MOST },
    ghost small: { (k : ℕ) → slice_index cells k < 64 },
}

// Up to 16 entries.
pub type Row = Entries<16>;

// Up to 16 rows of as many entries, row by row.
#[derive(Clone, Copy)]
pub struct Matrix {
    pub side: u8,
    pub entries: Entries<256>,
    ghost few: { side ≤ 16 },
    ghost square: { entries.count ≡ side * side },
}
