ghost use Rattle.std.specs.Prelude.{◌≡◌, ℕ, ◌+◌, ◌*◌, ◌/◌, ◌<◌, ◌≤◌, min, ◌&&◌, List, ◌++◌, length, drop, set as changed, replicate, if◌then◌else◌, ◌==◌, nat_le, nat_lt, slice_index};
ghost use Rattle.rows.specs.Bits.{entries, packed, room};
ghost use Rattle.rows.specs.Caps.{capped_at};
ghost use Rattle.rows.specs.Values.{matrix_of, placed, row_in, row_of};

use crate::owned::{Entries, Matrix, Row};
use model::Word;

#[tactic(auto, using(crate::proofs::Cells::square_fits, crate::proofs::Cells::row_fits))]
impl Matrix {
    // The zero matrix of this side, at most 16.
    pub fn zero(side: usize) -> Matrix
        ensures side { result.side ≡ min side 16 }
        ensures means { matrix_of result ≡ replicate (min side 16 * min side 16) 0 }
    {
        let side = side.min(16);
        Matrix {
            side: side as u8,
            entries: Entries::zero(side * side),
        }
    }

    // Entry j of row i, and 0 where there is none.
    pub fn get(&self, i: usize, j: usize) -> u8
        ensures { result ≡ slice_index (row_in self.now.side (matrix_of self.now) i) j }
    {
        let side = self.side as usize;
        if i < side && j < side {
            // Read from the array, since `get` of entries would test the place a second time.
            self.entries.cells[i * side + j]
        } else {
            0
        }
    }

    // Row i. From the side on there is none, and the row has no entries.
    pub fn row(&self, i: usize) -> Row
        ensures { row_of result ≡ row_in self.now.side (matrix_of self.now) i }
    {
        let side = self.side as usize;
        let mut cells = [0; 16];
        if i >= side {
            return Row { count: 0, cells };
        }
        cells[..side].copy_from_slice(&self.entries.cells[i * side..(i + 1) * side]);
        Row { count: side, cells }
    }

    // Puts a row of the matrix's side into the place of row i, if there is such a row.
    // Kept: yes or no, since that it was done is all that there is to say.
    pub fn put(&mut self, i: usize, row: &Row) -> bool
        ensures answer { result ≡ (nat_lt i self.old.side && row.now.count == self.old.side) }
        ensures side { self.new.side ≡ self.old.side }
        ensures means { matrix_of self.new ≡ (if result then placed (matrix_of self.old) (i * self.old.side) (row_of row.now) else matrix_of self.old) }
    {
        let side = self.side as usize;
        if i < side && row.count == side {
            self.entries.cells[i * side..(i + 1) * side].copy_from_slice(row.as_slice());
            return true;
        }
        false
    }

    // The matrix of this side, at most 16, that this part of a frame holds.
    pub fn unpack(side: usize, part: &[u8]) -> Matrix
        ensures side { result.side ≡ min side 16 }
        ensures means { matrix_of result ≡ entries part.now (min side 16 * min side 16) }
    {
        let n = side.min(16);
        Matrix {
            side: n as u8,
            entries: Entries::unpack(n * n, part),
        }
    }

    // Writes the bytes that hold the entries into the front of `to`, if there is room for them.
    // Kept: yes or no, since that it was done is all that there is to say.
    pub fn pack(&self, to: &mut [u8]) -> bool
        ensures answer { result ≡ nat_le (room (self.now.side * self.now.side)) (length to.old) }
        ensures means { to.new ≡ (if result then packed (self.now.side * self.now.side) (matrix_of self.now) ++ drop (room (self.now.side * self.now.side)) to.old else to.old) }
    {
        self.entries.pack(to)
    }

    // Makes entry j of row i this value, if there is such an entry and the value is below 64.
    // Kept: yes or no, since that it was done is all that there is to say.
    pub fn set(&mut self, i: usize, j: usize, value: u8) -> bool
        ensures answer { result ≡ (nat_lt i self.old.side && (nat_lt j self.old.side && nat_lt value 64)) }
        ensures side { self.new.side ≡ self.old.side }
        ensures means { matrix_of self.new ≡ (if result then changed (matrix_of self.old) (i * self.old.side + j) value else matrix_of self.old) }
    {
        let side = self.side as usize;
        i < side && j < side && self.entries.set(i * side + j, value)
    }

    // The same matrix with each entry above the limit read as the limit.
    pub fn capped(&self, limit: u8) -> Matrix
        ensures side { result.side ≡ self.now.side }
        ensures means { matrix_of result ≡ capped_at limit (matrix_of self.now) }
    {
        Matrix {
            side: self.side,
            entries: self.entries.capped(limit),
        }
    }
}

// A matrix as a word: equal when the entries are, and so the sides.
impl Word for Matrix {
    ghost Value = { List ℕ };

    ghost means = { matrix_of };

    fn same(&self, other: &Matrix) -> bool {
        self.entries.same(&other.entries)
    }
}
