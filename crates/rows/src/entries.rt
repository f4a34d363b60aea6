ghost use Rattle.std.specs.Prelude.{◌≡◌, ℕ, ◌+◌, ◌*◌, ◌/◌, ◌<◌, ◌≤◌, min, ◌&&◌, List, ◌++◌, length, drop, set as changed, replicate, if◌then◌else◌, nat_le, nat_lt, slice_index};
ghost use Rattle.rows.specs.Bits.{entries, packed, room as room_of};
ghost use Rattle.rows.specs.Caps.{capped_at};
ghost use Rattle.rows.specs.Values.{entries_of};

use crate::digits::{cap, pack, room, unpack};
use crate::owned::Entries;
use model::Word;

impl<const MOST: usize> Entries<MOST> {
    // So many zeros, at most MOST.
    pub fn zero(count: usize) -> Entries<MOST>
        ensures count { result.count ≡ min count MOST }
        ensures means { entries_of result ≡ replicate (min count MOST) 0 }
    {
        Entries {
            count: count.min(MOST),
            cells: [0; MOST],
        }
    }

    // The entries.
    pub fn as_slice(&self) -> &[u8]
        ensures { result.now ≡ entries_of self.now }
    {
        &self.cells[..self.count]
    }

    // Entry k, and 0 past the end.
    pub fn get(&self, k: usize) -> u8
        ensures { result ≡ slice_index (entries_of self.now) k }
    {
        self.as_slice().get(k).copied().unwrap_or(0)
    }

    // Makes entry k this value, if there is such an entry and the value is below 64.
    // Kept: yes or no, since that it was done is all that there is to say.
    pub fn set(&mut self, k: usize, value: u8) -> bool
        ensures answer { result ≡ (nat_lt k self.old.count && nat_lt value 64) }
        ensures count { self.new.count ≡ self.old.count }
        ensures means { entries_of self.new ≡ (if result then changed (entries_of self.old) k value else entries_of self.old) }
    {
        if k < self.count && value < 64 {
            self.cells[k] = value;
            return true;
        }
        false
    }

    // So many entries, at most MOST, that this part of a frame holds.
    pub fn unpack(count: usize, part: &[u8]) -> Entries<MOST>
        ensures count { result.count ≡ min count MOST }
        ensures means { entries_of result ≡ entries part.now (min count MOST) }
    {
        let count = count.min(MOST);
        let mut cells = [0; MOST];
        unpack(part, &mut cells[..count]);
        Entries { count, cells }
    }

    // Writes the bytes that hold the entries into the front of `to`, if there is room for them.
    // Kept: yes or no, since that it was done is all that there is to say.
    pub fn pack(&self, to: &mut [u8]) -> bool
        ensures answer { result ≡ nat_le (room_of self.now.count) (length to.old) }
        ensures means { to.new ≡ (if result then packed self.now.count (entries_of self.now) ++ drop (room_of self.now.count) to.old else to.old) }
    {
        let bytes = room(self.count);
        // Kept: with `get_mut(..bytes)` the check does not find what stands behind the front.
        if to.len() < bytes {
            return false;
        }
        pack(self.as_slice(), &mut to[..bytes]);
        true
    }

    // The same entries with each above the limit read as the limit.
    pub fn capped(&self, limit: u8) -> Entries<MOST>
        ensures count { result.count ≡ self.now.count }
        ensures means { entries_of result ≡ capped_at limit (entries_of self.now) }
    {
        let mut cells = self.cells;
        cap(&mut cells, limit);
        Entries {
            count: self.count,
            cells,
        }
    }
}

// Entries as a word: equal when they are, and so as many.
impl<const MOST: usize> Word for Entries<MOST> {
    ghost Value = { List ℕ };

    ghost means = { entries_of };

    fn same(&self, other: &Entries<MOST>) -> bool {
        self.as_slice() == other.as_slice()
    }
}
