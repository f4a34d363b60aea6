ghost use Rattle.std.specs.Prelude.{◌≡◌, ℕ, ◌+◌, ◌<◌, ◌≤◌, map, length, slice_set};
ghost use Rattle.tables.specs.Contents.{frame_of};

use crate::life::Open;
use model::Machine;
use tables::{Slot, Snapshot, Tables};

// The item takes the place of the one that stands there.
pub(crate) fn put<T: Drop>(items: &mut [T], at: usize, item: T)
    requires { at < length items.old }
    ensures { items.new ≡ slice_set items.old at item }
{
    items[at] = item;
}

impl Open {
    // The run as a call reads it, with the tables that are lent to the call.
    pub(crate) fn on<'a, 'b, M: Machine>(&self, t: &'a Tables<'b, M>) -> Snapshot<'a, 'b, M>
        ensures run { (result.numbers ≡ self.now.numbers) × ((result.end ≡ self.now.end) × (result.last ≡ self.now.last)) }
        ensures tables { result.tables.now ≡ t.now }
    {
        let Open { numbers, end, last } = self;
        Snapshot {
            numbers: *numbers,
            end: *end,
            last: *last,
            tables: t,
        }
    }

    // Puts a frame at the wire's end, and answers its place.
    pub(crate) fn send(&mut self, wire: &mut [Slot], slot: Slot) -> u16
        requires free { self.old.end < self.old.numbers.wire }
        requires long { self.old.numbers.wire ≤ length wire.old }
        ensures place { result ≡ self.old.end }
        ensures end { self.new.end ≡ self.old.end + 1 }
        ensures rest { (self.new.numbers ≡ self.old.numbers) × (self.new.last ≡ self.old.last) }
        ensures wire { map frame_of wire.new ≡ slice_set (map frame_of wire.old) self.old.end (frame_of slot) }
    {
        let place = self.end;
        put(wire, place as usize, slot);
        self.end = place + 1;
        place
    }
}
