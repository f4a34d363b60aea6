ghost use Rattle.std.specs.Prelude.{◌≡◌, ℕ, ◌<◌, ◌≤◌, length, drop, slice_index_or};

// Makes the first n items what the calls give. What lies behind stays.
pub(crate) fn fill_front<T: Drop, F: Fn() -> T>(items: &mut [T], n: usize, item: F)
    requires within { n ≤ length items.old }
    requires callable { F.IsAlwaysCallable item }
    ensures long { length items.new ≡ length items.old }
    ensures front { (k : ℕ) (d : T) → k < n → F.post item (slice_index_or items.new k d) }
    ensures behind { drop n items.new ≡ drop n items.old }
{
    // Kept: a loop, since of `fill_with` the check knows what it leaves as a fold over calls, which the proof would have to
    // read place by place; the loop's invariant says it in a line.
    for place in items[..n].iter_mut() {
        *place = item();
    }
}
