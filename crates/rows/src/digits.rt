ghost use Rattle.std.specs.Prelude.{◌≡◌, ℕ, ◌+◌, ◌-◌, ◌*◌, ◌/◌, ◌%◌, ◌^◌, ◌<◌, ◌≤◌, min, length, slice_index};
ghost use Rattle.rows.specs.Bits.{field, field_of, room as room_of, packed, entries, Small};
ghost use Rattle.rows.specs.Caps.{capped_at};

// The digit at this place, and 0 past the end.
fn at(digits: &[u8], i: usize) -> u8
    ensures { result ≡ slice_index digits.now i }
{
    digits.get(i).copied().unwrap_or(0)
}

// w bits from bit `skip` of two digits of a bits each.
fn cut(first: u8, second: u8, a: u32, skip: u32, w: u32) -> u8
    requires digits { (first < 2 ^ a) × (second < 2 ^ a) }
    requires sizes { (a ≤ 8) × (w ≤ 8) }
    requires within { skip + w ≤ 2 * a }
    ensures { result ≡ (first * 2 ^ a + second) / 2 ^ (2 * a - skip - w) % 2 ^ w }
{
    let both = ((first as u32) << a) | second as u32;
    ((both >> (2 * a - skip - w)) & ((1 << w) - 1)) as u8
}

// The number in so many bits, at most 8, from bit `from` on. Past the end every bit is 0.
pub fn bits(bytes: &[u8], from: usize, width: u32) -> u8
    ensures { result ≡ field bytes.now from (min width 8) }
{
    let i = from / 8;
    cut(
        at(bytes, i),
        at(bytes, i + 1),
        8,
        (from % 8) as u32,
        width.min(8),
    )
}

// Entry k of a packed row or matrix. Past the end every bit is 0.
pub fn entry(part: &[u8], k: usize) -> u8
    ensures { result ≡ field part.now (6 * k) 6 }
{
    let i = k / 4 * 3 + k % 4 * 6 / 8;
    let skip = k % 4 * 6 % 8;
    cut(at(part, i), at(part, i + 1), 8, skip as u32, 6)
}

// The 64 bits from this byte on. Past the end every bit is 0.
pub fn word(bytes: &[u8], from: u8) -> u64
    ensures { result ≡ field bytes.now (8 * from) 64 }
{
    // Kept: `u64::from_be_bytes` would ask for eight bytes copied first, with zeros where the part ends; and a fold would
    // say in a clause of its closure how large its number is so far.
    let mut all = 0;
    for k in 0..8 {
        all = all * 256 + at(bytes, from as usize + k) as u64;
    }
    all
}

// How many bytes hold so many entries: three for each four of them.
pub fn room(entries: usize) -> usize
    ensures { result ≡ room_of entries }
{
    entries - entries / 4
}

// Byte j of the part that holds these entries.
fn byte(entries: &[u8], j: usize) -> u8
    requires small { Small entries.now }
    requires few { j < 2 ^ 63 }
    ensures { result ≡ field_of 6 entries.now (8 * j) 8 }
{
    let i = j / 3 * 4 + j % 3 * 8 / 6;
    let skip = j % 3 * 8 % 6;
    cut(at(entries, i), at(entries, i + 1), 6, skip as u32, 8)
}

// Fills `to` with the first entries of this part.
pub(crate) fn unpack(part: &[u8], to: &mut [u8])
    ensures { to.new ≡ entries part.now (length to.old) }
{
    for (k, x) in to.iter_mut().enumerate() {
        *x = entry(part, k);
    }
}

// Fills `to` with the bytes that hold these entries.
pub(crate) fn pack(entries: &[u8], to: &mut [u8])
    requires small { Small entries.now }
    requires whole { length to.old ≡ room_of (length entries.now) }
    ensures { to.new ≡ packed (length entries.now) entries.now }
{
    for (j, x) in to.iter_mut().enumerate() {
        *x = byte(entries, j);
    }
}

// Makes each entry above the limit the limit.
pub(crate) fn cap(entries: &mut [u8], limit: u8)
    ensures { entries.new ≡ capped_at limit entries.old }
{
    for x in entries.iter_mut() {
        *x = (*x).min(limit);
    }
}
