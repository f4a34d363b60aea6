// Lines of decimal numbers.
#![tactic(auto)]

ghost use Rattle.std.specs.Prelude.{◌≡◌, ℕ, ◌<◌, ◌≤◌, true, length, slice_index};
ghost use Rattle.lines.specs.Numbers.{decimal, digit, field_at, first_line, line_length, lines_of, number_at, numbers_of, other_lines};
ghost use Rattle.std.specs.Iterator.{YieldsFirstRef, item_count};
ghost use Rattle.std.specs.Option.{option_map};
ghost use Rattle.std.specs.List.{prefix_len};

// How many digits the text begins with.
fn count(text: &[u8]) -> usize
    ensures is { result ≡ prefix_len digit text.now }
    ensures within { result ≤ length text.now }
    ensures all { (k : ℕ) → k < result → digit (slice_index text.now k) ≡ true }
{
    text.iter().take_while(|b| b.is_ascii_digit()).count()
}

// The number that these digits write.
fn value(digits: &[u8]) -> u32
    requires few { length digits.now ≤ 9 }
    requires all { (k : ℕ) → k < length digits.now → digit (slice_index digits.now k) ≡ true }
    ensures { result ≡ decimal digits.now }
{
    let mut n = 0;
    for b in digits {
        n = n * 10 + (*b as u32 - 48);
    }
    n
}

// The number of 1 to 9 digits that the text begins with, and what follows it.
fn number(text: &[u8]) -> Option<(u32, &[u8])>
    ensures { option_map (λ p. (p.0, p.1.now)) result ≡ number_at text.now }
{
    let n = count(text);
    if n < 1 || n > 9 {
        return None;
    }
    let (digits, rest) = text.split_at(n);
    Some((value(digits), rest))
}

// The number at the front of the text: the first of a line, or another one after a single space; and what follows it.
// Kept: a flag, for what it says (that no space comes before) has no value beside it, and the loop has one call for all.
fn field(text: &[u8], first: bool) -> Option<(u32, &[u8])>
    ensures { option_map (λ p. (p.0, p.1.now)) result ≡ field_at first text.now }
{
    if first {
        return number(text);
    }
    let [b' ', rest @ ..] = text else {
        return None;
    };
    number(rest)
}

// The K numbers of a line that holds just them, each of 1 to 9 digits, with single spaces between them.
pub fn numbers<const K: usize>(text: &[u8]) -> Option<[u32; K]>
    ensures { result ≡ numbers_of K text.now }
{
    let mut values = [0; K];
    let mut rest = text;
    for (i, value) in values.iter_mut().enumerate() {
        let (found, more) = field(rest, i == 0)?;
        *value = found;
        rest = more;
    }
    if rest.is_empty() { Some(values) } else { None }
}

// How many bytes come before the first newline.
fn line_length(text: &[u8]) -> usize
    ensures is { result ≡ line_length text.now }
    ensures within { result ≤ length text.now }
{
    text.iter().take_while(|b| **b != b'\n').count()
}

// The text up to its first newline, and what follows that newline.
pub fn split_line(text: &[u8]) -> (&[u8], &[u8])
    ensures line { result.0.now ≡ first_line text.now }
    ensures rest { result.1.now ≡ other_lines text.now }
    ensures shorter { 0 < length text.now → length result.1.now < length text.now }
{
    let (line, rest) = text.split_at(line_length(text));
    match rest {
        [_, others @ ..] => (line, others),
        [] => (line, rest),
    }
}

// The lines of a text, without their newlines.
#[derive(Clone, Copy)]
pub struct Lines<'a> {
    rest: &'a [u8],
}

impl<'a> Lines<'a> {
    pub fn of(text: &'a [u8]) -> Lines<'a>
        ensures { result.rest.now ≡ text.now }
    {
        Lines { rest: text }
    }
}

impl<'a> Iterator for Lines<'a> {
    type Item = &'a [u8];

    ghost next_gives = { YieldsFirstRef (λ s. lines_of s.rest.now) };

    ghost remaining = { item_count (λ s. lines_of s.rest.now) };

    fn next(&mut self) -> Option<&'a [u8]> {
        if self.rest.is_empty() {
            return None;
        }
        let (line, rest) = split_line(self.rest);
        self.rest = rest;
        Some(line)
    }
}
