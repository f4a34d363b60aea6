ghost use Rattle.std.specs.Prelude.{◌≡◌, ℕ, ◌/◌, ◌%◌, ◌<◌, take};
ghost use Rattle.sheet_frames.specs.Hex.{digit_of};

use std::fmt;

// The upper-case hexadecimal digit of a number below 16.
// Kept: digits of our own, since their contract says which they are, and no clause speaks of what `{:02X}` prints.
fn digit(n: u8) -> char
    requires { n < 16 }
    ensures { result ≡ digit_of n }
{
    if n < 10 {
        (b'0' + n) as char
    } else {
        (b'A' + (n - 10)) as char
    }
}

// The two digits of a byte.
pub fn digits(b: u8) -> (char, char)
    ensures { result ≡ (digit_of (b / 16), digit_of (b % 16)) }
{
    (digit(b / 16), digit(b % 16))
}

// Bytes that are shown in hexadecimal, with a space between two.
#[derive(Clone, Copy)]
pub struct Hex<'a> {
    pub bytes: &'a [u8],
}

impl<'a> Hex<'a> {
    // The first n of these bytes, or all if there are fewer.
    pub fn front(bytes: &'a [u8], n: usize) -> Hex<'a>
        ensures { result.bytes.now ≡ take n bytes.now }
    {
        Hex {
            bytes: &bytes[..n.min(bytes.len())],
        }
    }
}

impl fmt::Display for Hex<'_> {
    fn fmt<W: fmt::Write>(&self, f: &mut fmt::Formatter<W>) -> fmt::Result {
        for (i, b) in self.bytes.iter().enumerate() {
            let (high, low) = digits(*b);
            if i > 0 {
                write!(f, " ")?;
            }
            write!(f, "{high}{low}")?;
        }
        Ok(())
    }
}
