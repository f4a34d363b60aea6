ghost use Rattle.std.specs.Prelude.{◌≡◌, ℕ, ◌<◌, IfSome, IfOk, vec_items};
ghost use Rattle.frames_tool.specs.Hex.{bytes_of, nibble_of};
ghost use Rattle.std.specs.Option.{option_map};

use std::alloc::{AllocError, Global};

// The number that a hexadecimal digit of either case stands for.
// Kept: the three ranges are the definition's own; `to_digit` speaks of characters and would have to be cast both ways.
fn nibble(b: u8) -> Option<u8>
    ensures is { result ≡ nibble_of b }
    ensures small { IfSome result (λ x. x < 16) }
{
    match b {
        b'0'..=b'9' => Some(b - b'0'),
        b'A'..=b'F' => Some(b - b'A' + 10),
        b'a'..=b'f' => Some(b - b'a' + 10),
        _ => None,
    }
}

// The bytes that a line of pairs of hexadecimal digits writes.
pub fn unhex(heap: Global, line: &[u8]) -> Result<Option<Vec<u8>>, AllocError>
    ensures { IfOk result (λ o. option_map vec_items o ≡ bytes_of line.now) }
{
    // Kept: the slice pattern takes two digits at a time, and no index is counted; `chunks(2)` would have to tell a lone
    // last digit apart just the same.
    let mut bytes = Vec::new(heap);
    let mut rest = line;
    while let [first, second, more @ ..] = rest {
        let Some(high) = nibble(*first) else {
            return Ok(None);
        };
        let Some(low) = nibble(*second) else {
            return Ok(None);
        };
        bytes.push(high * 16 + low)?;
        rest = more;
    }
    if rest.is_empty() {
        Ok(Some(bytes))
    } else {
        Ok(None)
    }
}
