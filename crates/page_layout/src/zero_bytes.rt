//! Whether bytes are all 0.
ghost use Rattle.std.specs.Prelude.{◌≡◌, ◌↔◌, IsTrue, length};
ghost use Rattle.std.specs.List.{All};
ghost use Rattle.page_layout.specs.Numbers.{zeros};

use crate::number::{are_bytes, number_u128, skip};

// How many bytes are looked at as one number.
const WORD: usize = 16;

/// Whether these bytes are all 0.
pub(crate) fn are_zeros(bytes: &[u8]) -> bool
    ensures { IsTrue result ↔ (bytes.now ≡ zeros (length bytes.now)) }
{
    let mut rest = bytes;
    for _ in 0..bytes.len() / WORD {
        are_bytes(rest);
        if number_u128(rest) != 0 {
            return false;
        }
        rest = skip(rest, WORD);
    }
    is_each_zero(rest)
}

// Whether each byte is 0.
fn is_each_zero(bytes: &[u8]) -> bool
    ensures { IsTrue result ↔ All (λ byte. byte ≡ 0) bytes.now }
{
    bytes.iter().all(|byte| *byte == 0)
}
