//! Signed numbers in eight bytes, in two's complement.
ghost use Rattle.std.specs.Prelude.{◌≡◌, ◌≤◌, length};
ghost use Rattle.std.specs.Int.{w64};
ghost use Rattle.std.specs.Int.RustNames.{FitsSigned};
ghost use Rattle.page_layout.specs.Signed.{signed_bytes, signed_at, length-signed, signed-back};

use crate::entry::{Entry, Own};
use crate::front::put_u64;
use crate::number::number_u64;
use ports::Page;

/// The signed number in the first eight bytes.
pub(crate) fn number_i64(bytes: &[u8]) -> i64
    requires { 8 ≤ length bytes.now }
    ensures value { result ≡ signed_at bytes.now }
    ensures typed { FitsSigned w64 result }
{
    number_u64(bytes).cast_signed()
}

impl Entry<Own> for i64 {
    const SIZE: usize = 8;

    ghost SIZE = { 8 };

    ghost spelling = { signed_bytes };

    ghost value_at = { signed_at };

    ghost is_typed = { FitsSigned w64 };

    // Signed numbers follow one another in any order, and keep no rule.
    ghost keeps = { λ _ _. Unit {0} };

    ghost precedes = { λ _ _. Unit {0} };

    fn put(&self, page: &mut Page, place: usize) {
        put_u64(page, place, self.cast_unsigned());
    }

    fn get(bytes: &[u8]) -> i64 {
        number_i64(bytes)
    }

    fn keeps(&self, _level: u8) -> bool {
        true
    }

    fn precedes(&self, _next: &i64) -> bool {
        true
    }

    ghost has_size = { λ x _. length-signed x };

    ghost reads_back = { λ _ x rest typed _. signed-back x rest typed };
}
