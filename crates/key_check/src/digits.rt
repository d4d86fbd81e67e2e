//! How many digits numbers have.
ghost use Rattle.std.specs.Prelude.{◌≤◌, ◌↔◌, IsTrue};
ghost use Rattle.bw_types.specs.Digits.{digit_count};

/// Whether the number has at least so many digits in the base.
pub(crate) fn has_digits(base: u32, number: u32, digits: u8) -> bool
    requires { 2 ≤ base }
    ensures { IsTrue result ↔ (digits ≤ digit_count base number) }
{
    if digits == 0 {
        return true;
    }
    if number == 0 {
        return false;
    }
    has_digits(base, number / base, digits - 1)
}
