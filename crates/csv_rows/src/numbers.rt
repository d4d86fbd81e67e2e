// Fields read as numbers.

ghost use Rattle.std.specs.Prelude.{◌≡◌, ◌^◌, ◌<◌, ◌≤◌, ◌<ℤ◌, ◌≤ℤ◌, IfSome, pos};
ghost use Rattle.csv_rows.specs.Numbers.{integer_of, number_of, numeral_of, signed_of};
ghost use lib.IntN.{neg_ℤ};

/// The most digits that a number may have, leading zeros included.
const MAX_DIGITS: usize = 20;

// The number that 1 to 20 digits spell. Twenty digits pass a `u64`.
fn numeral(field: &[u8]) -> Option<u128>
    ensures value { result ≡ numeral_of field.now }
    ensures small { IfSome result (λ n. n < 10 ^ 20) }
{
    if field.is_empty() || field.len() > MAX_DIGITS {
        return None;
    }
    let mut value = 0u128;
    for digit in field {
        if !digit.is_ascii_digit() {
            return None;
        }
        value = value * 10 + u128::from(*digit - b'0');
    }
    Some(value)
}

/// The number that a field spells: 1 to 20 digits, leading zeros allowed, of a value of at most
/// `most`. None for any other field.
pub fn number(field: &[u8], most: u64) -> Option<u64>
    ensures value { result ≡ number_of most field.now }
    ensures within { IfSome result (λ n. n ≤ most) }
{
    let value = numeral(field)?;
    if value <= u128::from(most) {
        Some(value as u64)
    } else {
        None
    }
}

// The signed number that a numeral spells, or a minus sign and then a numeral.
fn integer(field: &[u8]) -> Option<i128>
    ensures value { result ≡ integer_of field.now }
    ensures small { IfSome result (λ z. (neg_ℤ (pos (10 ^ 20)) <ℤ z) × (z <ℤ pos (10 ^ 20))) }
{
    match field {
        [b'-', digits @ ..] => Some(-(numeral(digits)? as i128)),
        _ => Some(numeral(field)? as i128),
    }
}

/// The signed number that a field spells: 1 to 20 digits, after a `-` where it is negative, of a
/// value from `least` to `most`, both included. `-0` is 0, and a `+` is refused. None for any
/// other field.
pub fn signed(field: &[u8], least: i64, most: i64) -> Option<i64>
    ensures value { result ≡ signed_of least most field.now }
    ensures within { IfSome result (λ z. (least ≤ℤ z) × (z ≤ℤ most)) }
{
    let value = integer(field)?;
    if i128::from(least) <= value && value <= i128::from(most) {
        Some(value as i64)
    } else {
        None
    }
}
