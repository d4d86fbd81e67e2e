// The parts of rows: sessions, ids, weights, versions, the ends of boxes and coefficients.

ghost use Rattle.std.specs.Prelude.{◌≡◌, ◌+◌, ◌*◌, ◌≤◌, IfSome};
ghost use Rattle.bw_types.specs.Fits.{IsInRange};
ghost use Rattle.csv_rows.specs.Input.{coefficients_at as coefficients_of, ends_at as ends_of, id_of, session_of, stored_of, version_of, weight_of};

use crate::fields::Fields;
use crate::numbers::{number, signed};
use bw_types::{Params, coefficient_count};

/// The greatest number of a session; the least is 1.
const MOST_SESSIONS: u64 = 16;

/// The greatest coordinate of a plain warehouse; the least is 0.
const GREATEST_PLAIN: u64 = 4294967294;

/// The least coordinate of a signed warehouse.
const LEAST_SIGNED: i64 = -2147483647;

/// The greatest coordinate of a signed warehouse.
const GREATEST_SIGNED: i64 = 2147483646;

/// The session that a field spells, 1 to 16.
pub fn session(field: &[u8]) -> Option<u8>
    ensures value { result ≡ session_of field.now }
    ensures within { IfSome result (λ session. (1 ≤ session) × (session ≤ 16)) }
{
    let session = number(field, MOST_SESSIONS)?;
    if session >= 1 {
        Some(session as u8)
    } else {
        None
    }
}

/// The id that a field spells.
pub fn id(field: &[u8]) -> Option<u64>
    ensures { result ≡ id_of field.now }
{
    number(field, u64::MAX)
}

/// The weight or the coefficient that a field spells.
pub fn weight(field: &[u8]) -> Option<i64>
    ensures { result ≡ weight_of field.now }
{
    signed(field, i64::MIN, i64::MAX)
}

/// The version that a field spells, or none of its own for the word `now`.
pub fn version(field: &[u8]) -> Option<Option<u32>>
    ensures { result ≡ version_of field.now }
{
    if field == b"now".as_slice() {
        return Some(None);
    }
    let version = number(field, u64::from(u32::MAX))?;
    Some(Some(version as u32))
}

/// The stored number of the coordinate that a field spells.
pub fn stored(params: &Params, field: &[u8]) -> Option<u32>
    requires { IsInRange params.now }
    ensures { result ≡ stored_of params.now field.now }
{
    if params.origin == 0 {
        let coordinate = number(field, GREATEST_PLAIN)?;
        return Some(coordinate as u32);
    }
    let coordinate = signed(field, LEAST_SIGNED, GREATEST_SIGNED)?;
    Some((coordinate + i64::from(params.origin)) as u32)
}

/// The low ends of the box whose first low end is the field at a place, or the high ends from one
/// place further on.
pub fn ends_at(params: &Params, fields: &Fields, place: usize) -> Option<[u32; 3]>
    requires in_range { IsInRange params.now }
    requires near { place ≤ 4 }
    ensures { result ≡ ends_of params.now fields.now place }
{
    let mut ends = [0; 3];
    for i in 0..usize::from(params.dims) {
        ends[i] = stored(params, fields.at(place + 2 * i))?;
    }
    Some(ends)
}

/// The coefficients of which the first is the field at a place.
pub fn coefficients_at(params: &Params, fields: &Fields, place: usize) -> Option<[i64; 27]>
    requires in_range { IsInRange params.now }
    requires near { place ≤ 10 }
    ensures { result ≡ coefficients_of params.now fields.now place }
{
    let mut coefficients = [0; 27];
    for k in 0..coefficient_count(params) {
        coefficients[k] = weight(fields.at(place + k))?;
    }
    Some(coefficients)
}
