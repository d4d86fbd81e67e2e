ghost use Rattle.std.specs.Prelude.{◌≡◌, ◌≤◌, ◌==◌, nat_abs};
ghost use Rattle.std.specs.List.{list_all};
ghost use Rattle.bw_types.specs.Fits.{IsInRange, ends_fit, coefficient_count, greatest_number, object_fits as fits_object, query_fits as fits_query};

use crate::{Kind, Object, Params, Query};

/// Whether the object keeps the rules of a warehouse with these params.
///
/// In each dimension the low end is at most the high one, and the high one at most the greatest
/// stored number (4294967294, or 4294967293 in a signed warehouse). Ends past the dimensions and
/// coefficients past `(degree + 1)^dims`, or all of them without a degree, are 0.
pub fn object_fits(object: &Object, params: &Params) -> bool
    requires { IsInRange params.now }
    ensures { result ≡ fits_object params.now object.now }
{
    let dims = usize::from(params.dims);
    let count = coefficient_count(params);
    ends_fit(params, &object.low, &object.high)
        && (are_zero(&object.low[dims..]) && are_zero(&object.high[dims..]))
        && are_no_coefficients(&object.coeffs[count..])
}

/// Whether the query keeps the rules of a warehouse with these params: the ends as for an object,
/// and a degree where it asks for an integral.
pub fn query_fits(query: &Query, params: &Params) -> bool
    requires { IsInRange params.now }
    ensures { result ≡ fits_query params.now query.now }
{
    let can_ask = match query.kind {
        Kind::Sum | Kind::Count => true,
        Kind::Integral => params.degree.is_some(),
    };
    ends_fit(params, &query.low, &query.high) && can_ask
}

/// How many coefficients an object has: `(degree + 1)^dims`, or none without a degree.
pub fn coefficient_count(params: &Params) -> usize
    requires { IsInRange params.now }
    ensures count { result ≡ coefficient_count params.now }
    ensures at_most { result ≤ 27 }
{
    match params.degree {
        None => 0,
        Some(degree) => (usize::from(degree) + 1).pow(u32::from(params.dims)),
    }
}

fn greatest_number(params: &Params) -> u32
    ensures { result ≡ greatest_number params.now }
{
    if params.origin == 0 {
        4294967294
    } else {
        4294967293
    }
}

fn are_zero(ends: &[u32]) -> bool
    ensures { result ≡ list_all (λ end. end == 0) ends.now }
{
    ends.iter().all(|end| *end == 0)
}

fn are_no_coefficients(coefficients: &[i64]) -> bool
    ensures { result ≡ list_all (λ c. nat_abs c == 0) coefficients.now }
{
    coefficients.iter().all(|c| *c == 0)
}

fn ends_fit(params: &Params, low: &[u32; 3], high: &[u32; 3]) -> bool
    requires { IsInRange params.now }
    ensures { result ≡ ends_fit params.now low.now high.now }
{
    let greatest = greatest_number(params);
    for i in 0..usize::from(params.dims) {
        if low[i] > high[i] || high[i] > greatest {
            return false;
        }
    }
    true
}
