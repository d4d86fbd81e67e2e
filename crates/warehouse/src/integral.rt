//! The integral of one object's value function over its common part with a query's box.
//!
//! Products and sums are taken modulo `2^128`: a product whose coefficient is 0 may pass 128 bits, and
//! then it does not count. Each moment by itself is exact.
ghost use Rattle.std.specs.Prelude.{◌≡◌, ◌+◌, ◌<◌, ◌≤◌, ◌^◌, Some, [], ℤ, pos, ◌-ℤ◌, ◌*ℤ◌, nat_abs, slice_index};
ghost use Rattle.std.specs.List.{slice_index_or};
ghost use Rattle.std.specs.Int.{int_wrap, int_pow, w128};
ghost use Rattle.bw_types.specs.Fits.{IsInRange, coordinate, coefficient_count};
ghost use Rattle.bw_types.specs.Integral.{exponent_lists, moment, common_low, common_high, common_moment, integral_of_degree, integral_over};

use bw_types::{Object, Params, Query, coefficient_count};
use corner_weights::exponent;

/// What one object gives to an integral over the query's box, times 6 for each dimension, modulo
/// `2^128`; 0 without a degree.
pub fn integral_over(params: &Params, query: &Query, object: &Object) -> i128
    requires { IsInRange params.now }
    ensures { result ≡ int_wrap w128 (integral_over params.now query.now object.now) }
{
    let Some(degree) = params.degree else {
        return 0;
    };
    integral_of_degree(params, query, object, degree)
}

fn integral_of_degree(params: &Params, query: &Query, object: &Object, degree: u8) -> i128
    requires in_range { IsInRange params.now }
    requires degree { params.now.degree ≡ Some degree }
    ensures { result ≡ int_wrap w128 (integral_of_degree params.now query.now object.now degree) }
{
    let mut total: i128 = 0;
    for k in 0..coefficient_count(params) {
        total = total.wrapping_add(term(params, query, object, degree, k));
    }
    total
}

// Coefficient `k` times its moment, modulo `2^128`.
fn term(params: &Params, query: &Query, object: &Object, degree: u8, k: usize) -> i128
    requires in_range { IsInRange params.now }
    requires degree { params.now.degree ≡ Some degree }
    requires coefficient { k < coefficient_count params.now }
    requires in_array { k < 27 }
    ensures { result ≡ int_wrap w128 (slice_index_or object.now.coeffs k (pos 0) *ℤ common_moment params.now query.now object.now (slice_index_or (exponent_lists params.now.dims degree) k [])) }
{
    i128::from(object.coeffs[k]).wrapping_mul(common_moment(params, query, object, degree, k))
}

// The product of the moments that belong to coefficient `k`, modulo `2^128`.
fn common_moment(params: &Params, query: &Query, object: &Object, degree: u8, k: usize) -> i128
    requires in_range { IsInRange params.now }
    requires degree { params.now.degree ≡ Some degree }
    requires coefficient { k < coefficient_count params.now }
    ensures { result ≡ int_wrap w128 (common_moment params.now query.now object.now (slice_index_or (exponent_lists params.now.dims degree) k [])) }
{
    let dims = usize::from(params.dims);
    let mut product: i128 = 1;
    for i in 0..dims {
        let e = exponent(k, i, dims, usize::from(degree)) as u32;
        let low = common_low(params, query, object, i);
        let high = common_high(params, query, object, i);
        product = product.wrapping_mul(moment(e, low, high));
    }
    product
}

fn coordinate(params: &Params, number: u32) -> i64
    ensures is { result ≡ coordinate params.now number }
    ensures small { nat_abs result < 2 ^ 32 }
{
    i64::from(number) - i64::from(params.origin)
}

// Where the common part begins in dimension `i`.
fn common_low(params: &Params, query: &Query, object: &Object, i: usize) -> i64
    requires { i < 3 }
    ensures is { result ≡ common_low params.now query.now object.now i }
    ensures small { nat_abs result < 2 ^ 32 }
{
    coordinate(params, object.low[i]).max(coordinate(params, query.low[i]))
}

// Where it ends.
fn common_high(params: &Params, query: &Query, object: &Object, i: usize) -> i64
    requires { i < 3 }
    ensures is { result ≡ common_high params.now query.now object.now i }
    ensures small { nat_abs result < 2 ^ 32 }
{
    coordinate(params, object.high[i]).min(coordinate(params, query.high[i]))
}

// Six times the integral of `x^e` from `a` to `b`, or 0 where `a` is not below `b`.
fn moment(e: u32, a: i64, b: i64) -> i128
    requires degree { e ≤ 2 }
    requires from { nat_abs a < 2 ^ 32 }
    requires to { nat_abs b < 2 ^ 32 }
    ensures { result ≡ moment e a b }
{
    if a >= b {
        return 0;
    }
    i128::from(6 / (e + 1)) * (power(b, e + 1) - power(a, e + 1))
}

fn power(x: i64, n: u32) -> i128
    requires base { nat_abs x < 2 ^ 32 }
    requires exponent { n ≤ 3 }
    ensures is { result ≡ int_pow x n }
    ensures small { nat_abs result ≤ 2 ^ 96 }
{
    i128::from(x).pow(n)
}
