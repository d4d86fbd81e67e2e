//! The planes of value functions: the weights of an object's corners in them, and the value that summed planes
//! have at a corner of a query.
ghost use Rattle.std.specs.Prelude.{◌≡◌, ◌<◌, ◌≤◌, ◌^◌, [], Some, IsSome, IsTrue, length};
ghost use Rattle.std.specs.List.{slice_index_or};
ghost use Rattle.bw_types.specs.Residues.{residue};
ghost use Rattle.bw_types.specs.Fits.{IsInRange, object_fits, coefficient_count};
ghost use Rattle.bw_types.specs.Integral.{exponent_lists};
ghost use Rattle.corner_weights.specs.Corners.{object_corner};
ghost use Rattle.corner_weights.specs.Planes.{corner_coefficient, corner_sum, plane_count, plane_exponents, plane_weight, monomial, planes_value};
ghost use Rattle.corner_weights.specs.Powers.{ArePowersOf};

use crate::exponents::exponent;
use crate::powers::{BoxPowers, box_powers, factor, power, power_at};
use crate::sign;
use bw_types::{Object, Params, coefficient_count, res_add, res_mul, res_of};

/// How many planes there are: `(degree + 2)^dims`, or none without a degree.
pub fn plane_count(params: &Params) -> usize
    requires { IsInRange params.now }
    ensures count { result ≡ plane_count params.now }
    ensures at_most { result ≤ 64 }
{
    match params.degree {
        None => 0,
        Some(degree) => (usize::from(degree) + 2).pow(u32::from(params.dims)),
    }
}

/// The weight modulo `2^128` of the object's corner of the subset in the plane: a coefficient of the polynomial
/// by which the corner counts in integrals.
///
/// Planes are numbered from 0; each has the exponents of a monomial, from 0 to the degree and 1 more in each
/// dimension, that of the last dimension running fastest.
pub fn plane_weight(object: &Object, params: &Params, subset: u8, plane: u8) -> u128
    requires in_range { IsInRange params.now }
    requires fits { IsTrue (object_fits params.now object.now) }
    requires degree { IsSome params.now.degree }
    requires subset { subset < 2 ^ params.now.dims }
    requires plane { plane < plane_count params.now }
    ensures { result ≡ residue (plane_weight params.now object.now subset plane) }
{
    plane_weight_by(&box_powers(object, params), object, params, subset, plane)
}

/// The same, by the powers of the object's box.
pub fn plane_weight_by(
    powers: &BoxPowers,
    object: &Object,
    params: &Params,
    subset: u8,
    plane: u8,
) -> u128
    requires powers { ArePowersOf params.now object.now powers.now }
    requires in_range { IsInRange params.now }
    requires degree { IsSome params.now.degree }
    requires plane { plane < plane_count params.now }
    ensures { result ≡ residue (plane_weight params.now object.now subset plane) }
{
    let Some(degree) = params.degree else {
        return 0;
    };
    sign(
        subset,
        corner_sum(powers, object, params, degree, subset, usize::from(plane)),
    )
}

/// The value modulo `2^128` of the polynomial whose coefficients are the planes, at the point of stored numbers.
///
/// The planes stand in order, the exponent of the last dimension running fastest, and the polynomial is one in
/// coordinates.
pub fn eval(planes: &[u128], params: &Params, at: &[u32; 3]) -> u128
    requires in_range { IsInRange params.now }
    requires degree { IsSome params.now.degree }
    requires planes { length planes.now ≡ plane_count params.now }
    ensures { result ≡ residue (planes_value params.now planes.now at.now) }
{
    let Some(degree) = params.degree else {
        return 0;
    };
    let mut total: u128 = 0;
    for k in 0..planes.len() {
        total = res_add(total, res_mul(planes[k], monomial(params, degree, at, k)));
    }
    total
}

// The coefficient of the plane's monomial in the polynomial of a corner, without the sign of its subset.
fn corner_sum(
    powers: &BoxPowers,
    object: &Object,
    params: &Params,
    degree: u8,
    subset: u8,
    plane: usize,
) -> u128
    requires powers { ArePowersOf params.now object.now powers.now }
    requires in_range { IsInRange params.now }
    requires degree { params.now.degree ≡ Some degree }
    requires plane { plane < plane_count params.now }
    ensures { result ≡ residue (corner_sum params.now object.now degree (object_corner object.now subset) (slice_index_or (plane_exponents params.now.dims degree) plane [])) }
{
    let mut total: u128 = 0;
    for k in 0..coefficient_count(params) {
        let coefficient = res_of(i128::from(object.coeffs[k]));
        total = res_add(
            total,
            res_mul(
                coefficient,
                corner_coefficient(powers, object, params, degree, subset, plane, k),
            ),
        );
    }
    total
}

// The coefficient of the plane's monomial in the polynomial of one term of a value function at a corner.
fn corner_coefficient(
    powers: &BoxPowers,
    object: &Object,
    params: &Params,
    degree: u8,
    subset: u8,
    plane: usize,
    k: usize,
) -> u128
    requires powers { ArePowersOf params.now object.now powers.now }
    requires in_range { IsInRange params.now }
    requires degree { params.now.degree ≡ Some degree }
    requires plane { plane < plane_count params.now }
    requires coefficient { k < coefficient_count params.now }
    ensures { result ≡ residue (corner_coefficient params.now (object_corner object.now subset) (slice_index_or (plane_exponents params.now.dims degree) plane []) (slice_index_or (exponent_lists params.now.dims degree) k [])) }
{
    let dims = usize::from(params.dims);
    let mut product: u128 = 1;
    for i in 0..dims {
        let e = exponent(k, i, dims, usize::from(degree));
        let f = exponent(plane, i, dims, usize::from(degree) + 1);
        let Some(factor) = factor(e as u32, f as u32, power_at(powers, subset, i, e)) else {
            return 0;
        };
        product = res_mul(product, factor);
    }
    product
}

// The plane's monomial at a point of stored numbers.
fn monomial(params: &Params, degree: u8, at: &[u32; 3], plane: usize) -> u128
    requires in_range { IsInRange params.now }
    requires degree { params.now.degree ≡ Some degree }
    requires plane { plane < plane_count params.now }
    ensures { result ≡ residue (monomial params.now at.now (slice_index_or (plane_exponents params.now.dims degree) plane [])) }
{
    let dims = usize::from(params.dims);
    let mut product: u128 = 1;
    for i in 0..dims {
        let f = exponent(plane, i, dims, usize::from(degree) + 1) as u32;
        product = res_mul(product, power(at[i], params.origin, f));
    }
    product
}
