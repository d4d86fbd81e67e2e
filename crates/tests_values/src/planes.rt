//! Integrals over objects, from the planes at the corners of a query.
ghost use Rattle.std.specs.Prelude.{◌≡◌, ◌≤◌, ◌<◌, ◌^◌, IsTrue, IsSome};
ghost use Rattle.bw_types.specs.Fits.{IsInRange, object_fits};

use bw_types::{Object, Params, object_fits, res_add, res_signed};
use corner_weights::{eval, object_corner, plane_count, plane_weight, sign};
use std::test::Fail;

// Six times the integral for each dimension, by the signed values of the planes at the corners of the query.
fn integral(object: &Object, params: &Params, low: &[u32; 3], high: &[u32; 3]) -> Option<i128>
    requires { IsInRange params.now }
{
    if params.degree.is_none() || !object_fits(object, params) {
        return None;
    }
    let mut total: u128 = 0;
    for at in 0..subset_count(params) {
        let point = corner_of(at, high, low);
        let planes = summed(object, params, &point);
        let value = eval(&planes[..plane_count(params)], params, &point);
        total = res_add(total, sign(at, value));
    }
    Some(res_signed(total))
}

fn summed(object: &Object, params: &Params, point: &[u32; 3]) -> [u128; 64]
    requires in_range { IsInRange params.now }
    requires fits { IsTrue (object_fits params.now object.now) }
    requires degree { IsSome params.now.degree }
{
    let mut planes = [0; 64];
    for plane in 0..plane_count(params) {
        let mut sum: u128 = 0;
        for subset in 0..subset_count(params) {
            if is_at_most(&object_corner(object, subset), point, params.dims) {
                sum = res_add(sum, plane_weight(object, params, subset, plane as u8));
            }
        }
        planes[plane] = sum;
    }
    planes
}

fn subset_count(params: &Params) -> u8
    requires { IsInRange params.now }
    ensures { result ≡ 2 ^ params.now.dims }
{
    match params.dims {
        1 => 2,
        2 => 4,
        _ => 8,
    }
}

fn corner_of(subset: u8, low: &[u32; 3], high: &[u32; 3]) -> [u32; 3] {
    let object = Object {
        id: 0,
        low: *low,
        high: *high,
        weight: 0,
        coeffs: [0; 27],
    };
    object_corner(&object, subset)
}

fn is_at_most(corner: &[u32; 3], point: &[u32; 3], dims: u8) -> bool {
    let mut all = true;
    for i in 0..3 {
        if i < usize::from(dims) && point[i] < corner[i] {
            all = false;
        }
    }
    all
}

fn plain(dims: u8, degree: u8) -> Params
    requires dims { (1 ≤ dims) × (dims ≤ 3) }
    requires degree { degree ≤ 2 }
    ensures { IsInRange result }
{
    Params {
        dims,
        degree: Some(degree),
        events: Params::MOST_EVENTS,
        pages: Params::MOST_PAGES,
        origin: 0,
    }
}

fn object(low: [u32; 3], high: [u32; 3], term: usize, coefficient: i64) -> Object
    requires { term < 27 }
{
    let mut coeffs = [0; 27];
    coeffs[term] = coefficient;
    Object {
        id: 1,
        low,
        high,
        weight: 1,
        coeffs,
    }
}

#[test]
fn parabola_over_an_interval(rt: HostRuntime) -> Result<(), Fail> {
    let params = plain(1, 2);
    let object = object([0, 0, 0], [3, 0, 0], 2, 1);
    assert_eq!(rt;
        integral(&object, &params, &[1, 0, 0], &[2, 0, 0]),
        Some(14)
    );
    assert_eq!(rt; integral(&object, &params, &[3, 0, 0], &[9, 0, 0]), Some(0));
    Ok(())
}

#[test]
fn functions_over_rectangles(rt: HostRuntime) -> Result<(), Fail> {
    let square = object([0, 0, 0], [2, 2, 0], 3, 1);
    let rectangle = object([100, 200, 0], [149, 259, 0], 0, 7);
    assert_eq!(rt;
        integral(&square, &plain(2, 1), &[1, 0, 0], &[2, 1, 0]),
        Some(27)
    );
    assert_eq!(rt;
        integral(&rectangle, &plain(2, 0), &[120, 190, 0], &[139, 209, 0]),
        Some(43092)
    );
    Ok(())
}

#[test]
fn terms_past_the_residues_cancel(rt: HostRuntime) -> Result<(), Fail> {
    let params = plain(3, 2);
    let object = object([0, 0, 0], [1, 1, 1], 26, 1);
    let high = [4294967294, 4294967294, 4294967294];
    assert_eq!(rt; integral(&object, &params, &[0, 0, 0], &high), Some(8));
    Ok(())
}

#[test]
fn coordinates_below_zero(rt: HostRuntime) -> Result<(), Fail> {
    let params = Params {
        dims: 1,
        degree: Some(1),
        events: Params::MOST_EVENTS,
        pages: Params::MOST_PAGES,
        origin: Params::SIGNED_ORIGIN,
    };
    let object = object([2147483645, 0, 0], [2147483648, 0, 0], 1, -1);
    assert_eq!(rt;
        integral(&object, &params, &[2147483645, 0, 0], &[2147483646, 0, 0]),
        Some(9)
    );
    Ok(())
}
