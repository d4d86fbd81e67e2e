//! Random objects, entered and taken out again, beside sums over the objects that are there.
ghost use Rattle.bw_types.specs.Fits.{IsInRange};

use crate::forest::{Entered, ask, empty, object_of, params_of, put, query_of};
use bw_types::{Kind, Object, Params, Query, coefficient_count};
use std::alloc::AllocError;
use std::test::Fail;

// An object that counts in the versions from `added` to before `ended`.
#[derive(Clone, Copy)]
pub struct Life {
    pub object: Object,
    added: u32,
    ended: u32,
}

fn draw(state: &mut u64, below: u32) -> u32 {
    *state = state
        .wrapping_mul(6364136223846793005)
        .wrapping_add(1442695040888963407);
    let upper = (*state >> 32) as u32;
    upper % below.max(1)
}

pub fn drawn_box(state: &mut u64, dims: usize) -> ([u32; 3], [u32; 3]) {
    let mut low = [0; 3];
    let mut high = [0; 3];
    for i in 0..3 {
        if i < dims {
            low[i] = draw(state, 20);
            high[i] = low[i].saturating_add(draw(state, 8));
        }
    }
    (low, high)
}

// The same far ends, or the greatest coordinate, at which the terms of the planes pass 128 bits and cancel.
fn far_ends(high: [u32; 3], dims: usize, is_far: bool) -> [u32; 3] {
    let mut ends = high;
    for i in 0..3 {
        if i < dims && is_far {
            ends[i] = 4294967294;
        }
    }
    ends
}

pub fn drawn_life(state: &mut u64, params: &Params, version: u32) -> Life
    requires { IsInRange params.now }
{
    let (low, high) = drawn_box(state, usize::from(params.dims));
    let weight = i64::from(draw(state, 11)).saturating_sub(5);
    let mut object = object_of(low, high, weight);
    for k in 0..coefficient_count(params) {
        object.coeffs[k] = i64::from(draw(state, 5)).saturating_sub(2);
    }
    Life {
        object,
        added: version,
        ended: version.saturating_add(1).saturating_add(draw(state, 20)),
    }
}

// Six times the integral of x^e from a to b.
fn moment(e: u32, a: u32, b: u32) -> i128 {
    if a >= b {
        return 0;
    }
    let mut first: i128 = 1;
    let mut last: i128 = 1;
    for _ in 0..e.saturating_add(1) {
        first = first.wrapping_mul(i128::from(a));
        last = last.wrapping_mul(i128::from(b));
    }
    let scale = 6 / i128::from(e.saturating_add(1));
    scale.wrapping_mul(last.wrapping_sub(first))
}

// The exponent of coefficient k in dimension i: the last dimension's runs fastest.
fn exponent_of(k: u32, i: usize, dims: usize, base: u32) -> u32 {
    let mut rest = k;
    for _ in i.saturating_add(1)..dims {
        rest /= base.max(1);
    }
    rest % base.max(1)
}

fn plain_integral(object: &Object, query: &Query, params: &Params) -> i128
    requires { IsInRange params.now }
{
    let dims = usize::from(params.dims);
    let base = u32::from(params.degree.unwrap_or(0)).saturating_add(1);
    let mut total: i128 = 0;
    for k in 0..coefficient_count(params) {
        let mut term = i128::from(object.coeffs[k]);
        for i in 0..3 {
            if i < dims {
                let a = object.low[i].max(query.low[i]);
                let b = object.high[i].min(query.high[i]);
                term = term.wrapping_mul(moment(exponent_of(k as u32, i, dims, base), a, b));
            }
        }
        total = total.wrapping_add(term);
    }
    total
}

fn do_meet(object: &Object, query: &Query) -> bool {
    (object.low[0] <= query.high[0] && query.low[0] <= object.high[0])
        && (object.low[1] <= query.high[1] && query.low[1] <= object.high[1])
        && (object.low[2] <= query.high[2] && query.low[2] <= object.high[2])
}

fn plain_answer(lives: &[Life], query: &Query, params: &Params, version: u32) -> i128
    requires { IsInRange params.now }
{
    let mut total: i128 = 0;
    for life in lives {
        if life.added <= version && version < life.ended {
            let met = do_meet(&life.object, query);
            let given = match query.kind {
                Kind::Sum if met => i128::from(life.object.weight),
                Kind::Count if met => 1,
                Kind::Integral => plain_integral(&life.object, query, params),
                _ => 0,
            };
            total = total.wrapping_add(given);
        }
    }
    total
}

// One object is added in each version, and those that end there are taken out.
fn enter_all(
    entered: &mut Entered,
    lives: &mut Vec<Life>,
    params: &Params,
    objects: u32,
) -> Result<bool, AllocError>
    requires { IsInRange params.now }
{
    let mut state = 7;
    for version in 1..objects {
        for life in lives.iter() {
            if life.ended == version && !put(entered, &life.object, true, version) {
                return Ok(false);
            }
        }
        let life = drawn_life(&mut state, params, version);
        if !put(entered, &life.object, false, version) {
            return Ok(false);
        }
        lives.push(life)?;
    }
    Ok(true)
}

// Whether so many objects and the forest of them answer the same, at boxes and versions that are drawn.
fn agrees(
    rt: &HostRuntime,
    dims: u8,
    degree: Option<u8>,
    objects: u32,
) -> Result<bool, AllocError> {
    let params = params_of(dims, degree);
    let mut entered = empty(rt.alloc(), &params);
    let mut lives = Vec::new(rt.alloc());
    if !enter_all(&mut entered, &mut lives, &params, objects)? {
        return Ok(false);
    }
    let mut state = 11;
    for round in 0..24u32 {
        let (low, high) = drawn_box(&mut state, usize::from(params.dims));
        let kind = match round % 3 {
            0 => Kind::Sum,
            1 => Kind::Count,
            _ if params.degree.is_some() => Kind::Integral,
            _ => Kind::Sum,
        };
        let ends = far_ends(high, usize::from(params.dims), round % 4 >= 2);
        let query = query_of(kind, low, ends);
        let version = draw(&mut state, objects);
        let plain = plain_answer(lives.as_slice(), &query, &params, version);
        if ask(&mut entered, &query, version) != Some(plain) {
            return Ok(false);
        }
    }
    Ok(true)
}

#[test]
fn random_intervals(rt: HostRuntime) -> Result<(), Fail> {
    assert!(rt; agrees(&rt, 1, None, 1001)?);
    assert!(rt; agrees(&rt, 1, Some(0), 1001)?);
    assert!(rt; agrees(&rt, 1, Some(1), 1001)?);
    assert!(rt; agrees(&rt, 1, Some(2), 1001)?);
    Ok(())
}

#[test]
fn random_rectangles(rt: HostRuntime) -> Result<(), Fail> {
    assert!(rt; agrees(&rt, 2, None, 1001)?);
    assert!(rt; agrees(&rt, 2, Some(0), 1001)?);
    assert!(rt; agrees(&rt, 2, Some(1), 1001)?);
    assert!(rt; agrees(&rt, 2, Some(2), 1001)?);
    Ok(())
}

#[test]
fn random_boxes(rt: HostRuntime) -> Result<(), Fail> {
    assert!(rt; agrees(&rt, 3, None, 1001)?);
    assert!(rt; agrees(&rt, 3, Some(0), 1001)?);
    assert!(rt; agrees(&rt, 3, Some(1), 1001)?);
    assert!(rt; agrees(&rt, 3, Some(2), 1001)?);
    Ok(())
}
