//! What the weights of an object cost, of which entering it makes one for each plane at each corner.
ghost use Rattle.std.specs.Prelude.{IsSome};
ghost use Rattle.bw_types.specs.Fits.{IsInRange};

use anyhow::Result;
use bw_types::{Object, Params, coefficient_count};
use corner_weights::{box_powers, plane_count, plane_weight_by};
use std::time::Instant;

fn params_of(dims: u8, degree: u8) -> Params
    ensures range { IsInRange result }
    ensures degree { IsSome result.degree }
{
    Params {
        dims: dims.clamp(1, 3),
        degree: Some(degree.min(2)),
        events: 268435456,
        pages: 4294967295,
        origin: 0,
    }
}

// An object that begins here, and whose value function has so many terms, all other than 0.
fn object_of(low: u32, terms: usize) -> Object {
    let mut coeffs = [0; 27];
    for place in 0..27 {
        if place < terms {
            coeffs[place] = 7;
        }
    }
    Object {
        id: 1,
        low: [low, 2000, 3000],
        high: [1000499, 2599, 3699],
        weight: 5,
        coeffs,
    }
}

// Makes each weight once, and adds them all.
fn weigh(object: &Object, params: &Params) -> u128
    requires range { IsInRange params.now }
    requires degree { IsSome params.now.degree }
{
    let powers = box_powers(object, params);
    let corners = 1_u8 << params.dims.min(3);
    let planes = plane_count(params);
    let mut total = 0_u128;
    for plane in 0..planes {
        for corner in 0..corners {
            let weight = plane_weight_by(&powers, object, params, corner, plane as u8);
            total = total.wrapping_add(weight);
        }
    }
    total
}

fn measure_one(rt: &HostRuntime, dims: u8, degree: u8, times: u32) -> Result<()> {
    let params = params_of(dims, degree);
    let terms = coefficient_count(&params);
    let start = Instant::now(rt)?;
    let mut total = 0_u128;
    for number in 0..times {
        let object = object_of(number % 1000000, terms);
        total = total.wrapping_add(weigh(&object, &params));
    }
    let took = start.elapsed(rt)?.as_nanos();
    let each = took / u128::from(times.max(1)) / 10;
    println!(rt;
        "{dims} dimensions, degree {degree}: {} planes, {}.{:02} microseconds for all weights of an object ({total})",
        plane_count(&params),
        each / 100,
        each % 100
    )?;
    Ok(())
}

/// Prints what all weights of an object cost, made so many times, for each number of dimensions and each degree.
pub fn measure_weights(rt: &HostRuntime, times: u32) -> Result<()> {
    for dims in 1_u8..4 {
        for degree in 0_u8..3 {
            measure_one(rt, dims, degree, times)?;
        }
    }
    Ok(())
}
