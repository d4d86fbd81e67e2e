//! Totals over the objects that were live at a version, each in one walk over the lives.
ghost use Rattle.std.specs.Prelude.{◌≡◌, ◌≤◌, ℤ, pos, length};
ghost use Rattle.std.specs.List.{filter};
ghost use Rattle.std.specs.Int.{int_wrap, w128};
ghost use Rattle.bw_types.specs.Tally.{int_sum_by};
ghost use Rattle.bw_types.specs.Fits.{IsInRange};
ghost use Rattle.bw_types.specs.Integral.{integral_over};
ghost use Rattle.bw_types.specs.Meets.{meets};
ghost use Rattle.warehouse.specs.Kept.{is_live_at, objects_at};
ghost use Rattle.warehouse.specs.Parts.{part_at, part_if};

use crate::integral::integral_over;
use crate::life::Life;
use crate::meets::meets;
use bw_types::{Params, Query};

// Whether the life was begun by this version and not ended by it.
fn is_live_at(life: &Life, version: u32) -> bool
    ensures { result ≡ is_live_at version life.now }
{
    life.added <= version && (life.ended == 0 || version < life.ended)
}

// The weight that a life gives.
fn weight_part(life: &Life, dims: u8, query: &Query, version: u32) -> i64
    requires { dims ≤ 3 }
    ensures { result ≡ part_at (part_if (meets dims query.now) (λ o. o.weight)) version life.now }
{
    if is_live_at(life, version) && meets(dims, query, &life.object) {
        life.object.weight
    } else {
        0
    }
}

// What a life gives to a count.
fn count_part(life: &Life, dims: u8, query: &Query, version: u32) -> usize
    requires { dims ≤ 3 }
    ensures is { pos result ≡ part_at (part_if (meets dims query.now) (λ o. pos 1)) version life.now }
    ensures small { result ≤ 1 }
{
    if is_live_at(life, version) && meets(dims, query, &life.object) {
        1
    } else {
        0
    }
}

// What a life gives to an integral, modulo `2^128`.
fn integral_part(life: &Life, params: &Params, query: &Query, version: u32) -> i128
    requires { IsInRange params.now }
    ensures { result ≡ int_wrap w128 (part_at (integral_over params.now query.now) version life.now) }
{
    if is_live_at(life, version) {
        integral_over(params, query, &life.object)
    } else {
        0
    }
}

/// The total weight of the objects that were live at this version and meet the query's box.
pub fn weight_total(lives: &[Life], dims: u8, query: &Query, version: u32) -> i128
    requires { dims ≤ 3 }
    ensures { result ≡ int_sum_by (λ o. o.weight) (filter (meets dims query.now) (objects_at version lives.now)) }
{
    let mut total: i128 = 0;
    for life in lives {
        total += i128::from(weight_part(life, dims, query, version));
    }
    total
}

/// The number of the objects that were live at this version and meet the query's box.
pub fn count_total(lives: &[Life], dims: u8, query: &Query, version: u32) -> i128
    requires { dims ≤ 3 }
    ensures { result ≡ pos (length (filter (meets dims query.now) (objects_at version lives.now))) }
{
    let mut total: usize = 0;
    for life in lives {
        total += count_part(life, dims, query, version);
    }
    total as i128
}

/// The sum of the integrals of the objects that were live at this version over the query's box,
/// times 6 for each dimension, modulo `2^128`.
pub fn integral_total(lives: &[Life], params: &Params, query: &Query, version: u32) -> i128
    requires { IsInRange params.now }
    ensures { result ≡ int_wrap w128 (int_sum_by (integral_over params.now query.now) (objects_at version lives.now)) }
{
    let mut total: i128 = 0;
    for life in lives {
        total = total.wrapping_add(integral_part(life, params, query, version));
    }
    total
}
