//! The mass that a batch adds to a warehouse.
ghost use Rattle.std.specs.Prelude.{◌≡◌, ◌+◌, ◌^◌, ◌<◌, ◌≤◌, IsTrue, nat_abs};
ghost use Rattle.std.specs.List.{All, list_all};
ghost use Rattle.bw_types.specs.Fits.{IsInRange, object_fits, row_fits};
ghost use Rattle.bw_types.specs.History.{flat, flat_row};
ghost use Rattle.bw_types.specs.Mass.{mass};
ghost use Rattle.bw_types.specs.Refusals.{total_mass};
ghost use Rattle.history_laws.specs.Bounds.{HasSmallWeight};

use bw_types::{Object, Params, Row};
use corner_weights::mass;

/// This mass and the masses of the objects that the rows add; their weights have 64 bits.
pub(crate) fn mass_with(params: &Params, rows: &[Row], before: u128) -> u128
    requires in_range { IsInRange params.now }
    requires fit { IsTrue (list_all (row_fits params.now) rows.now) }
    requires limit { before + total_mass params.now (flat rows.now) < 2 ^ 126 }
    ensures mass { result ≡ before + total_mass params.now (flat rows.now) }
    ensures weights { All HasSmallWeight (flat rows.now) }
{
    let mut total = before;
    for row in rows {
        total += row_mass(params, row);
    }
    total
}

// The mass that a row adds, where it is below the limit.
fn row_mass(params: &Params, row: &Row) -> u128
    requires in_range { IsInRange params.now }
    requires fits { IsTrue (row_fits params.now row.now) }
    requires limit { total_mass params.now (flat_row row.now) < 2 ^ 126 }
    ensures mass { result ≡ total_mass params.now (flat_row row.now) }
    ensures weights { All HasSmallWeight (flat_row row.now) }
{
    match row {
        Row::Add(object) => object_mass(params, object),
        Row::Withdraw(_) => 0,
        Row::Move(object) => object_mass(params, object),
    }
}

// The mass of the object, where it is below the limit.
fn object_mass(params: &Params, object: &Object) -> u128
    requires in_range { IsInRange params.now }
    requires fits { IsTrue (object_fits params.now object.now) }
    requires limit { mass params.now object.now < 2 ^ 126 }
    ensures mass { result ≡ mass params.now object.now }
    ensures weight { nat_abs object.now.weight ≤ 2 ^ 63 }
{
    is_small(object.weight);
    mass(object, params).unwrap_or(0)
}

// Proves that a weight has 64 bits; it does nothing when it runs.
fn is_small(weight: i64)
    ensures { nat_abs weight ≤ 2 ^ 63 }
{}
