//! The mass that a batch adds to a warehouse.
ghost use Rattle.std.specs.Prelude.{◌≡◌, ◌+◌, ◌<◌, true};
ghost use Rattle.std.specs.List.{list_all};
ghost use Rattle.bw_types.specs.Fits.{IsInRange, row_fits};
ghost use Rattle.bw_types.specs.History.{flat, flat_row};
ghost use Rattle.bw_types.specs.Mass.{mass_limit};
ghost use Rattle.bw_types.specs.Refusals.{total_mass};

use bw_types::{Params, Row};
use corner_weights::mass;

/// This mass and the masses of the objects that the rows add.
pub fn mass_after(mass: u128, params: &Params, rows: &[Row]) -> u128
    requires in_range { IsInRange params.now }
    requires fit { list_all (row_fits params.now) rows.now ≡ true }
    requires limit { mass + total_mass params.now (flat rows.now) < mass_limit }
    ensures { result ≡ mass + total_mass params.now (flat rows.now) }
{
    let mut total = mass;
    for row in rows {
        total += mass_of(params, row);
    }
    total
}

// The mass that a row adds, where it is below `2^126`.
fn mass_of(params: &Params, row: &Row) -> u128
    requires in_range { IsInRange params.now }
    requires fits { row_fits params.now row.now ≡ true }
    requires limit { total_mass params.now (flat_row row.now) < mass_limit }
    ensures { result ≡ total_mass params.now (flat_row row.now) }
{
    match row {
        Row::Add(object) | Row::Move(object) => mass(object, params).unwrap_or(0),
        Row::Withdraw(_) => 0,
    }
}
