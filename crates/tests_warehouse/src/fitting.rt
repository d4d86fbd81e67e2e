//! The test that the rows of a batch fit, as a commit asks of them.
ghost use Rattle.std.specs.Prelude.{◌≡◌};
ghost use Rattle.std.specs.List.{list_all};
ghost use Rattle.bw_types.specs.Fits.{IsInRange, row_fits};

use bw_types::{Params, Row, object_fits};

fn row_fits(params: &Params, row: &Row) -> bool
    requires { IsInRange params.now }
    ensures { result ≡ row_fits params.now row.now }
{
    match row {
        Row::Add(object) => object_fits(object, params),
        Row::Withdraw(_) => true,
        Row::Move(object) => object_fits(object, params),
    }
}

// Whether the rows keep the rules of a warehouse with these params.
pub(crate) fn rows_fit(params: &Params, rows: &[Row]) -> bool
    requires { IsInRange params.now }
    ensures { result ≡ list_all (row_fits params.now) rows.now }
{
    rows.iter().all(|row| row_fits(params, row))
}
