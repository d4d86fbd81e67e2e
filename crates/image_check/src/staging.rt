//! The rows that stage a batch.
ghost use Rattle.std.specs.Prelude.{◌≡◌, OnOk, map};
ghost use Rattle.std.specs.List.{list_all};
ghost use Rattle.bw_types.specs.Fits.{IsInRange, row_fits};
ghost use Rattle.bw_types.specs.Lawful.{staged_rows};
ghost use Rattle.page_warehouse.specs.Events.{change_in};

use bw_types::{Params, Row, object_fits};
use page_warehouse::{Event, first_row};
use std::alloc::AllocError;

/// Puts the rows that stage a batch, whose events these are, in place of those that were there.
pub(crate) fn stage(events: &[Event], rows: &mut Vec<Row>) -> Result<(), AllocError>
    ensures { OnOk result (rows.new.items ≡ staged_rows (map change_in events.now)) }
{
    rows.clear();
    let mut later = events;
    while !later.is_empty() {
        let (row, count) = first_row(later);
        rows.push(row)?;
        later = &later[count..];
    }
    Ok(())
}

/// Whether the rows keep the rules of a warehouse with these params.
pub(crate) fn rows_fit(params: &Params, rows: &[Row]) -> bool
    requires { IsInRange params.now }
    ensures { result ≡ list_all (row_fits params.now) rows.now }
{
    rows.iter().all(|row| row_fits(params, row))
}

fn row_fits(params: &Params, row: &Row) -> bool
    requires { IsInRange params.now }
    ensures { result ≡ row_fits params.now row.now }
{
    match row {
        Row::Add(object) => object_fits(object, params),
        Row::Withdraw(_) => true,
        Row::Move(object) => object_fits(object, params),
    }
}
