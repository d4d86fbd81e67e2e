//! A warehouse on a disk in memory, and batches that are put into it.
ghost use Rattle.std.specs.Prelude.{◌≡◌};
ghost use Rattle.std.specs.List.{list_all};
ghost use Rattle.bw_types.specs.Fits.{IsInRange, row_fits};

use bw_types::{Params, Row, object_fits};
use dom_index::PointList;
use page_disk::PlainDisk;
use page_space::OpenFault;
use page_warehouse::{Created, Warehouse, create};
use std::alloc::Global;
use warehouse::{Committed, House};

pub(crate) type Stored = Warehouse<PlainDisk, PointList>;

fn row_fits(params: &Params, row: &Row) -> bool
    requires { IsInRange params.now }
    ensures { result ≡ row_fits params.now row.now }
{
    match row {
        Row::Add(object) => object_fits(object, params),
        Row::Withdraw(_) => true,
        Row::Move(object) => object_fits(object, params),
    }
}

fn rows_fit(params: &Params, rows: &[Row]) -> bool
    requires { IsInRange params.now }
    ensures { result ≡ list_all (row_fits params.now) rows.now }
{
    rows.iter().all(|row| row_fits(params, row))
}

// A new warehouse.
pub(crate) fn made(alloc: Global, params: &Params) -> Result<Stored, OpenFault>
    requires { IsInRange params.now }
{
    let disk = match create(PlainDisk::blank(alloc), params) {
        Created::Done(disk) => disk,
        Created::AlreadyThere(disk) => disk,
        Created::Disk(disk) => disk,
    };
    match Warehouse::open_on(alloc, disk) {
        Ok(house) => Ok(house),
        Err(refused) => Err(refused.fault),
    }
}

// The warehouse with one more batch, if it was put last.
pub(crate) fn put(house: Stored, rows: &[Row]) -> Option<Stored> {
    if rows.len() > 4096 || !rows_fit(&house.params(), rows) {
        return None;
    }
    match house.commit(rows) {
        Committed::Done { house, version: _ } => Some(house),
        _ => None,
    }
}
