//! A program of somebody else that keeps a warehouse: it makes one, opens it, commits rows, asks at two versions, and closes it.
//!
//! The warehouse lies on a disk in memory here. Over files it is the same with a `FileDisk`, and `open_on` gives back what was
//! committed when the program runs again.
#![tactic(auto)]

ghost use Rattle.std.specs.Prelude.{◌≡◌, ◌≤◌, IsTrue, length};
ghost use Rattle.std.specs.List.{list_all};
ghost use Rattle.bw_types.specs.Fits.{IsInRange, row_fits as fits_row};

use boxsum::Index;
use bw_types::{Kind, Object, Params, Query, Row, object_fits, query_fits};
use page_disk::{Disk, PlainDisk};
use page_warehouse::{Created, Warehouse, create};
use std::alloc::Global;
use warehouse::{Committed, House};

/// Boxes in two dimensions, without value functions.
const PARAMS: Params = Params {
    dims: 2,
    degree: None,
    events: 1000,
    pages: 1000,
    origin: 0,
};

fn main(rt: HostRuntime) {
    let disk = PlainDisk::blank(rt.alloc());
    match registry(rt.alloc(), disk) {
        Some(values) => {
            let (before, after) = (values[0], values[1]);
            let _ = println!(rt; "value in the zone at version 1: {before}, at version 2: {after}");
        }
        None => {
            let _ = println!(rt; "the warehouse was not made, or a batch was not put into it");
        }
    }
}

// Two parcels, of which one is sold again in a second batch; the value of those that touch a zone, before and after.
fn registry<D: Disk + Drop>(alloc: Global, disk: D) -> Option<[i128; 2]> {
    let Created::Done(disk) = create(disk, &PARAMS) else {
        return None;
    };
    let Ok(house) = Warehouse::<D, Index>::open_on(alloc, disk) else {
        return None;
    };
    let parcels = [
        Row::Add(parcel(1, [10, 10], [20, 30], 250_000)),
        Row::Add(parcel(2, [21, 10], [40, 30], 310_000)),
    ];
    let house = committed(house, &parcels)?;
    let mut house = committed(house, &[Row::Withdraw(1)])?;
    let before = value_in(&mut house, [15, 15], [25, 25], 1)?;
    let after = value_in(&mut house, [15, 15], [25, 25], 2)?;
    // The disk lasts; a program that goes on later opens it again.
    let _disk = house.into_disk();
    Some([before, after])
}

// A parcel of this value, from its least to its greatest corner, both within it.
fn parcel(id: u64, low: [u32; 2], high: [u32; 2], value: i64) -> Object {
    Object {
        id,
        low: [low[0], low[1], 0],
        high: [high[0], high[1], 0],
        weight: value,
        ..Object::default()
    }
}

// Whether the row may be put into a warehouse with these params.
fn row_fits(row: &Row, params: &Params) -> bool
    requires { IsInRange params.now }
    ensures { result ≡ fits_row params.now row.now }
{
    match row {
        Row::Add(object) | Row::Move(object) => object_fits(object, params),
        Row::Withdraw(_) => true,
    }
}

fn all_fit(rows: &[Row], params: &Params) -> bool
    requires { IsInRange params.now }
    ensures { result ≡ list_all (fits_row params.now) rows.now }
{
    rows.iter().all(|row| row_fits(row, params))
}

// Puts the rows last in the history, as one batch; none where one of them does not fit, or the batch is not put.
fn committed<D: Disk + Drop>(
    house: Warehouse<D, Index>,
    rows: &[Row],
) -> Option<Warehouse<D, Index>> {
    if rows.len() > 4096 || !all_fit(rows, &House::params(&house)) {
        return None;
    }
    match house.commit(rows) {
        Committed::Done { house, version: _ } => Some(house),
        _ => None,
    }
}

// The value of the parcels that touch the zone, at the version.
fn value_in<D: Disk + Drop>(
    house: &mut Warehouse<D, Index>,
    low: [u32; 2],
    high: [u32; 2],
    version: u32,
) -> Option<i128> {
    let zone = Query {
        kind: Kind::Sum,
        low: [low[0], low[1], 0],
        high: [high[0], high[1], 0],
    };
    if !query_fits(&zone, &House::params(house)) {
        return None;
    }
    house.query(&zone, version).ok()
}
