//! Warehouses in memory that are made, opened, and given batches.
use crate::fitting::rows_fit;
use bw_types::{Object, Params, Row};
use dom_index::PointList;
use page_disk::PlainDisk;
use page_space::OpenFault;
use page_warehouse::{Created, Warehouse, create};
use std::alloc::Global;
use warehouse::{Committed, House};

pub(crate) type Stored = Warehouse<PlainDisk, PointList>;

const LINE: Params = Params {
    dims: 1,
    degree: None,
    events: 1000000,
    pages: 1048576,
    origin: 0,
};

pub(crate) fn opened(alloc: Global, disk: PlainDisk) -> Result<Stored, OpenFault> {
    match Warehouse::open_on(alloc, disk) {
        Ok(house) => Ok(house),
        Err(refused) => Err(refused.fault),
    }
}

// A new warehouse.
pub(crate) fn made(alloc: Global) -> Result<Stored, OpenFault> {
    let disk = match create(PlainDisk::blank(alloc), &LINE) {
        Created::Done(disk) => disk,
        Created::AlreadyThere(disk) => disk,
        Created::Disk(disk) => disk,
    };
    opened(alloc, disk)
}

// The warehouse with one more batch, if it was put last.
pub(crate) fn put(house: Stored, rows: &[Row]) -> Option<Stored> {
    if rows.len() > 4096 || !rows_fit(&house.params(), rows) {
        return None;
    }
    match house.commit(rows) {
        Committed::Done { house, version: _ } => Some(house),
        _ => None,
    }
}

// An object from 0 to this place.
pub(crate) fn object(id: u64, high: u32) -> Object {
    Object {
        id,
        low: [0; 3],
        high: [high, 0, 0],
        weight: 5,
        coeffs: [0; 27],
    }
}
