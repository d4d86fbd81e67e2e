//! Warehouses on a recording disk: made, opened, queried, and stopped after each call.
use crate::commits::{Outcome, SIGNED_LINE, came_back, interval, made as made_for, put};
use bw_types::{Kind, Params, Query, Row, query_fits};
use dom_index::PointList;
use page_disk::{MemDisk, Torn};
use page_space::OpenFault;
use page_warehouse::{Created, Warehouse, create};
use std::alloc::Global;
use std::test::Fail;
use warehouse::QueryFault;

const KINDS: [Torn; 5] = [
    Torn::Lost,
    Torn::Landed,
    Torn::Filled(0),
    Torn::Filled(1),
    Torn::Filled(255),
];

fn params_of(dims: u8, degree: Option<u8>, origin: u32) -> Params {
    Params {
        dims,
        degree,
        events: 1000000,
        pages: 1048576,
        origin,
    }
}

const PLAIN: Params = Params {
    dims: 2,
    degree: None,
    events: 1000000,
    pages: 1048576,
    origin: 0,
};

// A disk on which a warehouse was made, and whether that was done before it stopped after so many calls.
fn made(alloc: Global, calls: u64) -> (MemDisk, bool) {
    let mut disk = MemDisk::blank(alloc);
    disk.stop_after(calls);
    let (mut disk, done) = match create(disk, &PLAIN) {
        Created::Done(disk) => (disk, true),
        Created::AlreadyThere(disk) => (disk, false),
        Created::Disk(disk) => (disk, false),
    };
    disk.stop_after(u64::MAX);
    (disk, done)
}

fn opened(alloc: Global, disk: MemDisk) -> Result<Warehouse<MemDisk, PointList>, OpenFault> {
    match Warehouse::open_on(alloc, disk) {
        Ok(house) => Ok(house),
        Err(refused) => Err(refused.fault),
    }
}

fn everywhere(kind: Kind) -> Query {
    Query {
        kind,
        low: [0, 0, 0],
        high: [4294967294, 4294967294, 0],
    }
}

fn asked(
    house: &mut Warehouse<MemDisk, PointList>,
    query: &Query,
    version: u32,
) -> Option<Result<i128, QueryFault>> {
    if !query_fits(query, &house.params()) {
        return None;
    }
    Some(house.query(query, version))
}

#[test]
fn a_new_warehouse_is_empty(rt: HostRuntime) -> Result<(), Fail> {
    let (disk, done) = made(rt.alloc(), u64::MAX);
    assert!(rt; done);
    let mut house = opened(rt.alloc(), disk)?;
    assert_eq!(rt; house.params(), PLAIN);
    assert_eq!(rt; house.last(), 0);
    let (sum, count) = (everywhere(Kind::Sum), everywhere(Kind::Count));
    assert!(rt; asked(&mut house, &sum, 0) == Some(Ok(0)));
    assert!(rt; asked(&mut house, &count, 0) == Some(Ok(0)));
    assert!(rt; asked(&mut house, &sum, 1) == Some(Err(QueryFault::NoVersion(0))));
    // An integral is asked only where there is a degree.
    assert!(rt; asked(&mut house, &everywhere(Kind::Integral), 0) == None);
    Ok(())
}

// What is below a stored number, where an integral at it may be asked.
fn asked_below(
    house: &mut Warehouse<MemDisk, PointList>,
    number: u32,
    version: u32,
) -> Option<Result<u128, QueryFault>> {
    let at = [number, 0, 0];
    let point = Query {
        kind: Kind::Integral,
        low: at,
        high: at,
    };
    if !query_fits(&point, &house.params()) {
        return None;
    }
    Some(house.below(&at, version))
}

#[test]
fn integrals_below_a_number(rt: HostRuntime) -> Result<(), Fail> {
    let zero = 2147483647;
    let line = interval(1, zero - 3, zero + 3, 1, [0, 1, 0]);
    let square = interval(2, zero, zero + 2, 1, [0, 0, 1]);
    let house = opened(rt.alloc(), made_for(rt.alloc(), &SIGNED_LINE))?;
    let (house, first) = came_back(put(house, &[Row::Add(line), Row::Add(square)]))?;
    let (mut house, second) = came_back(put(house, &[Row::Withdraw(1)]))?;
    assert_eq!(rt; first, Outcome::Done(1));
    assert_eq!(rt; second, Outcome::Done(2));
    assert!(rt; asked_below(&mut house, zero + 1, 0) == Some(Ok(0)));
    assert!(rt; asked_below(&mut house, zero - 5, 1) == Some(Ok(0)));
    // Six times (1 - 9) / 2 and six times 1 / 3 are together -22.
    assert!(rt; asked_below(&mut house, zero + 1, 1) == Some(Ok(u128::MAX - 21)));
    assert!(rt; asked_below(&mut house, zero + 3, 1) == Some(Ok(16)));
    let between = Query {
        kind: Kind::Integral,
        low: [zero + 1, 0, 0],
        high: [zero + 3, 0, 0],
    };
    assert!(rt; asked(&mut house, &between, 1) == Some(Ok(38)));
    assert!(rt; asked_below(&mut house, zero + 1, 2) == Some(Ok(2)));
    assert!(rt; asked_below(&mut house, zero + 1, 3) == Some(Err(QueryFault::NoVersion(2))));
    Ok(())
}

#[test]
fn a_second_warehouse_is_refused(rt: HostRuntime) -> Result<(), Fail> {
    let (disk, done) = made(rt.alloc(), u64::MAX);
    assert!(rt; done);
    let there = match create(disk, &PLAIN) {
        Created::AlreadyThere(disk) => Some(disk),
        _ => None,
    };
    assert!(rt; there.is_some());
    Ok(())
}

#[test]
fn disks_without_a_warehouse(rt: HostRuntime) -> Result<(), Fail> {
    let blank = opened(rt.alloc(), MemDisk::blank(rt.alloc()));
    assert!(rt; matches!(blank, Err(OpenFault::Empty)));
    Ok(())
}

// Whether there is a new warehouse, or none; `None` where the disk has something else.
fn is_new(alloc: Global, disk: MemDisk) -> Option<bool> {
    match opened(alloc, disk) {
        Ok(house) => (house.last() == 0 && house.params() == PLAIN).then_some(true),
        Err(fault) => (fault == OpenFault::Empty).then_some(false),
    }
}

// Whether the warehouse is there after a stop at this call and such a crash, where that one writes the open gate.
fn is_there_after(calls: u64, gate: u64, torn: Torn) -> bool {
    let landed = match torn {
        Torn::Landed => true,
        Torn::Filled(byte) => byte == 1,
        Torn::Lost => false,
    };
    calls > gate || (calls == gate && landed)
}

#[test]
fn a_making_that_is_stopped(rt: HostRuntime) -> Result<(), Fail> {
    // The last call syncs the open creation gate, and the one before writes it.
    let (disk, _) = made(rt.alloc(), u64::MAX);
    let gate = disk.calls().saturating_sub(1);
    assert!(rt; 5 < gate && gate < 100);
    for torn in KINDS {
        for calls in 0..gate + 4 {
            let (disk, done) = made(rt.alloc(), calls);
            let there = is_there_after(calls, gate, torn);
            assert_eq!(rt;
                is_new(rt.alloc(), disk.crash(torn)),
                Some(there),
                "after {calls}"
            );
            assert_eq!(rt; done, calls > gate, "after {calls}");
        }
    }
    Ok(())
}
