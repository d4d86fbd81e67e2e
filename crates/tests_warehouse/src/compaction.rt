//! A warehouse in memory whose history is kept from a version on.
use crate::plain_houses::{Stored, made, object, opened, put};
use bw_types::{Object, Row};
use compact_store::{Compacted, compact};
use page_disk::PlainDisk;
use page_space::OpenFault;
use page_warehouse::{Event, gather};
use std::alloc::Global;
use std::test::Fail;
use warehouse::House;

// The warehouse after four versions, the third of them without a change.
fn four_versions(alloc: Global) -> Result<Option<Stored>, OpenFault> {
    let first = [
        Row::Add(object(7, 1)),
        Row::Add(object(3, 2)),
        Row::Add(object(5, 9)),
    ];
    let second = [Row::Move(object(7, 4)), Row::Withdraw(3)];
    let fourth = [Row::Add(object(3, 8)), Row::Move(object(5, 6))];
    let house = made(alloc)?;
    let house = put(house, &first).and_then(|house| put(house, &second));
    Ok(
        house
            .and_then(|house| put(house, &[]))
            .and_then(|house| put(house, &fourth)),
    )
}

fn event(event: u32, version: u32, add: bool, object: Object) -> Event {
    Event {
        event,
        version,
        add,
        object,
    }
}

// The second disk and how many adds and withdrawals it has, if the history is there.
fn done(compacted: Compacted<PlainDisk>) -> Option<(PlainDisk, u32)> {
    match compacted {
        Compacted::Done { second, rows } => Some((second, rows)),
        _ => None,
    }
}

#[test]
fn what_was_withdrawn_before_is_gone(rt: HostRuntime) -> Result<(), Fail> {
    let expected = [
        event(0, 1, true, object(5, 9)),
        event(1, 1, true, object(7, 4)),
        event(2, 4, true, object(3, 8)),
        event(3, 4, false, object(5, 9)),
        event(4, 4, true, object(5, 6)),
    ];
    let house = four_versions(rt.alloc())?;
    assert!(rt; house.is_some());
    if let Some(mut house) = house {
        let blank = PlainDisk::blank(rt.alloc());
        let kept = done(compact(rt.alloc(), &mut house, 2, blank));
        assert!(rt; kept.is_some());
        if let Some((second, rows)) = kept {
            assert_eq!(rt; rows, 5);
            let mut second = opened(rt.alloc(), second)?;
            let events = gather(rt.alloc(), &mut second)?;
            assert_eq!(rt; events.as_slice(), expected.as_slice());
            assert_eq!(rt; second.last(), 4);
        }
    }
    Ok(())
}

#[test]
fn a_version_above_the_last_is_none(rt: HostRuntime) -> Result<(), Fail> {
    let mut house = made(rt.alloc())?;
    let blank = PlainDisk::blank(rt.alloc());
    match compact(rt.alloc(), &mut house, 1, blank) {
        Compacted::NoVersion { second: _, last } => assert_eq!(rt; last, 0),
        _ => assert!(rt; false),
    }
    Ok(())
}

#[test]
fn a_disk_with_a_warehouse_stays(rt: HostRuntime) -> Result<(), Fail> {
    let mut house = made(rt.alloc())?;
    let other = made(rt.alloc())?.into_disk();
    match compact(rt.alloc(), &mut house, 0, other) {
        Compacted::AlreadyThere(second) => {
            let second = opened(rt.alloc(), second)?;
            assert_eq!(rt; second.last(), 0);
        }
        _ => assert!(rt; false),
    }
    Ok(())
}
