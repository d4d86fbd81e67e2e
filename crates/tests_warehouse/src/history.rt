//! A warehouse in memory, and the events that are gathered from it.
use crate::plain_houses::{Stored, made, object, put};
use bw_types::{Object, Row};
use page_space::OpenFault;
use page_warehouse::{Event, gather};
use std::alloc::Global;
use std::test::Fail;
use warehouse::House;

fn added(event: u32, version: u32, object: Object) -> Event {
    Event {
        event,
        version,
        add: true,
        object,
    }
}

fn withdrawn(event: u32, version: u32, object: Object) -> Event {
    Event {
        event,
        version,
        add: false,
        object,
    }
}

// The warehouse after four versions, the third of them without a change.
fn four_versions(alloc: Global) -> Result<Option<Stored>, OpenFault> {
    let first = [Row::Add(object(7, 1)), Row::Add(object(3, 2))];
    let second = [Row::Move(object(7, 4)), Row::Withdraw(3)];
    let fourth = [Row::Add(object(3, 8))];
    let house = made(alloc)?;
    let house = put(house, &first).and_then(|house| put(house, &second));
    Ok(
        house
            .and_then(|house| put(house, &[]))
            .and_then(|house| put(house, &fourth)),
    )
}

#[test]
fn events_are_in_order(rt: HostRuntime) -> Result<(), Fail> {
    let expected = [
        added(0, 1, object(7, 1)),
        added(1, 1, object(3, 2)),
        withdrawn(2, 2, object(7, 1)),
        added(3, 2, object(7, 4)),
        withdrawn(4, 2, object(3, 2)),
        added(5, 4, object(3, 8)),
    ];
    let house = four_versions(rt.alloc())?;
    assert!(rt; house.is_some());
    if let Some(mut house) = house {
        let events = gather(rt.alloc(), &mut house)?;
        assert_eq!(rt; events.as_slice(), expected.as_slice());
        assert_eq!(rt; house.last(), 4);
    }
    Ok(())
}

#[test]
fn a_new_warehouse_has_no_events(rt: HostRuntime) -> Result<(), Fail> {
    let mut house = made(rt.alloc())?;
    let events = gather(rt.alloc(), &mut house)?;
    assert!(rt; events.is_empty());
    Ok(())
}
