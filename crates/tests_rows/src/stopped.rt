//! Derivations that are stopped, or fail, at each call of the second disk.
use crate::spans::{asked, two_versions};
use dom_index::PointList;
use page_disk::{Area, Disk, Failed, MemDisk, Torn};
use page_space::OpenFault;
use ports::{Page, blank_page};
use span_planes::{Derived, Spans, derive};
use std::alloc::Global;
use std::test::Fail;

// What may become of the writes that are pending.
const KINDS: [Torn; 5] = [
    Torn::Lost,
    Torn::Landed,
    Torn::Filled(0),
    Torn::Filled(1),
    Torn::Filled(255),
];

// How a derivation to this disk ended: whether it is done, whether a disk failed, and the second disk.
fn derived(alloc: Global, second: MemDisk) -> Result<Option<(bool, bool, MemDisk)>, Fail> {
    let Some(mut house) = two_versions(alloc)? else {
        return Ok(None);
    };
    match derive(alloc, &mut house, second) {
        Derived::Done { second, version: _ } => Ok(Some((true, false, second))),
        Derived::Disk(second) => Ok(Some((false, true, second))),
        _ => Ok(None),
    }
}

// What is on a second disk: 0 where it is empty, 1 where it has new spans, and 2 where it has all of them; and nothing else.
fn left(alloc: Global, second: MemDisk) -> Option<u32> {
    match Spans::<MemDisk, PointList>::open_on(alloc, second) {
        Ok(mut spans) => match spans.last() {
            0 if asked(&mut spans, 5, 5, 0, 0) == Some(Ok(0)) => Some(1),
            2 if asked(&mut spans, 5, 5, 1, 2) == Some(Ok(24)) => Some(2),
            _ => None,
        },
        Err(refused) if refused.fault == OpenFault::Empty => Some(0),
        Err(_) => None,
    }
}

// The calls of a derivation on the second disk.
fn calls_of(alloc: Global) -> Result<u64, Fail> {
    match derived(alloc, MemDisk::blank(alloc))? {
        Some((true, _, second)) => Ok(second.calls()),
        _ => Ok(0),
    }
}

#[test]
fn a_derivation_that_is_stopped(rt: HostRuntime) -> Result<(), Fail> {
    let alloc = rt.alloc();
    let all = calls_of(alloc)?;
    assert!(rt; 0 < all && all < 1000);
    for torn in KINDS {
        let mut before = 0;
        for calls in 0..all.saturating_add(1) {
            let mut second = MemDisk::blank(alloc);
            second.stop_after(calls);
            let ran = derived(alloc, second)?;
            assert!(rt; ran.is_some(), "call {calls}");
            if let Some((done, _, second)) = ran {
                let there = left(alloc, second.crash(torn));
                assert!(rt; there.is_some(), "call {calls}");
                let there = there.unwrap_or(0);
                // What is done is there, and what was once made stays.
                assert!(rt; !done || there == 2, "call {calls}");
                assert!(rt; before <= there, "call {calls}");
                before = there;
            }
        }
        assert_eq!(rt; before, 2);
    }
    Ok(())
}

#[test]
fn each_call_of_a_derivation_fails(rt: HostRuntime) -> Result<(), Fail> {
    let alloc = rt.alloc();
    let all = calls_of(alloc)?;
    assert!(rt; 0 < all && all < 1000);
    for call in 1..all.saturating_add(1) {
        let mut second = MemDisk::blank(alloc);
        second.fail_at(Vec::from_slice(alloc, &[call])?);
        let ran = derived(alloc, second)?;
        assert!(rt; ran.is_some(), "call {call}");
        if let Some((_, failed, second)) = ran {
            assert!(rt; failed, "call {call}");
            assert!(rt; left(alloc, second).is_some(), "call {call}");
        }
    }
    Ok(())
}

// The pages of a disk, area by area.
pub(crate) fn pages_on(alloc: Global, disk: &mut MemDisk) -> Result<Vec<Page>, Fail> {
    let mut pages = Vec::new(alloc);
    for area in [Area::Pages, Area::Journal] {
        for page in 0..disk.len(area)? {
            let mut bytes = blank_page();
            disk.read(area, page, &mut bytes)?;
            pages.push(bytes)?;
        }
    }
    Ok(pages)
}

// Whether the journal of the disk is open.
fn is_open(disk: &mut MemDisk) -> Result<bool, Failed> {
    let mut gate = blank_page();
    disk.read(Area::Journal, 0, &mut gate)?;
    Ok(gate[0] == 1)
}

// Whether the disk is told to be there, and then has the same pages.
fn stays_there(alloc: Global, mut second: MemDisk) -> Result<bool, Fail> {
    let before = pages_on(alloc, &mut second)?;
    let Some(mut house) = two_versions(alloc)? else {
        return Ok(false);
    };
    match derive(alloc, &mut house, second) {
        Derived::AlreadyThere(mut second) => Ok(pages_on(alloc, &mut second)? == before),
        _ => Ok(false),
    }
}

// A stop of the one commit may leave all spans in an open journal. They are no place for spans, and are not brought home either.
#[test]
fn an_open_journal_of_another_disk_stays(rt: HostRuntime) -> Result<(), Fail> {
    let alloc = rt.alloc();
    let all = calls_of(alloc)?;
    let mut met = 0;
    for calls in 0..all.saturating_add(1) {
        let mut second = MemDisk::blank(alloc);
        second.stop_after(calls);
        if let Some((_, _, second)) = derived(alloc, second)? {
            let mut second = second.crash(Torn::Landed);
            if is_open(&mut second)? {
                assert!(rt; stays_there(alloc, second)?, "call {calls}");
                met = 1;
            }
        }
    }
    assert_eq!(rt; met, 1);
    Ok(())
}
