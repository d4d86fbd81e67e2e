//! A disk with an object table of the earlier form: it answers, and the first commit writes the table anew, all or nothing.
use crate::disks::TOUCHING;
use crate::hostile::pages_of;
use crate::memory::{KINDS, new_warehouse, run_over};
use boxsum::{Ran, Status};
use page_disk::{Area, MemDisk};
use ports::{Page, blank_page};
use std::alloc::Global;
use std::test::Fail;

// A leaf of a table by lives as one of a table by ids: each object without the number of its life.
fn by_ids(leaf: &Page) -> Page {
    let mut page = blank_page();
    page[0] = 6;
    page[1] = 1;
    page[2] = leaf[2];
    page[3] = leaf[3];
    for object in 0..14usize {
        let from = object.saturating_mul(276).saturating_add(16);
        let to = object.saturating_mul(272).saturating_add(16);
        for i in 0..272usize {
            let byte = leaf.get(from.saturating_add(i)).copied().unwrap_or(0);
            if let Some(place) = page.get_mut(to.saturating_add(i)) {
                *place = byte;
            }
        }
    }
    page
}

// The disk of two boxes that touch, with their table in the earlier form, and how many leaves that has.
pub(crate) fn earlier(alloc: Global) -> Result<(MemDisk, u64), Fail> {
    let (ran, _) = run_over(alloc, "run", TOUCHING.as_bytes(), new_warehouse(alloc)?)?;
    let mut disk = ran.disk;
    let pages = pages_of(alloc, &mut disk, Area::Pages)?;
    let journal = pages_of(alloc, &mut disk, Area::Journal)?;
    let mut changed = Vec::new(alloc);
    let mut leaves: u64 = 0;
    for (place, page) in pages.iter().enumerate() {
        let mut page = *page;
        if page[0] == 10 {
            page = by_ids(&page);
            leaves = leaves.saturating_add(1);
        }
        if place == 2 {
            page[1] = 0;
        }
        changed.push(page)?;
    }
    Ok((MemDisk::holding(alloc, changed, journal), leaves))
}

// Whether the meta page says that the table is by lives.
fn is_by_lives(alloc: Global, disk: &mut MemDisk) -> Result<bool, Fail> {
    let pages = pages_of(alloc, disk, Area::Pages)?;
    match pages.as_slice().get(2) {
        Some(page) => Ok(page[1] == 1),
        None => Ok(false),
    }
}

// What withdraws the first box, and asks at both versions.
const WITHDRAWAL: &str = "withdraw,1,1\ncommit,1\nsum,1,5,5\nsum,2,5,5\ncount,2,0,9\n";

// Whether the withdrawal is there; `None` where the disk answers neither as before nor as after it.
fn has_withdrawal(alloc: Global, disk: MemDisk) -> Result<Option<bool>, Fail> {
    let (ran, sink) = run_over(alloc, "run", b"sum,1,5,5\nsum,2,5,5\ncount,2,0,9\n", disk)?;
    if ran.status != Status::Fine {
        return Ok(None);
    }
    if sink.bytes() == b"sum,1,17\nnoversion,2\nnoversion,3\n".as_slice() {
        return Ok(Some(false));
    }
    if sink.bytes() == b"sum,1,17\nsum,2,7\ncount,2,1\n".as_slice() {
        return Ok(Some(true));
    }
    Ok(None)
}

#[test]
fn an_earlier_table_answers_and_is_written_anew(rt: HostRuntime) -> Result<(), Fail> {
    let alloc = rt.alloc();
    let (disk, leaves) = earlier(alloc)?;
    assert_eq!(rt; leaves, 1);
    let (ran, sink) = run_over(alloc, "run", b"sum,now,5,5", disk)?;
    assert_eq!(rt; ran.status, Status::Fine);
    assert_eq!(rt; sink.bytes(), b"sum,1,17\n".as_slice());
    let Ran { status: _, disk } = ran;
    let mut disk = disk;
    assert!(rt; !is_by_lives(alloc, &mut disk)?);
    let (ran, sink) = run_over(alloc, "run", WITHDRAWAL.as_bytes(), disk)?;
    assert_eq!(rt; ran.status, Status::Fine);
    assert_eq!(rt;
        sink.bytes(),
        b"version,2\nsum,1,17\nsum,2,7\ncount,2,1\n".as_slice()
    );
    let Ran { status: _, disk } = ran;
    let mut disk = disk;
    assert!(rt; is_by_lives(alloc, &mut disk)?);
    Ok(())
}

#[test]
fn the_first_commit_is_stopped(rt: HostRuntime) -> Result<(), Fail> {
    let alloc = rt.alloc();
    let (disk, _) = earlier(alloc)?;
    let before = disk.calls();
    let (ran, _) = run_over(alloc, "run", WITHDRAWAL.as_bytes(), disk)?;
    let after = ran.disk.calls();
    assert!(rt; before < after && after < 1000);
    let all = after - before;
    for torn in KINDS {
        let mut was_there = false;
        for calls in 0..all + 1 {
            let (disk, _) = earlier(alloc)?;
            let mut disk = disk;
            disk.stop_after(calls);
            let (ran, sink) = run_over(alloc, "run", WITHDRAWAL.as_bytes(), disk)?;
            let Ran { status: _, disk } = ran;
            let acknowledged = sink.bytes().starts_with(b"version,2\n".as_slice());
            let there = has_withdrawal(alloc, disk.crash(torn))?;
            assert!(rt; there.is_some(), "call {calls}");
            let there = there == Some(true);
            // What is acknowledged is there, and once it is there it stays.
            assert!(rt; there || !acknowledged, "call {calls}");
            assert!(rt; there || !was_there, "call {calls}");
            was_there = there;
        }
        assert!(rt; was_there);
    }
    Ok(())
}
