//! Disks that hold what no run wrote, that fail in mid-commit, and that stop while they are opened.
use crate::disks::{TOUCHING, has_batch, many_adds};
use crate::memory::{KINDS, failing_run, new_warehouse, run_over};
use boxsum::{Ran, Status};
use page_disk::{Area, Disk, MemDisk, Torn};
use ports::{Page, blank_page};
use std::alloc::Global;
use std::test::Fail;

// The pages of an area, as they read.
pub(crate) fn pages_of(alloc: Global, disk: &mut MemDisk, area: Area) -> Result<Vec<Page>, Fail> {
    let mut pages = Vec::new(alloc);
    let count = disk.len(area).unwrap_or(0);
    for page in 0..count {
        let mut bytes = blank_page();
        if let Ok(true) = disk.read(area, page, &mut bytes) {
            pages.push(bytes)?;
        }
    }
    Ok(pages)
}

// A disk on which one page of the Pages area is another.
pub(crate) fn with_page(
    alloc: Global,
    pages: &[Page],
    journal: &[Page],
    place: usize,
    page: &Page,
) -> Result<MemDisk, Fail> {
    let mut changed = Vec::from_slice(alloc, pages)?;
    if let Some(bytes) = changed.as_mut_slice().get_mut(place) {
        *bytes = *page;
    }
    Ok(MemDisk::holding(alloc, changed, Vec::from_slice(alloc, journal)?))
}

// A warehouse of two dimensions with 65 boxes at one point.
pub(crate) fn many_boxes(alloc: Global) -> Result<MemDisk, Fail> {
    let (ran, _) = run_over(alloc, "create 2", b"", MemDisk::blank(alloc))?;
    let input = many_adds(alloc, 65)?;
    let (ran, _) = run_over(alloc, "run", input.as_bytes(), ran.disk)?;
    Ok(ran.disk)
}

// Whether a count of the boxes of `many_boxes` was answered rightly, or was not answered since a page is damaged.
fn is_right_or_damaged(status: Status, written: &[u8]) -> bool {
    match status {
        Status::Fine => written == b"count,1,65\n".as_slice(),
        Status::Damaged { area: _, page: _ } => written.is_empty(),
        _ => false,
    }
}

#[test]
fn pages_of_noise(rt: HostRuntime) -> Result<(), Fail> {
    let alloc = rt.alloc();
    let mut disk = many_boxes(alloc)?;
    let pages = pages_of(alloc, &mut disk, Area::Pages)?;
    let journal = pages_of(alloc, &mut disk, Area::Journal)?;
    assert!(rt; pages.len() > 3);
    for place in 1..pages.len() {
        for byte in [0, 255] {
            let mut noise = blank_page();
            noise.fill(byte);
            let disk = with_page(alloc, pages.as_slice(), journal.as_slice(), place, &noise)?;
            let (ran, sink) = run_over(alloc, "run", b"count,now,5,5,5,5", disk)?;
            let fits = is_right_or_damaged(ran.status, sink.bytes());
            assert!(rt; fits, "page {place}, byte {byte}");
        }
    }
    Ok(())
}

// A page of cuts with this page as the child of its first entry.
fn with_first_child(page: &Page, child: u64) -> Page {
    let mut page = *page;
    // The first nodes are cuts, which begin with 1, and then comes the first entry. Its child is the second half of it.
    let mut start: usize = 16;
    for _ in 0..63 {
        if let Some(tag) = page.get(start) {
            if *tag == 1 {
                start = start.saturating_add(16);
            }
        }
    }
    let start = start.saturating_add(8);
    for (i, byte) in child.to_be_bytes().iter().enumerate() {
        if let Some(to) = page.get_mut(start.saturating_add(i)) {
            *to = *byte;
        }
    }
    page
}

#[test]
fn pages_that_name_themselves(rt: HostRuntime) -> Result<(), Fail> {
    let alloc = rt.alloc();
    let mut disk = many_boxes(alloc)?;
    let pages = pages_of(alloc, &mut disk, Area::Pages)?;
    let journal = pages_of(alloc, &mut disk, Area::Journal)?;
    let mut times: u64 = 0;
    let mut refused: u64 = 0;
    for (place, page) in pages.iter().enumerate() {
        if page[0] == 11 {
            times = times.saturating_add(1);
            let page = with_first_child(page, place as u64);
            let disk = with_page(alloc, pages.as_slice(), journal.as_slice(), place, &page)?;
            let (ran, sink) = run_over(alloc, "run", b"count,now,5,5,5,5", disk)?;
            let fits = is_right_or_damaged(ran.status, sink.bytes());
            assert!(rt; fits, "page {place}");
            if ran.status != Status::Fine {
                refused = refused.saturating_add(1);
            }
        }
    }
    assert!(rt; times > 0);
    // Some of them are on the way of the query.
    assert!(rt; refused > 0, "of {times} pages");
    Ok(())
}

// The disk with the last byte of a weight in the object table changed, where it is this byte: that of the first object of
// each leaf. How often it was.
fn with_weight(alloc: Global, disk: MemDisk, from: u8, to: u8) -> Result<(MemDisk, u64), Fail> {
    let mut disk = disk;
    let pages = pages_of(alloc, &mut disk, Area::Pages)?;
    let journal = pages_of(alloc, &mut disk, Area::Journal)?;
    let mut changed = Vec::new(alloc);
    let mut times: u64 = 0;
    for page in pages.as_slice() {
        let mut page = *page;
        if page[0] == 10 && page[1] == 1 && page[55] == from {
            page[55] = to;
            times = times.saturating_add(1);
        }
        changed.push(page)?;
    }
    Ok((MemDisk::holding(alloc, changed, journal), times))
}

#[test]
fn the_trees_decide_and_not_the_table(rt: HostRuntime) -> Result<(), Fail> {
    let alloc = rt.alloc();
    let (ran, _) = run_over(alloc, "run", TOUCHING.as_bytes(), new_warehouse(alloc)?)?;
    let (disk, times) = with_weight(alloc, ran.disk, 10, 11)?;
    assert_eq!(rt; times, 1);
    let (ran, sink) = run_over(alloc, "run", b"sum,now,5,5", disk)?;
    assert_eq!(rt; ran.status, Status::Fine);
    assert_eq!(rt; sink.bytes(), b"sum,1,17\n".as_slice());
    let (ran, _) = run_over(alloc, "create 3 --degree 2", b"", MemDisk::blank(alloc))?;
    let input =
        b"add,1,1,0,1,0,1,0,1,1,0,0,0,0,0,0,0,0,0,0,0,0,0,0,0,0,0,0,0,0,0,0,0,0,0,0,1\ncommit,1\n";
    let (ran, _) = run_over(alloc, "run", input, ran.disk)?;
    let (disk, times) = with_weight(alloc, ran.disk, 1, 2)?;
    assert_eq!(rt; times, 1);
    let (ran, sink) = run_over(alloc, "run", b"sum,now,0,1,0,1,0,1", disk)?;
    assert_eq!(rt; ran.status, Status::Fine);
    assert_eq!(rt; sink.bytes(), b"sum,1,1\n".as_slice());
    Ok(())
}

#[test]
fn an_opening_that_is_stopped(rt: HostRuntime) -> Result<(), Fail> {
    let alloc = rt.alloc();
    // The first stop after which the batch is there although no write is left to land: the journal's gate is synced.
    let mut synced = None;
    for calls in 0..100 {
        let mut disk = new_warehouse(alloc)?;
        disk.stop_after(calls);
        let (ran, _) = run_over(alloc, "run", TOUCHING.as_bytes(), disk)?;
        if has_batch(alloc, ran.disk.crash(Torn::Lost))? == Some(true) {
            synced = Some(calls);
            break;
        }
    }
    assert!(rt; synced.is_some());
    let synced = synced.unwrap_or(0);
    for torn in KINDS {
        for calls in 0..40 {
            let mut disk = new_warehouse(alloc)?;
            disk.stop_after(synced);
            let (ran, _) = run_over(alloc, "run", TOUCHING.as_bytes(), disk)?;
            let mut disk = ran.disk.crash(Torn::Lost);
            disk.stop_after(calls);
            let (ran, _) = run_over(alloc, "run", b"sum,now,5,5", disk)?;
            let Ran { status: _, disk } = ran;
            assert_eq!(rt;
                has_batch(alloc, disk.crash(torn))?,
                Some(true),
                "call {calls}"
            );
        }
    }
    Ok(())
}

#[test]
fn calls_of_a_great_commit_fail(rt: HostRuntime) -> Result<(), Fail> {
    let alloc = rt.alloc();
    let input = many_adds(alloc, 65)?;
    let (ran, _) = run_over(alloc, "create 2", b"", MemDisk::blank(alloc))?;
    let before = ran.disk.calls();
    let (ran, _) = run_over(alloc, "run", input.as_bytes(), ran.disk)?;
    assert_eq!(rt; ran.status, Status::Fine);
    let all = ran.disk.calls().saturating_sub(before);
    assert!(rt; all < 1000);
    for call in 1..all + 1 {
        let (ran, _) = run_over(alloc, "create 2", b"", MemDisk::blank(alloc))?;
        let ended = failing_run(alloc, "run", input.as_bytes(), ran.disk, call)?;
        let Ran { status, disk } = ended;
        assert_eq!(rt; status, Status::DiskFault, "call {call}");
        assert_eq!(rt; disk.faults(), 1, "call {call}");
        // Version 0 or 1 is there whole.
        let (ran, sink) = run_over(alloc, "run", b"count,now,5,5,5,5", disk)?;
        assert_eq!(rt; ran.status, Status::Fine, "call {call}");
        let before = sink.bytes() == b"count,0,0\n".as_slice();
        let after = sink.bytes() == b"count,1,65\n".as_slice();
        assert!(rt; before || after, "call {call}");
    }
    Ok(())
}
