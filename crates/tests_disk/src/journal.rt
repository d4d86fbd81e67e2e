//! A new space, a commit and a replay, each stopped after each call.
ghost use Rattle.std.specs.Prelude.{◌≡◌, ◌≤◌, ◌<◌, ◌+◌, ◌^◌, ◌↔◌, ℕ, IsSome, IfOk, true, false};
ghost use Rattle.redo_journal.specs.Images.{image_map};

use page_disk::{Area, Disk, Failed, MemDisk, Torn};
use ports::Page;
use redo_journal::{
    Gate, Images, JournalFault, NoMemory, commit, create, ready, replay, settling_laws,
};
use std::alloc::Global;
use std::test::Fail;

const SUPERBLOCK: Page = [5; 4096];

const META: Page = [6; 4096];

const IMAGE: Page = [9; 4096];

const KINDS: [Torn; 5] = [
    Torn::Lost,
    Torn::Landed,
    Torn::Filled(0),
    Torn::Filled(1),
    Torn::Filled(255),
];

// A blank disk that stops after so many calls of `create`, and whether that was done.
fn stopped(alloc: Global, calls: u64) -> (MemDisk, bool) {
    let mut disk = MemDisk::blank(alloc);
    disk.stop_after(calls);
    let done = create(&mut disk, &SUPERBLOCK, &META).is_ok();
    (disk, done)
}

// What the gates say, and the two pages behind the creation gate.
fn found<D: Disk>(disk: &mut D) -> Result<(Gate, Page, Page), Failed> {
    let gate = ready(disk)?;
    let mut superblock = [0; 4096];
    let mut meta = [0; 4096];
    disk.read(Area::Pages, 1, &mut superblock)?;
    disk.read(Area::Pages, 2, &mut meta)?;
    Ok((gate, superblock, meta))
}

#[test]
fn a_stop_leaves_nothing_or_all(rt: HostRuntime) -> Result<(), Fail> {
    for calls in 0..13 {
        for torn in KINDS {
            let (disk, done) = stopped(rt.alloc(), calls);
            assert_eq!(rt; done, calls >= 11, "after {calls}");
            let (gate, superblock, meta) = found(&mut disk.crash(torn))?;
            let all = gate == Gate::Idle && superblock == SUPERBLOCK && meta == META;
            assert!(rt; all || (gate == Gate::Blank && !done), "after {calls}");
        }
    }
    Ok(())
}

// Images for so many pages from this one on.
fn images_from(alloc: Global, from: u64, count: u64) -> Result<Images, NoMemory>
    requires { from + count < 2 ^ 64 }
    ensures { IfOk result (λ images. (page : ℕ) → IsSome (image_map images page) ↔ ((from ≤ page) × (page < from + count))) }
{
    let mut images = Images::new(alloc);
    for page in from..from + count {
        images.put(page, &IMAGE)?;
    }
    Ok(images)
}

// Commits images for so many pages from this one on, if the disk is idle.
fn commit_row(alloc: Global, disk: &mut MemDisk, from: u64, count: u64) -> Result<(), Failed>
    requires first { 1 ≤ from }
    requires near { from ≤ 3 }
    requires some { 1 ≤ count }
    requires few { count < 2 ^ 32 }
{
    let Ok(images) = images_from(alloc, from, count) else {
        return Err(Failed);
    };
    if ready(disk)? != Gate::Idle {
        return Err(Failed);
    }
    commit(disk, &images)
}

// A new space that stops after so many calls of a commit to pages 2 and 3, and whether that was done.
fn stopped_commit(alloc: Global, calls: u64) -> (MemDisk, bool) {
    let (mut disk, _) = stopped(alloc, u64::MAX);
    disk.stop_after(calls);
    let done = commit_row(alloc, &mut disk, 2, 2).is_ok();
    (disk, done)
}

// The page, if it is there.
fn page_on(disk: &mut MemDisk, page: u64) -> Result<Option<Page>, Failed> {
    let mut buf = [0; 4096];
    let found = disk.read(Area::Pages, page, &mut buf)?;
    Ok(found.then_some(buf))
}

// Replays where that is due, and then pages 2 and 3.
fn reopened(disk: &mut MemDisk) -> Result<[Option<Page>; 2], JournalFault> {
    if ready(disk)? == Gate::Armed {
        replay(disk)?;
    }
    Ok([page_on(disk, 2)?, page_on(disk, 3)?])
}

const BEFORE: [Option<Page>; 2] = [Some(META), None];

const AFTER: [Option<Page>; 2] = [Some(IMAGE), Some(IMAGE)];

#[test]
fn a_stopped_commit_leaves_all_images_or_none(rt: HostRuntime) -> Result<(), Fail> {
    for calls in 0..18 {
        for torn in KINDS {
            let (disk, done) = stopped_commit(rt.alloc(), calls);
            assert_eq!(rt; done, calls >= 16, "after {calls}");
            let pages = reopened(&mut disk.crash(torn))?;
            assert!(rt;
                pages == AFTER || (pages == BEFORE && !done),
                "after {calls}"
            );
        }
    }
    Ok(())
}

#[test]
fn a_stopped_replay_is_made_again(rt: HostRuntime) -> Result<(), Fail> {
    for calls in 0..20 {
        for torn in KINDS {
            // The commit stops once its gate is open and synced.
            let (disk, _) = stopped_commit(rt.alloc(), 11);
            let mut disk = disk.crash(Torn::Lost);
            disk.stop_after(calls);
            assert_eq!(rt; reopened(&mut disk).is_ok(), calls >= 18, "after {calls}");
            assert!(rt;
                reopened(&mut disk.crash(torn)) == Ok(AFTER),
                "after {calls}"
            );
        }
    }
    Ok(())
}

// The calls of a commit of so many images, with five that look whether the disk is idle.
fn calls_of(alloc: Global, count: u64) -> Result<u64, Failed>
    requires some { 1 ≤ count }
    requires few { count < 2 ^ 32 }
{
    let (mut disk, _) = stopped(alloc, u64::MAX);
    let before = disk.calls();
    commit_row(alloc, &mut disk, 3, count)?;
    Ok(disk.calls().saturating_sub(before))
}

#[test]
fn a_commit_writes_each_image_twice(rt: HostRuntime) -> Result<(), Fail> {
    // Each image twice, a head for each 500 images, the gate twice, and four syncs.
    assert_eq!(rt; calls_of(rt.alloc(), 3)?, 5 + 2 * 3 + 1 + 2 + 4);
    assert_eq!(rt; calls_of(rt.alloc(), 501)?, 5 + 2 * 501 + 2 + 2 + 4);
    Ok(())
}

#[test]
fn an_open_gate_without_a_body_is_damaged(rt: HostRuntime) -> Result<(), Fail> {
    let mut gate = [0; 4096];
    gate[0] = 1;
    let pages = [gate, SUPERBLOCK, META].to_vec(rt.alloc())?;
    let journal = [gate].to_vec(rt.alloc())?;
    let mut disk = MemDisk::holding(rt.alloc(), pages, journal);
    assert!(rt; reopened(&mut disk) == Err(JournalFault::Damaged(1)));
    Ok(())
}

#[test]
fn images_come_in_order(rt: HostRuntime) -> Result<(), Fail> {
    let mut images = Images::new(rt.alloc());
    for (page, byte) in [(7, 7), (3, 1), (5, 5), (3, 3)] {
        assert_eq!(rt; images.put(page, &[byte; 4096]), Ok(()));
    }
    let mut order = images.in_order();
    for page in [3, 5, 7] {
        assert_eq!(rt; order.next(), Some((u64::from(page), &[page; 4096])));
    }
    assert_eq!(rt; order.next(), None);
    Ok(())
}

#[test]
fn laws_do_nothing(_: HostRuntime) -> Result<(), Fail> {
    settling_laws();
    Ok(())
}
