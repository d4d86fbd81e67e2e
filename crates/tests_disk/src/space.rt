//! Spaces on a recording disk, and a create and a commit that are stopped after each call.
ghost use Rattle.std.specs.Prelude.{◌≡◌, IfOk};
ghost use Rattle.page_space.specs.Shown.{IsMetaSet};

use crate::samples::{SEVENS, first_meta};
use bw_types::Params;
use page_disk::{Area, Disk, Failed, MemDisk, Torn};
use page_layout::{Spelled, Super};
use page_space::{
    OpenFault, OpenRefused, Space, Staged, chain_is_free, created_holds, held_opens, holds_one,
};
use ports::{Page, PageFault, Pages, Stage, StageFault, blank_page};
use redo_journal::create;
use std::alloc::Global;
use std::test::Fail;

const PARAMS: Params = Params {
    dims: 2,
    degree: Some(1),
    events: 1000,
    pages: 5,
    origin: 0,
};

const KINDS: [Torn; 5] = [
    Torn::Lost,
    Torn::Landed,
    Torn::Filled(0),
    Torn::Filled(1),
    Torn::Filled(255),
];

// A disk on which a space was made, which stopped after so many calls, and whether that was done.
fn made(alloc: Global, calls: u64) -> (MemDisk, bool) {
    let mut disk = MemDisk::blank(alloc);
    disk.stop_after(calls);
    let mut superblock = blank_page();
    Super { params: PARAMS }.write(&mut superblock);
    let mut meta = blank_page();
    first_meta().write(&mut meta);
    let done = create(&mut disk, &superblock, &meta).is_ok();
    disk.stop_after(u64::MAX);
    (disk, done)
}

fn opened(alloc: Global, disk: MemDisk) -> Result<Space<MemDisk>, OpenFault> {
    match Space::open_on(alloc, disk) {
        Ok(space) => Ok(space),
        Err(refused) => Err(refused.fault),
    }
}

fn got<P: Pages>(pages: &mut P, page: u64) -> Result<Page, PageFault> {
    let mut buf = blank_page();
    pages.get(page, &mut buf)?;
    Ok(buf)
}

// Sets the meta page, which ends the changes.
fn ended(mut staged: Staged<MemDisk>) -> Result<Staged<MemDisk>, StageFault>
    ensures { IfOk result (λ staged. IsMetaSet staged) }
{
    match staged.set_meta(&first_meta()) {
        Ok(()) => Ok(staged),
        Err(_) => Err(StageFault::NoMemory),
    }
}

// A stage on which one page more is full of sevens, and that page.
fn with_page(mut staged: Staged<MemDisk>) -> Result<(Staged<MemDisk>, u64), StageFault>
    ensures { IfOk result (λ found. IsMetaSet found.0) }
{
    let page = staged.allot()?;
    staged.put(page, &SEVENS)?;
    Ok((ended(staged)?, page))
}

// Frees a page that is there.
fn freed(mut staged: Staged<MemDisk>, page: u64) -> Result<Staged<MemDisk>, StageFault> {
    let mut buf = blank_page();
    match staged.get(page, &mut buf) {
        Ok(()) => staged.free(page)?,
        Err(_) => return Err(StageFault::Damaged(page)),
    }
    Ok(staged)
}

fn committed(staged: Staged<MemDisk>) -> Result<Space<MemDisk>, Failed>
    requires { IsMetaSet staged }
{
    match staged.commit() {
        Ok(space) => Ok(space),
        Err(_) => Err(Failed),
    }
}

#[test]
fn a_commit_is_found_again(rt: HostRuntime) -> Result<(), Fail> {
    let (disk, done) = made(rt.alloc(), u64::MAX);
    assert!(rt; done);
    let space = opened(rt.alloc(), disk)?;
    assert_eq!(rt; space.params(), PARAMS);
    let (staged, page) = with_page(space.begin())?;
    let space = committed(staged)?;
    let mut space = opened(rt.alloc(), space.into_disk())?;
    assert!(rt; got(&mut space, page) == Ok(SEVENS));
    let mut space = freed(space.begin(), page)?.abandon();
    assert!(rt; got(&mut space, page) == Ok(SEVENS));
    Ok(())
}

#[test]
fn a_freed_page_is_given_out_again(rt: HostRuntime) -> Result<(), Fail> {
    let space = opened(rt.alloc(), made(rt.alloc(), u64::MAX).0)?;
    let (staged, page) = with_page(space.begin())?;
    assert_eq!(rt; page, 3);
    let space = committed(staged)?;
    let mut space = committed(ended(freed(space.begin(), page)?)?)?;
    assert!(rt; got(&mut space, page) == Err(PageFault::Damaged(page)));
    assert_eq!(rt; (space.meta().allotted, space.meta().free), (4, 3));
    let mut staged = space.begin();
    assert_eq!(rt; staged.allot(), Ok(page));
    assert!(rt; got(&mut staged, page) == Ok(blank_page()));
    let space = committed(ended(staged)?)?;
    assert_eq!(rt; (space.meta().allotted, space.meta().free), (4, 0));
    Ok(())
}

#[test]
fn pages_are_given_out_up_to_the_limit(rt: HostRuntime) -> Result<(), Fail> {
    let space = opened(rt.alloc(), made(rt.alloc(), u64::MAX).0)?;
    let mut staged = space.begin();
    assert_eq!(rt; (staged.allot(), staged.allot()), (Ok(3), Ok(4)));
    assert_eq!(rt; staged.allot(), Err(StageFault::PageLimit(5)));
    Ok(())
}

// A disk with an open creation gate, a closed journal gate and nothing else.
fn hollow(alloc: Global) -> Result<MemDisk, Fail> {
    let mut gate = blank_page();
    gate[0] = 1;
    let pages = [gate, blank_page(), blank_page()].to_vec(alloc)?;
    let journal = [blank_page()].to_vec(alloc)?;
    Ok(MemDisk::holding(alloc, pages, journal))
}

#[test]
fn a_disk_that_is_no_space_is_refused(rt: HostRuntime) -> Result<(), Fail> {
    let empty = opened(rt.alloc(), MemDisk::blank(rt.alloc()));
    assert!(rt; empty.is_err_and(|fault| fault == OpenFault::Empty));
    let damaged = opened(rt.alloc(), hollow(rt.alloc())?);
    assert!(rt; damaged.is_err_and(|fault| fault == OpenFault::Damaged(1)));
    let (mut disk, _) = made(rt.alloc(), u64::MAX);
    let mut gate = blank_page();
    gate[0] = 1;
    disk.write(Area::Journal, 0, &gate)?;
    let bad = opened(rt.alloc(), disk);
    assert!(rt; bad.is_err_and(|fault| fault == OpenFault::BadJournal(1)));
    Ok(())
}

#[test]
fn a_stop_of_create_leaves_nothing_or_a_space(rt: HostRuntime) -> Result<(), Fail> {
    for calls in 0..14 {
        for torn in KINDS {
            let (disk, done) = made(rt.alloc(), calls);
            match opened(rt.alloc(), disk.crash(torn)) {
                Ok(space) => {
                    assert_eq!(rt; space.params(), PARAMS);
                    assert!(rt; *space.meta() == first_meta());
                }
                Err(fault) => assert!(rt; fault == OpenFault::Empty && !done, "after {calls}"),
            }
        }
    }
    Ok(())
}

// The disk of a commit of one page, which stopped after so many calls, and whether that was done.
fn stopped(alloc: Global, calls: u64) -> Result<(MemDisk, bool), Fail> {
    let (mut disk, _) = made(alloc, u64::MAX);
    disk.stop_after(calls);
    match Space::open_on(alloc, disk) {
        Ok(space) => {
            let (staged, _) = with_page(space.begin())?;
            match staged.commit() {
                Ok(space) => Ok((space.into_disk(), true)),
                Err(disk) => Ok((disk, false)),
            }
        }
        Err(refused) => Ok((refused.disk, false)),
    }
}

#[test]
fn a_stop_of_a_commit_leaves_all_or_nothing(rt: HostRuntime) -> Result<(), Fail> {
    let mut dones = 0;
    for calls in 0..32u64 {
        for torn in KINDS {
            let (disk, done) = stopped(rt.alloc(), calls)?;
            let mut space = opened(rt.alloc(), disk.crash(torn))?;
            let found = got(&mut space, 3);
            let whole = found == Ok(SEVENS) && space.meta().allotted == 4;
            let none = found == Err(PageFault::Damaged(3)) && space.meta().allotted == 3;
            assert!(rt; whole || (none && !done), "after {calls}");
            assert!(rt; !done || calls > 16, "after {calls}");
            dones |= done as u64;
        }
    }
    assert_eq!(rt; dones, 1);
    Ok(())
}

#[test]
fn laws_do_nothing(rt: HostRuntime) -> Result<(), Fail> {
    created_holds();
    holds_one();
    held_opens();
    chain_is_free();
    opened(rt.alloc(), made(rt.alloc(), u64::MAX).0)?.is_held();
    Ok(())
}
