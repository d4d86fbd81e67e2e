//! Disks that are read and then opened, on a recording disk.
ghost use Rattle.std.specs.Prelude.{◌≡◌, ◌≤◌, IsTrue, length};
ghost use Rattle.page_disk.specs.MemDisk.{image_of};
ghost use Rattle.settled_pages.specs.Shown.{Finds, pages_shown};

use crate::samples::{SEVENS, first_meta};
use arrayvec::ArrayVec;
use bw_types::Params;
use page_disk::{Area, Disk, Failed, MemDisk, Torn};
use page_layout::{FreePage, JournalHead, Meta, Spelled, Super};
use page_space::{OpenFault, Space};
use ports::{Page, PageFault, Pages, Stage, StageFault, blank_page};
use redo_journal::create;
use settled_pages::{SettleFault, SettledPages, SettledSpace};
use std::alloc::{AllocError, Global};
use std::test::Fail;

const PARAMS: Params = Params {
    dims: 2,
    degree: Some(1),
    events: 1000,
    pages: 6,
    origin: 0,
};

const KINDS: [Torn; 3] = [Torn::Lost, Torn::Landed, Torn::Filled(255)];

fn meta_of(allotted: u64, free: u64) -> Meta {
    Meta {
        allotted,
        free,
        ..first_meta()
    }
}

// The page that spells the value, or one of zeros where it keeps no rules.
fn page_of<T: Spelled>(value: &T) -> Page {
    let mut page = blank_page();
    if value.keeps_rules() {
        value.write(&mut page);
    }
    page
}

fn gate(byte: u8) -> Page {
    let mut page = blank_page();
    page[0] = byte;
    page
}

fn head(more: bool, homes: &[u64]) -> Page {
    let mut named = ArrayVec::new();
    for home in homes {
        let _ = named.try_push(*home);
    }
    page_of(&JournalHead { more, homes: named })
}

fn super_page() -> Page {
    page_of(&Super { params: PARAMS })
}

// A disk with these pages behind an open creation gate and with this journal.
fn holding(alloc: Global, pages: &[Page], journal: &[Page]) -> Result<MemDisk, AllocError> {
    Ok(MemDisk::holding(alloc, pages.to_vec(alloc)?, journal.to_vec(alloc)?))
}

fn page_on(
    settled: &SettledPages,
    disk: &mut MemDisk,
    page: u64,
) -> Result<Option<Page>, SettleFault>
    requires { Finds settled.now (image_of disk.old) }
    ensures { image_of disk.new ≡ image_of disk.old }
{
    let mut buf = blank_page();
    match settled.get(disk, page, &mut buf) {
        Ok(()) => Ok(Some(buf)),
        Err(PageFault::Damaged(_)) => Ok(None),
        Err(PageFault::Disk) => Err(SettleFault::Disk),
    }
}

// Pages 1 to 5, as they are found with no write.
fn found(alloc: Global, disk: &mut MemDisk) -> Result<[Option<Page>; 5], SettleFault> {
    let settled = SettledPages::find(alloc, disk)?;
    Ok([
        page_on(&settled, disk, 1)?,
        page_on(&settled, disk, 2)?,
        page_on(&settled, disk, 3)?,
        page_on(&settled, disk, 4)?,
        page_on(&settled, disk, 5)?,
    ])
}

fn read(disk: &mut MemDisk, page: u64) -> Result<Option<Page>, Failed> {
    let mut buf = blank_page();
    let there = disk.read(Area::Pages, page, &mut buf)?;
    Ok(there.then_some(buf))
}

// The disk once it was opened, which replays its journal.
fn replayed(alloc: Global, disk: MemDisk) -> Result<MemDisk, OpenFault> {
    match Space::open_on(alloc, disk) {
        Ok(space) => Ok(space.into_disk()),
        Err(refused) => Err(refused.fault),
    }
}

// Pages 1 to 5 after that.
fn opened(alloc: Global, disk: MemDisk) -> Result<[Option<Page>; 5], Fail> {
    let mut disk = replayed(alloc, disk)?;
    Ok([
        read(&mut disk, 1)?,
        read(&mut disk, 2)?,
        read(&mut disk, 3)?,
        read(&mut disk, 4)?,
        read(&mut disk, 5)?,
    ])
}

#[test]
fn an_open_journal_is_read_as_it_is_replayed(rt: HostRuntime) -> Result<(), Fail> {
    let meta = page_of(&meta_of(5, 0));
    let pages = [gate(1), super_page(), blank_page(), SEVENS];
    let journal = [
        gate(1),
        head(true, &[2, 3]),
        meta,
        gate(3),
        head(false, &[4, 5]),
        gate(4),
        gate(5),
    ];
    let mut disk = holding(rt.alloc(), &pages, &journal)?;
    let looked = found(rt.alloc(), &mut disk)?;
    let wanted = [super_page(), meta, gate(3), gate(4), gate(5)];
    assert!(rt; looked == wanted.map(|page| Some(page)));
    assert!(rt; opened(rt.alloc(), disk)? == looked);
    Ok(())
}

fn fault_of(alloc: Global, disk: &mut MemDisk) -> Option<SettleFault> {
    SettledPages::find(alloc, disk).err()
}

#[test]
fn a_disk_that_stands_for_nothing_is_refused(rt: HostRuntime) -> Result<(), Fail> {
    let empty = fault_of(rt.alloc(), &mut MemDisk::blank(rt.alloc()));
    assert_eq!(rt; empty, Some(SettleFault::Empty));
    let pages = [gate(1), super_page(), page_of(&meta_of(3, 0))];
    let mut bare = holding(rt.alloc(), &pages, &[])?;
    let none = fault_of(rt.alloc(), &mut bare);
    assert_eq!(rt; none, Some(SettleFault::BadJournal(0)));
    let mut hollow = holding(rt.alloc(), &pages, &[gate(1)])?;
    let first = fault_of(rt.alloc(), &mut hollow);
    assert_eq!(rt; first, Some(SettleFault::BadJournal(1)));
    let journal = [gate(1), head(true, &[3]), SEVENS, head(false, &[3]), SEVENS];
    let mut falling = holding(rt.alloc(), &pages, &journal)?;
    let second = fault_of(rt.alloc(), &mut falling);
    assert_eq!(rt; second, Some(SettleFault::BadJournal(3)));
    falling.stop_after(0);
    let stopped = fault_of(rt.alloc(), &mut falling);
    assert_eq!(rt; stopped, Some(SettleFault::Disk));
    Ok(())
}

fn got<P: Pages>(pages: &mut P, page: u64) -> Option<Page>
    ensures { P.base pages.new ≡ P.base pages.old }
{
    let mut buf = blank_page();
    pages.get(page, &mut buf).ok().map(|_| buf)
}

// Pages 2 to 5 in the map of the space on the disk, if it holds one.
fn in_use(alloc: Global, disk: &mut MemDisk) -> Result<Option<[Option<Page>; 4]>, SettleFault> {
    let settled = SettledPages::find(alloc, disk)?;
    match settled.roots(disk)? {
        Some((params, meta)) => {
            let mut space = SettledSpace::new(disk, &settled, params, &meta);
            Ok(Some([
                got(&mut space, 2),
                got(&mut space, 3),
                got(&mut space, 4),
                got(&mut space, 5),
            ]))
        }
        None => Ok(None),
    }
}

#[test]
fn the_pages_in_use_are_read(rt: HostRuntime) -> Result<(), Fail> {
    let mut disk = MemDisk::blank(rt.alloc());
    let meta = page_of(&meta_of(3, 0));
    create(&mut disk, &super_page(), &meta)?;
    assert!(rt; in_use(rt.alloc(), &mut disk)? == Some([None; 4]));
    let pages = [
        gate(1),
        super_page(),
        page_of(&meta_of(5, 4)),
        SEVENS,
        page_of(&FreePage { next: 0 }),
        SEVENS,
    ];
    let mut disk = holding(rt.alloc(), &pages, &[gate(0)])?;
    let wanted = [None, Some(SEVENS), None, None];
    assert!(rt; in_use(rt.alloc(), &mut disk)? == Some(wanted));
    Ok(())
}

// Whether these pages are read as a space.
fn is_space(alloc: Global, pages: &[Page]) -> Result<bool, Fail> {
    let mut disk = holding(alloc, pages, &[gate(0)])?;
    Ok(in_use(alloc, &mut disk)?.is_some())
}

#[test]
fn pages_that_are_no_space_are_told(rt: HostRuntime) -> Result<(), Fail> {
    let (first, meta) = (super_page(), page_of(&meta_of(4, 0)));
    assert!(rt; is_space(rt.alloc(), &[gate(1), first, meta, SEVENS])?);
    assert!(rt; !is_space(rt.alloc(), &[gate(1), SEVENS, meta, SEVENS])?);
    assert!(rt; !is_space(rt.alloc(), &[gate(1), first, SEVENS, SEVENS])?);
    // A page too few, and as many as no params allow.
    assert!(rt; !is_space(rt.alloc(), &[gate(1), first, meta])?);
    let seven = page_of(&meta_of(7, 0));
    let pages = [gate(1), first, seven, SEVENS, SEVENS, SEVENS, SEVENS];
    assert!(rt; !is_space(rt.alloc(), &pages)?);
    Ok(())
}

// Puts a page more, and commits.
fn with_page(space: Space<MemDisk>) -> Result<MemDisk, StageFault> {
    let mut staged = space.begin();
    let page = staged.allot()?;
    staged.put(page, &SEVENS)?;
    match staged.set_meta(&first_meta()) {
        Ok(()) => match staged.commit() {
            Ok(space) => Ok(space.into_disk()),
            Err(disk) => Ok(disk),
        },
        Err(_) => Err(StageFault::NoMemory),
    }
}

// The disk of a commit that stopped after so many calls.
fn stopped(alloc: Global, calls: u64) -> Result<MemDisk, Fail> {
    let mut disk = MemDisk::blank(alloc);
    create(&mut disk, &super_page(), &page_of(&first_meta()))?;
    disk.stop_after(calls);
    match Space::open_on(alloc, disk) {
        Ok(space) => Ok(with_page(space)?),
        Err(refused) => Ok(refused.disk),
    }
}

#[test]
fn a_stopped_commit_is_read_as_it_is_replayed(rt: HostRuntime) -> Result<(), Fail> {
    let (mut before, mut after) = (0, 0);
    for calls in 0..24u64 {
        for torn in KINDS {
            let mut disk = stopped(rt.alloc(), calls)?.crash(torn);
            let looked = found(rt.alloc(), &mut disk)?;
            if looked[2] == Some(SEVENS) {
                after |= 1u64 << calls;
            } else {
                before |= 1u64 << calls;
            }
            assert!(rt; opened(rt.alloc(), disk)? == looked, "after {calls}");
        }
    }
    assert!(rt; before > 0 && after > before);
    Ok(())
}

// A generic call through the space leaves the disk that was lent as it was.
fn read_through<D: Disk>(
    settled: &SettledPages,
    disk: &mut D,
    params: Params,
    meta: &Meta,
) -> Option<Page>
    requires finds { IsTrue (D.tells disk.old) → Finds settled.now (D.image disk.old) }
    requires there { IsTrue (D.tells disk.old) → meta.now.allotted ≤ length (pages_shown (D.image disk.old) settled.now) }
    ensures image { D.image disk.new ≡ D.image disk.old }
    ensures moments { D.moments disk.new ≡ D.moments disk.old }
{
    let mut space = SettledSpace::new(disk, settled, params, meta);
    got(&mut space, 3)
}

#[test]
fn a_generic_call_reads_through_a_space(rt: HostRuntime) -> Result<(), Fail> {
    let meta = page_of(&meta_of(4, 0));
    let pages = [gate(1), super_page(), meta, SEVENS];
    let mut disk = holding(rt.alloc(), &pages, &[gate(0)])?;
    let settled = SettledPages::find(rt.alloc(), &mut disk)?;
    let read = match settled.roots(&mut disk)? {
        Some((params, meta)) => read_through(&settled, &mut disk, params, &meta),
        None => None,
    };
    assert!(rt; read == Some(SEVENS));
    Ok(())
}

// The free pages of a space that has these four pages behind its meta page, of which page 4 is the first.
fn free_of(alloc: Global, behind: &[Page; 4]) -> Result<Option<Vec<u64>>, Fail> {
    let meta = page_of(&meta_of(6, 4));
    let pages = [
        gate(1),
        super_page(),
        meta,
        behind[0],
        behind[1],
        behind[2],
        behind[3],
    ];
    let mut disk = holding(alloc, &pages, &[gate(0)])?;
    let settled = SettledPages::find(alloc, &mut disk)?;
    match settled.roots(&mut disk)? {
        Some((params, meta)) => {
            let mut space = SettledSpace::new(&mut disk, &settled, params, &meta);
            Ok(space.free_pages(alloc)?)
        }
        None => Ok(None),
    }
}

#[test]
fn free_pages_are_walked_to_their_end(rt: HostRuntime) -> Result<(), Fail> {
    let free = |next| page_of(&FreePage { next });
    let whole = [free(0), free(5), free(3), SEVENS];
    let found = free_of(rt.alloc(), &whole)?;
    assert!(rt; found.is_some_and(|pages| pages.as_slice() == [4, 5, 3].as_slice()));
    // A cycle, a page in use, a page that was never given out, and a page that is no spelling.
    let round = [free(5), free(5), free(3), SEVENS];
    assert!(rt; free_of(rt.alloc(), &round)?.is_none());
    let used = [SEVENS, free(5), free(3), SEVENS];
    assert!(rt; free_of(rt.alloc(), &used)?.is_none());
    let past = [free(0), free(6), SEVENS, free(0)];
    assert!(rt; free_of(rt.alloc(), &past)?.is_none());
    assert!(rt; free_of(rt.alloc(), &[gate(9); 4])?.is_some());
    assert!(rt; free_of(rt.alloc(), &[[9; 4096]; 4])?.is_none());
    Ok(())
}
