//! Derivations to disks that hold spans of no version, made by hand.
ghost use Rattle.bw_types.specs.Fits.{IsInRange};

use crate::spans::{LINE, asked, two_versions};
use crate::stopped::pages_on;
use crate::stored::made;
use arrayvec::ArrayVec;
use bw_types::{Params, Tree};
use dom_index::PointList;
use page_disk::MemDisk;
use page_layout::{FreePage, JournalHead, Meta, Spelled, Super};
use page_space::Space;
use ports::{Page, blank_page};
use span_planes::{Derived, Spans, derive};
use std::alloc::{AllocError, Global};
use std::test::Fail;

// The page that spells the value, or one of zeros where it keeps no rules.
fn page_of<T: Spelled>(value: &T) -> Page {
    let mut page = blank_page();
    if value.keeps_rules() {
        value.write(&mut page);
    }
    page
}

fn gate(byte: u8) -> Page {
    let mut page = blank_page();
    page[0] = byte;
    page
}

fn free(next: u64) -> Page {
    page_of(&FreePage { next })
}

// The meta page of spans of no version on a line, with the earlier form of the table.
fn meta_page(version: u32, allotted: u64, free: u64) -> Page {
    let mut roots = ArrayVec::new();
    roots.push(Tree::default());
    roots.push(Tree::default());
    roots.push(Tree::default());
    roots.push(Tree::default());
    page_of(&Meta {
        lives: 0,
        version,
        events: 0,
        rows: 0,
        allotted,
        free,
        mass: 0,
        table: Tree::default(),
        roots,
    })
}

// A disk with this meta page, three pages behind it, and this journal.
fn holding(
    alloc: Global,
    meta: Page,
    behind: &[Page; 3],
    journal: &[Page],
) -> Result<MemDisk, AllocError> {
    let without = Params {
        degree: None,
        ..LINE
    };
    let first = page_of(&Super { params: without });
    let pages = [gate(1), first, meta, behind[0], behind[1], behind[2]];
    Ok(MemDisk::holding(
        alloc,
        Vec::from_slice(alloc, &pages)?,
        Vec::from_slice(alloc, journal)?,
    ))
}

// An open journal with one image.
fn open_journal(alloc: Global, home: u64, image: Page) -> Result<Vec<Page>, AllocError> {
    let mut homes = ArrayVec::new();
    let _ = homes.try_push(home);
    let head = page_of(&JournalHead { more: false, homes });
    Vec::from_slice(alloc, &[gate(1), head, image])
}

// How many pages a disk has given out, and the first free one.
fn given_out(alloc: Global, disk: MemDisk) -> Option<(u64, u64)> {
    let space = Space::open_on(alloc, disk).ok()?;
    Some((space.meta().allotted, space.meta().free))
}

// Derives two versions to the disk, and what was given out then, if the answers are right.
fn taken(alloc: Global, second: MemDisk) -> Result<Option<(u64, u64)>, Fail> {
    let Some(mut house) = two_versions(alloc)? else {
        return Ok(None);
    };
    let second = match derive(alloc, &mut house, second) {
        Derived::Done { second, version: 2 } => second,
        _ => return Ok(None),
    };
    match Spans::<MemDisk, PointList>::open_on(alloc, second) {
        Ok(mut spans) => {
            let right = asked(&mut spans, 5, 5, 1, 2) == Some(Ok(24));
            let given = given_out(alloc, spans.into_disk());
            Ok(if right { given } else { None })
        }
        Err(_) => Ok(None),
    }
}

// Whether the disk is told to be there, and then has the same pages.
fn stays(alloc: Global, params: &Params, mut second: MemDisk) -> Result<bool, Fail>
    requires { IsInRange params.now }
{
    let before = pages_on(alloc, &mut second)?;
    let mut house = made(alloc, params)?;
    match derive(alloc, &mut house, second) {
        Derived::AlreadyThere(mut second) => Ok(pages_on(alloc, &mut second)? == before),
        _ => Ok(false),
    }
}

#[test]
fn free_pages_are_used_again(rt: HostRuntime) -> Result<(), Fail> {
    let alloc = rt.alloc();
    let new = taken(alloc, MemDisk::blank(alloc))?;
    assert!(rt; new.is_some_and(|given| given.0 > 6 && given.1 == 0));
    // Pages 4, 5 and 3 are free: as many are given out in the end as where new spans were made.
    let chain = [free(0), free(5), free(3)];
    let second = holding(alloc, meta_page(0, 6, 4), &chain, &[gate(0)])?;
    assert!(rt; taken(alloc, second)? == new);
    // The same where an open journal brings the meta page.
    let journal = open_journal(alloc, 2, meta_page(0, 6, 4))?;
    let second = holding(alloc, meta_page(7, 6, 0), &chain, journal.as_slice())?;
    assert!(rt; taken(alloc, second)? == new);
    Ok(())
}

#[test]
fn other_disks_are_no_place_for_spans(rt: HostRuntime) -> Result<(), Fail> {
    let alloc = rt.alloc();
    let chain = [free(0), free(5), free(3)];
    // Other params, a version, and a page that names itself, also in an open journal.
    let other = Params { events: 7, ..LINE };
    let second = holding(alloc, meta_page(0, 6, 4), &chain, &[gate(0)])?;
    assert!(rt; stays(alloc, &other, second)?);
    let second = holding(alloc, meta_page(7, 6, 4), &chain, &[gate(0)])?;
    assert!(rt; stays(alloc, &LINE, second)?);
    let round = [free(0), free(5), free(5)];
    let second = holding(alloc, meta_page(0, 6, 4), &round, &[gate(0)])?;
    assert!(rt; stays(alloc, &LINE, second)?);
    let journal = open_journal(alloc, 5, free(5))?;
    let second = holding(alloc, meta_page(0, 6, 4), &chain, journal.as_slice())?;
    assert!(rt; stays(alloc, &LINE, second)?);
    Ok(())
}

#[test]
fn no_version_changes_nothing(rt: HostRuntime) -> Result<(), Fail> {
    let alloc = rt.alloc();
    let chain = [free(0), free(5), free(3)];
    let mut second = holding(alloc, meta_page(0, 6, 4), &chain, &[gate(0)])?;
    let before = pages_on(alloc, &mut second)?;
    let mut house = made(alloc, &LINE)?;
    match derive(alloc, &mut house, second) {
        Derived::Done {
            mut second,
            version,
        } => {
            assert_eq!(rt; version, 0);
            assert!(rt; pages_on(alloc, &mut second)? == before);
        }
        _ => assert!(rt; false),
    }
    Ok(())
}
