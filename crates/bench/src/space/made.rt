//! A new space.
ghost use Rattle.bw_types.specs.Fits.{IsInRange};
ghost use Rattle.page_layout.specs.Meta.{IsMeta};
ghost use Rattle.page_space.specs.MetaSet.{FitsBesideCounts};

use arrayvec::ArrayVec;
use bw_types::{Params, Tree};
use page_disk::Disk;
use page_layout::{Meta, Spelled, Super};
use page_space::Space;
use ports::blank_page;
use redo_journal::{Gate, create, ready};
use std::alloc::Global;

fn params() -> Params
    ensures { IsInRange result }
{
    Params {
        dims: 1,
        degree: None,
        events: Params::MOST_EVENTS,
        pages: Params::MOST_PAGES,
        origin: 0,
    }
}

/// A meta page of this version; a stage sets the pages given out and the free ones itself.
pub fn meta_of(version: u32) -> Meta
    ensures rules { IsMeta result }
    ensures fits { FitsBesideCounts result }
{
    Meta {
        lives: 1,
        version,
        events: 0,
        rows: 0,
        allotted: 3,
        free: 0,
        mass: 0,
        table: Tree::default(),
        roots: ArrayVec::new(),
    }
}

// Makes the warehouse's first three pages on an empty disk, and answers whether that was done.
fn is_created<D: Disk>(disk: &mut D) -> bool {
    let mut superblock = blank_page();
    let mut meta = blank_page();
    Super { params: params() }.write(&mut superblock);
    meta_of(0).write(&mut meta);
    match ready(disk) {
        Ok(Gate::Blank) => create(disk, &superblock, &meta).is_ok(),
        _ => false,
    }
}

/// Opens the space on a disk; none where it cannot be opened.
pub fn open<D: Disk + Drop>(alloc: Global, disk: D) -> Option<Space<D>> {
    match Space::open_on(alloc, disk) {
        Ok(space) => Some(space),
        Err(_) => None,
    }
}

/// Makes a space on an empty disk; none where that fails.
pub fn make<D: Disk + Drop>(alloc: Global, mut disk: D) -> Option<Space<D>> {
    if is_created(&mut disk) {
        open(alloc, disk)
    } else {
        None
    }
}
