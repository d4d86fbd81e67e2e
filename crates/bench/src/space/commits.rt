//! Commits of some pages.

use crate::space::made::meta_of;
use page_disk::Disk;
use page_space::{Space, Staged};
use ports::{Pages, Stage, StageFault, blank_page};

// Gives out so many pages, and puts their numbers into the list.
fn allot_all<D: Disk>(
    stage: &mut Staged<D>,
    pages: &mut Vec<u64>,
    count: usize,
) -> Result<(), StageFault> {
    for _ in 0..count {
        let page = stage.allot()?;
        pages.push(page).map_err(|_| StageFault::NoMemory)?;
    }
    Ok(())
}

// Reads a page and overwrites it.
fn put_again<S: Stage>(stage: &mut S, page: u64) -> Result<(), StageFault> {
    let mut buf = blank_page();
    stage.get(page, &mut buf)?;
    stage.put(page, &[7; 4096])
}

fn put_all<S: Stage>(stage: &mut S, pages: &[u64]) -> Result<(), StageFault> {
    for page in pages {
        put_again(stage, *page)?;
    }
    Ok(())
}

// Sets the meta page of this version and commits; none where that fails.
fn commit<D: Disk + Drop>(mut stage: Staged<D>, version: u32) -> Option<Space<D>> {
    match stage.set_meta(&meta_of(version)) {
        Ok(()) => match stage.commit() {
            Ok(space) => Some(space),
            Err(_disk) => None,
        },
        Err(_) => {
            let _disk = stage.abandon().into_disk();
            None
        }
    }
}

/// Commits so many new pages, whose numbers are put into the list.
pub fn commit_new<D: Disk + Drop>(
    space: Space<D>,
    pages: &mut Vec<u64>,
    count: usize,
) -> Option<Space<D>> {
    let mut stage = space.begin();
    if allot_all(&mut stage, pages, count).is_err() {
        let _disk = stage.abandon().into_disk();
        return None;
    }
    commit(stage, 1)
}

/// Commits these pages, each read and overwritten.
pub fn commit_again<D: Disk + Drop>(
    space: Space<D>,
    pages: &[u64],
    version: u32,
) -> Option<Space<D>> {
    let mut stage = space.begin();
    if put_all(&mut stage, pages).is_err() {
        let _disk = stage.abandon().into_disk();
        return None;
    }
    commit(stage, version)
}

/// How many of these pages are got, all sevens.
pub fn count_got<D: Disk>(space: &mut Space<D>, pages: &[u64]) -> usize {
    let mut buf = blank_page();
    let mut count = 0_usize;
    for page in pages {
        if space.get(*page, &mut buf).is_ok() && buf[4095] == 7 {
            count = count.saturating_add(1);
        }
    }
    count
}
