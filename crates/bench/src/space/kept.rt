//! What a space keeps on a disk in memory.

use crate::space::commits::{commit_again, commit_new, count_got};
use crate::space::made::{make, open};
use anyhow::Result;
use page_disk::PlainDisk;
use page_space::Space;
use std::alloc::Global;

// A space with twenty pages that were committed twice, opened anew.
fn reopened(alloc: Global, pages: &mut Vec<u64>) -> Option<Space<PlainDisk>> {
    let space = make(alloc, PlainDisk::blank(alloc))?;
    let space = commit_new(space, pages, 20)?;
    let space = commit_again(space, pages.as_slice(), 2)?;
    open(alloc, space.into_disk())
}

/// Prints how many pages of a commit are found after the space was opened anew.
pub fn count_kept(rt: &HostRuntime) -> Result<()> {
    let alloc = rt.alloc();
    let mut pages = Vec::new(alloc);
    let Some(mut space) = reopened(alloc, &mut pages) else {
        println!(rt; "no space")?;
        return Ok(());
    };
    let got = count_got(&mut space, pages.as_slice());
    let version = space.meta().version;
    let _disk = space.into_disk();
    println!(rt; "{got} of {} pages at version {version}", pages.len())?;
    Ok(())
}
