//! Additions where a multiversion tree has no more to give: counts, places of the chain, and levels.
ghost use Rattle.std.specs.Prelude.{◌≤◌};

use crate::broken::{noise, tree_of};
use bw_types::Tree;
use mvsb_tree::mv_add;
use ports::{MemStage, Page, Stage, StageFault, blank_page};
use std::test::Fail;

// Puts a number of so many bytes at a byte of the page, its high byte first.
fn put_number(bytes: &mut Page, at: usize, size: usize, number: u64)
    requires size { size ≤ 8 }
    requires room { at ≤ 4088 }
{
    let parts = number.to_be_bytes();
    for index in 0..size {
        bytes[at + index] = parts[8 - size + index];
    }
}

// A node with entries 10 keys apart that start at version 1, of which so many are alive; the others were closed at version 2.
pub(crate) fn node(
    level: u8,
    place: u32,
    before: u64,
    child: u64,
    entries: usize,
    alive: usize,
) -> Page
    requires { entries ≤ 96 }
{
    let mut bytes = blank_page();
    bytes[1] = level;
    put_number(&mut bytes, 2, 2, entries as u64);
    put_number(&mut bytes, 4, 4, u64::from(place));
    put_number(&mut bytes, 8, 8, before);
    for index in 0..entries {
        let at = 16 + 40 * index;
        let end = if index < alive { u32::MAX } else { 2 };
        put_number(&mut bytes, at, 8, 10 * index as u64);
        put_number(&mut bytes, at + 8, 4, 1);
        put_number(&mut bytes, at + 12, 4, u64::from(end));
        put_number(&mut bytes, at + 24, 8, 1);
        put_number(&mut bytes, at + 32, 8, child);
    }
    bytes
}

// A page of its own for these bytes, which is one of a multiversion tree.
pub(crate) fn page_of(stage: &mut MemStage, bytes: &Page) -> Result<u64, StageFault> {
    let page = stage.allot()?;
    let mut bytes = *bytes;
    bytes[0] = 3;
    stage.put(page, &bytes)?;
    Ok(page)
}

#[test]
fn a_tree_that_counts_too_many(rt: HostRuntime) -> Result<(), Fail> {
    let mut stage = MemStage::new(rt.alloc(), 10);
    let page = page_of(&mut stage, &node(1, 1, 0, 0, 1, 1))?;
    let mut tree = tree_of(&mut stage, page)?;
    tree.count = 1 << 31;
    let root = tree.root;
    assert_eq!(rt;
        mv_add(&mut stage, &mut tree, 5, 3, 1),
        Err(StageFault::Damaged(root))
    );
    Ok(())
}

#[test]
fn a_directory_that_counts_too_many(rt: HostRuntime) -> Result<(), Fail> {
    let mut stage = MemStage::new(rt.alloc(), 10);
    let room = page_of(&mut stage, &node(1, 1, 0, 0, 95, 1))?;
    let mut tree = tree_of(&mut stage, room)?;
    tree.changes = 1 << 31;
    let root = tree.root;
    // The root stays, so the directory is not asked.
    assert_eq!(rt; mv_add(&mut stage, &mut tree, 5, 3, 1), Ok(()));
    assert_eq!(rt; tree.changes, 1 << 31);
    assert_eq!(rt;
        mv_add(&mut stage, &mut tree, 7, 3, 1),
        Err(StageFault::Damaged(root))
    );
    Ok(())
}

#[test]
fn the_last_place_of_the_chain(rt: HostRuntime) -> Result<(), Fail> {
    let mut stage = MemStage::new(rt.alloc(), 10);
    let page = page_of(&mut stage, &node(1, u32::MAX, 9, 0, 95, 10))?;
    let mut tree = tree_of(&mut stage, page)?;
    // No page is needed; then one is.
    assert_eq!(rt; mv_add(&mut stage, &mut tree, 5, 3, 1), Ok(()));
    assert_eq!(rt;
        mv_add(&mut stage, &mut tree, 7, 3, 1),
        Err(StageFault::Damaged(page))
    );
    Ok(())
}

#[test]
fn a_chain_that_ends_in_noise(rt: HostRuntime) -> Result<(), Fail> {
    let mut stage = MemStage::new(rt.alloc(), 10);
    let page = page_of(&mut stage, &node(1, 1, 0, 0, 95, 10))?;
    let mut tree = tree_of(&mut stage, page)?;
    let last = noise(&mut stage)?;
    tree.last = last;
    // No page is needed; then one is.
    assert_eq!(rt; mv_add(&mut stage, &mut tree, 5, 3, 1), Ok(()));
    assert_eq!(rt;
        mv_add(&mut stage, &mut tree, 7, 3, 1),
        Err(StageFault::Damaged(last))
    );
    Ok(())
}

#[test]
fn one_place_for_two_pages(rt: HostRuntime) -> Result<(), Fail> {
    let mut stage = MemStage::new(rt.alloc(), 10);
    let page = page_of(&mut stage, &node(1, u32::MAX - 1, 9, 0, 96, 96))?;
    let mut tree = tree_of(&mut stage, page)?;
    let next = stage.allotted();
    assert_eq!(rt;
        mv_add(&mut stage, &mut tree, 5, 3, 1),
        Err(StageFault::Damaged(next))
    );
    Ok(())
}

#[test]
fn one_place_for_a_half_and_a_root(rt: HostRuntime) -> Result<(), Fail> {
    let mut stage = MemStage::new(rt.alloc(), 10);
    let page = page_of(&mut stage, &node(1, u32::MAX - 1, 9, 0, 96, 96))?;
    let mut tree = tree_of(&mut stage, page)?;
    let next = stage.allotted();
    // All entries start at the version: the first half stays, the second takes the last place, and a new root has none.
    assert_eq!(rt;
        mv_add(&mut stage, &mut tree, 5, 1, 1),
        Err(StageFault::Damaged(next))
    );
    Ok(())
}

#[test]
fn two_entries_of_one_low(rt: HostRuntime) -> Result<(), Fail> {
    let mut stage = MemStage::new(rt.alloc(), 10);
    let mut twice = node(1, 1, 0, 0, 2, 2);
    put_number(&mut twice, 56, 8, 0);
    put_number(&mut twice, 64, 4, 2);
    let page = page_of(&mut stage, &twice)?;
    let mut tree = tree_of(&mut stage, page)?;
    assert_eq!(rt;
        mv_add(&mut stage, &mut tree, 5, 3, 1),
        Err(StageFault::Damaged(page))
    );
    Ok(())
}

// Index nodes of one entry each over a leaf, and a root of level 16 of 96 entries above them, of which so many are alive.
fn tallest(stage: &mut MemStage, alive: usize) -> Result<Tree, StageFault> {
    let mut below = page_of(stage, &node(1, 1, 0, 0, 1, 1))?;
    for level in 2..16 {
        below = page_of(stage, &node(level, u32::from(level), below, below, 1, 1))?;
    }
    let root = page_of(stage, &node(16, 16, below, below, 96, alive))?;
    tree_of(stage, root)
}

#[test]
fn a_root_of_level_16(rt: HostRuntime) -> Result<(), Fail> {
    let mut stage = MemStage::new(rt.alloc(), 40);
    // Two entries are alive: one page takes its part.
    let mut low = tallest(&mut stage, 2)?;
    assert_eq!(rt; mv_add(&mut stage, &mut low, 5, 3, 1), Ok(()));
    assert_eq!(rt; low.changes, 2);
    let mut full = tallest(&mut stage, 96)?;
    let root = full.root;
    assert_eq!(rt;
        mv_add(&mut stage, &mut full, 5, 3, 1),
        Err(StageFault::Damaged(root))
    );
    Ok(())
}
