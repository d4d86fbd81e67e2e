//! Additions to trees of cuts of which one call of the stage fails, and additions that meet the limit of pages.
use crate::samples::{add, built, point_at, row};
use bw_types::Tree;
use ports::{FailingStage, MemStage, Stage, StageFault};
use std::alloc::Global;
use std::test::Fail;

/// What the next point brings about, at 0 in each dimension.
#[derive(Clone, Copy)]
enum Due {
    /// The root is a leaf of 64 points, and is split.
    LeafSplit,
    /// The high side of the root has too few points, and all is made anew.
    MadeAnew,
    /// A border begins, and a leaf is split.
    BorderBegun,
    /// The point goes into borders.
    BordersGrow,
    /// The root has 64 leaves of 64 points: one of them is split, and the root too. A border begins.
    PageSplit,
}

/// A tree of the points of the numbers from the one to before the other added, at the coordinates by turns.
fn add_by_turns<S: Stage>(
    alloc: Global,
    stage: &mut S,
    three: bool,
    tree: &mut Tree,
    numbers: (u32, u32),
    turns: (u32, u32),
) -> Result<(), StageFault> {
    let mut turns = turns;
    for number in numbers.0..numbers.1 {
        add(alloc, stage, three, tree, &point_at(turns.0, number))?;
        turns = (turns.1, turns.0);
    }
    Ok(())
}

fn built_row<S: Stage>(
    alloc: Global,
    stage: &mut S,
    three: bool,
    count: u32,
) -> Result<Tree, StageFault> {
    let mut points = row(alloc, count).map_err(|_| StageFault::NoMemory)?;
    built(alloc, stage, three, points.as_mut_slice())
}

/// A tree whose next point brings this about.
fn tree_before<S: Stage>(
    alloc: Global,
    stage: &mut S,
    three: bool,
    due: Due,
) -> Result<Tree, StageFault> {
    let mut tree = Tree::default();
    match due {
        Due::LeafSplit => return built_row(alloc, stage, three, 64),
        Due::BordersGrow => return built_row(alloc, stage, three, 300),
        Due::PageSplit => return built_row(alloc, stage, three, 4096),
        Due::MadeAnew => {
            add_by_turns(alloc, stage, three, &mut tree, (0, 65), (5, 5))?;
            add_by_turns(alloc, stage, three, &mut tree, (65, 82), (0, 0))?;
        }
        Due::BorderBegun => {
            add_by_turns(alloc, stage, three, &mut tree, (0, 65), (5, 5))?;
            add_by_turns(alloc, stage, three, &mut tree, (65, 83), (0, 0))?;
            add_by_turns(alloc, stage, three, &mut tree, (83, 128), (0, 5))?;
        }
    }
    Ok(tree)
}

/// How many calls failed for want of memory, and how many for the disk.
type Failed = (u32, u32);

/// Lets each call of the addition fail in turn. None where it was not refused by that call, or changed the tree.
fn each_fails(alloc: Global, three: bool, due: Due) -> Result<Option<Failed>, StageFault> {
    let mut failed: Failed = (0, 0);
    for calls in 0..100000u64 {
        let mut stage = FailingStage::over(MemStage::new(alloc, 100000));
        let mut tree = tree_before(alloc, &mut stage, three, due)?;
        let before = tree;
        stage.calls_left = calls;
        let added = add(
            alloc,
            &mut stage,
            three,
            &mut tree,
            &point_at(0, before.count),
        );
        // None of so many calls failed.
        if stage.calls_left < calls {
            return Ok(if added == Ok(()) { Some(failed) } else { None });
        }
        let (wanting, broken) = failed;
        let refusal = if stage.faults == 0 {
            failed = (wanting.saturating_add(1), broken);
            StageFault::NoMemory
        } else {
            failed = (wanting, broken.saturating_add(1));
            StageFault::Disk
        };
        if tree != before || added != Err(refusal) {
            return Ok(None);
        }
    }
    Ok(None)
}

/// Whether so many pages are given out, and each call that gives one out and at least so many others fail.
fn fail(
    alloc: Global,
    three: bool,
    due: Due,
    allots: u32,
    others: u32,
) -> Result<bool, StageFault> {
    match each_fails(alloc, three, due)? {
        Some((wanting, broken)) => Ok(wanting == allots && broken >= others),
        None => Ok(false),
    }
}

// The leaf is got, got again and put; its high side and the root are put.
#[test]
fn each_call_of_a_leaf_split_fails(rt: HostRuntime) -> Result<(), Fail> {
    assert!(rt; fail(rt.alloc(), false, Due::LeafSplit, 2, 5)?);
    assert!(rt; fail(rt.alloc(), true, Due::LeafSplit, 2, 5)?);
    Ok(())
}

// Three pages are collected, freed, and made anew.
#[test]
fn each_call_of_making_anew_fails(rt: HostRuntime) -> Result<(), Fail> {
    assert!(rt; fail(rt.alloc(), false, Due::MadeAnew, 3, 10)?);
    assert!(rt; fail(rt.alloc(), true, Due::MadeAnew, 3, 10)?);
    Ok(())
}

// The border of one dimension has a directory and a leaf, and that of two a page of one cut and two leaves.
#[test]
fn each_call_of_a_border_fails(rt: HostRuntime) -> Result<(), Fail> {
    assert!(rt; fail(rt.alloc(), false, Due::BorderBegun, 3, 10)?);
    assert!(rt; fail(rt.alloc(), true, Due::BorderBegun, 4, 10)?);
    assert!(rt; fail(rt.alloc(), false, Due::BordersGrow, 0, 10)?);
    assert!(rt; fail(rt.alloc(), true, Due::BordersGrow, 0, 10)?);
    Ok(())
}

// A leaf, a page and a root are given out, and the directory and the leaf of a border that begins.
#[test]
fn each_call_of_a_page_split_fails(rt: HostRuntime) -> Result<(), Fail> {
    assert!(rt; fail(rt.alloc(), false, Due::PageSplit, 5, 10)?);
    Ok(())
}

// The pages that are given out before are the leaf of number 3, and the low and the high leaf and the root of numbers 3 to 5.
#[test]
fn additions_meet_the_limit(rt: HostRuntime) -> Result<(), Fail> {
    for three in [false, true] {
        for limit in 4..7u64 {
            let mut stage = MemStage::new(rt.alloc(), limit);
            let mut tree = tree_before(rt.alloc(), &mut stage, three, Due::LeafSplit)?;
            let before = tree;
            let added = add(rt.alloc(), &mut stage, three, &mut tree, &point_at(0, 64));
            if limit < 6 {
                assert_eq!(rt; added, Err(StageFault::PageLimit(limit)));
                assert_eq!(rt; tree, before);
            } else {
                assert_eq!(rt; added, Ok(()));
            }
        }
        let mut stage = MemStage::new(rt.alloc(), 3);
        let mut tree = Tree::default();
        let added = add(rt.alloc(), &mut stage, three, &mut tree, &point_at(0, 0));
        assert_eq!(rt; added, Err(StageFault::PageLimit(3)));
        assert_eq!(rt; tree, Tree::default());
    }
    Ok(())
}
