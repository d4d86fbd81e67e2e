//! Additions, values and frees of multiversion trees of which one call of the stage fails, and additions that meet the limit of pages.
ghost use Rattle.std.specs.Prelude.{◌≤◌};

use bw_types::Tree;
use mvsb_tree::{mv_add, mv_free, mv_value};
use ports::{FailingStage, MemStage, PageFault, StageFault};
use std::alloc::Global;
use std::test::Fail;

// A tree of one leaf, which the entry at key 0 and those of 95 keys fill.
fn full_leaf(
    alloc: Global,
    limit: u64,
    tree: &mut Tree,
) -> Result<FailingStage<MemStage>, StageFault>
    requires low { 3 ≤ limit }
    requires high { limit ≤ 4294967295 }
{
    let mut stage = FailingStage::over(MemStage::new(alloc, limit));
    for key in 1..96u64 {
        mv_add(&mut stage, tree, key, 1, 1)?;
    }
    Ok(stage)
}

// A tree of two leaves and a root over them.
fn two_levels(alloc: Global, tree: &mut Tree) -> Result<FailingStage<MemStage>, StageFault> {
    let mut stage = full_leaf(alloc, 20, tree)?;
    mv_add(&mut stage, tree, 96, 1, 1)?;
    Ok(stage)
}

// The leaf is closed: a second leaf and a root are given out, and each page is got and put.
#[test]
fn each_call_of_a_closing_fails(rt: HostRuntime) -> Result<(), Fail> {
    let mut wanting = [0_u32; 2];
    let mut ended = false;
    for calls in 0..100u64 {
        let mut tree = Tree::default();
        let mut stage = full_leaf(rt.alloc(), 20, &mut tree)?;
        let before = tree;
        stage.calls_left = calls;
        let added = mv_add(&mut stage, &mut tree, 96, 1, 1);
        // None of so many calls failed.
        if stage.calls_left < calls {
            assert_eq!(rt; added, Ok(()));
            ended = true;
            break;
        }
        assert_eq!(rt; tree, before);
        if stage.faults == 0 {
            assert_eq!(rt; added, Err(StageFault::NoMemory));
            wanting[0] = wanting[0].saturating_add(1);
        } else {
            assert_eq!(rt; added, Err(StageFault::Disk));
            wanting[1] = wanting[1].saturating_add(1);
        }
    }
    assert!(rt; ended);
    // Two pages are given out, and four are put: both leaves, the root and the directory.
    assert!(rt; wanting[0] == 2 && wanting[1] > 4);
    Ok(())
}

// The directory, the root and a leaf are got.
#[test]
fn each_get_of_a_value_fails(rt: HostRuntime) -> Result<(), Fail> {
    let mut tree = Tree::default();
    let mut stage = two_levels(rt.alloc(), &mut tree)?;
    for calls in 0..3u64 {
        stage.calls_left = calls;
        assert_eq!(rt; mv_value(&mut stage, &tree, 50, 1), Err(PageFault::Disk));
        assert_eq!(rt; stage.faults, calls + 1);
    }
    stage.calls_left = 3;
    assert_eq!(rt; mv_value(&mut stage, &tree, 50, 1), Ok(50));
    Ok(())
}

#[test]
fn each_call_of_a_free_fails(rt: HostRuntime) -> Result<(), Fail> {
    let mut ended = false;
    for calls in 0..100u64 {
        let mut tree = Tree::default();
        let mut stage = two_levels(rt.alloc(), &mut tree)?;
        stage.calls_left = calls;
        let freed = mv_free(&mut stage, &tree);
        if stage.faults == 0 {
            assert_eq!(rt; freed, Ok(()));
            // The directory and three nodes are freed.
            assert!(rt; calls >= 4);
            ended = true;
            break;
        }
        assert_eq!(rt; freed, Err(StageFault::Disk));
    }
    assert!(rt; ended);
    Ok(())
}

#[test]
fn a_closing_meets_the_limit(rt: HostRuntime) -> Result<(), Fail> {
    for limit in 5..7u64 {
        let mut tree = Tree::default();
        let mut stage = full_leaf(rt.alloc(), limit, &mut tree)?;
        let before = tree;
        assert_eq!(rt;
            mv_add(&mut stage, &mut tree, 96, 1, 1),
            Err(StageFault::PageLimit(limit))
        );
        assert_eq!(rt; tree, before);
    }
    Ok(())
}
