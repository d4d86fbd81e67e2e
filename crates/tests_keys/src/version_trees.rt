//! Trees over versions in memory: additions against plain sums, what damage is answered, and calls that fail.
ghost use Rattle.std.specs.Prelude.{◌≤◌};

use bw_types::Tree;
use ports::{
    FREE_PAGE, FailingStage, MemStage, Page, PageFault, Pages, Stage, StageFault, blank_page,
};
use sb_tree::{sb_add, sb_free, sb_value};
use std::alloc::{AllocError, Global};
use std::test::Fail;

#[test]
fn three_additions(rt: HostRuntime) -> Result<(), Fail> {
    let mut stage = MemStage::new(rt.alloc(), 10);
    let mut tree = Tree::default();
    sb_add(&mut stage, &mut tree, 3, 10)?;
    sb_add(&mut stage, &mut tree, 5, 4u128.wrapping_neg())?;
    sb_add(&mut stage, &mut tree, 3, 1)?;
    assert_eq!(rt; tree.count, 3);
    for case in [(2, 0), (3, 11), (4, 11), (5, 7), (u32::MAX, 7)] {
        assert_eq!(rt; sb_value(&mut stage, &tree, case.0), Ok(case.1));
    }
    sb_free(&mut stage, &tree)?;
    assert_eq!(rt;
        sb_value(&mut stage, &tree, 5),
        Err(PageFault::Damaged(tree.root))
    );
    Ok(())
}

/// An addition at a version.
#[derive(Clone, Copy)]
struct Addition {
    version: u32,
    value: u128,
}

// Additions at versions that ascend, at equal ones and at any.
fn some_additions(alloc: Global) -> Result<Vec<Addition>, AllocError> {
    let mut additions = Vec::new(alloc);
    let mut state: u32 = 1;
    for i in 0..10000u32 {
        state = state.wrapping_mul(1664525).wrapping_add(1013904223);
        let version = match state % 8 {
            0 => state % 50,
            1 => state,
            _ => i,
        };
        let value = u128::from(state).wrapping_neg();
        additions.push(Addition { version, value })?;
    }
    Ok(additions)
}

fn plain_sum(additions: &[Addition], version: u32) -> u128 {
    let mut sum: u128 = 0;
    for addition in additions {
        if addition.version <= version {
            sum = sum.wrapping_add(addition.value);
        }
    }
    sum
}

// Whether the tree has the plain sum at every addition's version, and right before it.
fn has_plain_sums(stage: &mut MemStage, tree: &Tree, additions: &[Addition]) -> bool {
    for addition in additions {
        let version = addition.version;
        let before = version.saturating_sub(1);
        if sb_value(stage, tree, version) != Ok(plain_sum(additions, version))
            || sb_value(stage, tree, before) != Ok(plain_sum(additions, before))
        {
            return false;
        }
    }
    true
}

#[test]
fn many_additions(rt: HostRuntime) -> Result<(), Fail> {
    let additions = some_additions(rt.alloc())?;
    let mut stage = MemStage::new(rt.alloc(), 1000);
    let mut tree = Tree::default();
    for addition in additions.as_slice() {
        sb_add(&mut stage, &mut tree, addition.version, addition.value)?;
    }
    assert_eq!(rt; tree.count, 10000);
    assert_eq!(rt; tree.levels, 3);
    assert!(rt; has_plain_sums(&mut stage, &tree, &additions));
    sb_free(&mut stage, &tree)?;
    assert!(rt; holds_no_pages(&mut stage));
    Ok(())
}

// Whether none of the pages that were given out is in the map.
pub(crate) fn holds_no_pages(stage: &mut MemStage) -> bool {
    let mut bytes = blank_page();
    for page in 3..stage.allotted() {
        if stage.get(page, &mut bytes) != Err(PageFault::Damaged(page)) {
            return false;
        }
    }
    true
}

// A tree of one full leaf.
fn full_leaf(
    alloc: Global,
    limit: u64,
    tree: &mut Tree,
) -> Result<FailingStage<MemStage>, StageFault>
    requires low { 3 ≤ limit }
    requires high { limit ≤ 4294967295 }
{
    let mut stage = FailingStage::over(MemStage::new(alloc, limit));
    for version in 0..64u32 {
        sb_add(&mut stage, tree, version, 1)?;
    }
    Ok(stage)
}

#[test]
fn each_call_of_a_split_fails(rt: HostRuntime) -> Result<(), Fail> {
    let failures = [
        StageFault::Disk,
        StageFault::NoMemory,
        StageFault::Disk,
        StageFault::Disk,
        StageFault::NoMemory,
        StageFault::Disk,
    ];
    for calls in 0..failures.len() {
        let mut tree = Tree::default();
        let mut stage = full_leaf(rt.alloc(), 10, &mut tree)?;
        let before = tree;
        stage.calls_left = calls as u64;
        assert_eq!(rt; sb_add(&mut stage, &mut tree, 64, 1), Err(failures[calls]));
        assert_eq!(rt; tree, before);
    }
    let mut tree = Tree::default();
    let mut stage = full_leaf(rt.alloc(), 10, &mut tree)?;
    stage.calls_left = failures.len() as u64;
    sb_add(&mut stage, &mut tree, 64, 1)?;
    assert_eq!(rt; tree.levels, 2);
    assert_eq!(rt; sb_value(&mut stage, &tree, 64), Err(PageFault::Disk));
    assert_eq!(rt; sb_value(&mut stage, &tree, 64), Ok(65));
    Ok(())
}

#[test]
fn a_value_and_a_free_fail(rt: HostRuntime) -> Result<(), Fail> {
    let mut tree = Tree::default();
    let mut stage = full_leaf(rt.alloc(), 10, &mut tree)?;
    stage.calls_left = 0;
    assert_eq!(rt; sb_value(&mut stage, &tree, 5), Err(PageFault::Disk));
    assert_eq!(rt; sb_value(&mut stage, &tree, 5), Ok(6));
    stage.calls_left = 1;
    assert_eq!(rt; sb_free(&mut stage, &tree), Err(StageFault::Disk));
    assert_eq!(rt; sb_free(&mut stage, &tree), Ok(()));
    assert_eq!(rt;
        sb_free(&mut stage, &tree),
        Err(StageFault::Damaged(tree.root))
    );
    Ok(())
}

#[test]
fn a_split_meets_the_limit(rt: HostRuntime) -> Result<(), Fail> {
    for limit in 4..6u64 {
        let mut tree = Tree::default();
        let mut stage = full_leaf(rt.alloc(), limit, &mut tree)?;
        let before = tree;
        assert_eq!(rt;
            sb_add(&mut stage, &mut tree, 64, 1),
            Err(StageFault::PageLimit(limit))
        );
        assert_eq!(rt; tree, before);
    }
    Ok(())
}

// A new page with these bytes.
fn page_with<S: Stage>(stage: &mut S, bytes: &Page) -> Result<u64, StageFault> {
    if bytes[0] == FREE_PAGE {
        return Err(StageFault::NoMemory);
    }
    let page = stage.allot()?;
    stage.put(page, bytes)?;
    Ok(page)
}

// Whether each call finds the root damaged that has these bytes.
fn is_found_damaged(alloc: Global, bytes: &Page, levels: u8) -> Result<bool, StageFault> {
    let mut stage = MemStage::new(alloc, 10);
    let root = page_with(&mut stage, bytes)?;
    let mut tree = Tree {
        root,
        levels,
        count: 1,
        changes: 0,
        last: 0,
    };
    let value = sb_value(&mut stage, &tree, 7);
    let added = sb_add(&mut stage, &mut tree, 7, 1);
    let freed = sb_free(&mut stage, &tree);
    Ok(
        value == Err(PageFault::Damaged(root))
            && added == Err(StageFault::Damaged(root))
            && freed == Err(StageFault::Damaged(root)),
    )
}

#[test]
fn damage_is_found(rt: HostRuntime) -> Result<(), Fail> {
    // An index node with one entry, whose child is itself.
    let mut bytes = blank_page();
    bytes[0] = 2;
    bytes[1] = 2;
    bytes[3] = 1;
    bytes[43] = 3;
    assert!(rt; is_found_damaged(rt.alloc(), &bytes, 2)?);
    // It is no leaf.
    assert!(rt; is_found_damaged(rt.alloc(), &bytes, 1)?);
    // No index node has a child of 0.
    bytes[43] = 0;
    assert!(rt; is_found_damaged(rt.alloc(), &bytes, 2)?);
    // A leaf of two entries, both of which begin at version 0.
    bytes[1] = 1;
    bytes[3] = 2;
    assert!(rt; is_found_damaged(rt.alloc(), &bytes, 1)?);
    // Noise.
    for i in 0..4096usize {
        bytes[i] = (i * i % 251) as u8;
    }
    assert!(rt; is_found_damaged(rt.alloc(), &bytes, 1)?);
    Ok(())
}
