//! Multiversion trees in memory: additions against plain sums, and the pages that they make.
use crate::broken::tree_of;
use crate::ends::{node, page_of};
use crate::version_trees::holds_no_pages;
use bw_types::Tree;
use mvsb_tree::{mv_add, mv_free, mv_value};
use page_layout::{MvEntry, MvNode, read_page};
use ports::{FailingStage, MemStage, PageFault, Stage, StageFault};
use sb_tree::sb_value;
use std::alloc::{AllocError, Global};
use std::test::Fail;

#[test]
fn three_additions(rt: HostRuntime) -> Result<(), Fail> {
    let mut stage = MemStage::new(rt.alloc(), 20);
    let mut tree = Tree::default();
    mv_add(&mut stage, &mut tree, 10, 1, 5)?;
    mv_add(&mut stage, &mut tree, 20, 1, 7)?;
    mv_add(&mut stage, &mut tree, 5, 2, 1)?;
    for case in [
        (25, 0, 0),
        (9, 1, 0),
        (10, 1, 5),
        (25, 1, 12),
        (4, 2, 0),
        (5, 2, 1),
        (25, 2, 13),
    ] {
        assert_eq!(rt; mv_value(&mut stage, &tree, case.0, case.1), Ok(case.2));
    }
    Ok(())
}

// How many entries the node on the page has.
fn entries_on(stage: &mut MemStage, page: u64) -> Result<usize, PageFault> {
    let node: MvNode = read_page(stage, page)?;
    Ok(node.entries.len())
}

// The two entries of the node on the page, if it has two.
fn two_on(stage: &mut MemStage, page: u64) -> Result<Option<[MvEntry; 2]>, PageFault> {
    let node: MvNode = read_page(stage, page)?;
    match node.entries.as_slice() {
        [first, second] => Ok(Some([*first, *second])),
        _ => Ok(None),
    }
}

// An entry that is not closed.
fn open_entry(low: u64, start: u32, value: u128, child: u64) -> MvEntry {
    MvEntry {
        low,
        start,
        end: u32::MAX,
        value,
        child,
    }
}

#[test]
fn a_root_that_splits_in_one_version(rt: HostRuntime) -> Result<(), Fail> {
    let mut stage = MemStage::new(rt.alloc(), 20);
    let mut tree = Tree::default();
    for key in 1..97u64 {
        mv_add(&mut stage, &mut tree, key, 1, 1)?;
    }
    assert_eq!(rt; tree.changes, 2);
    assert_eq!(rt; tree.count, 96);
    for case in [(0, 0), (50, 50), (96, 96)] {
        assert_eq!(rt; mv_value(&mut stage, &tree, case.0, 1), Ok(case.1));
    }
    // The first node, which keeps its page, and the directory; the second node and the root.
    assert_eq!(rt; stage.allotted(), 7);
    for case in [(3, 48), (5, 49)] {
        assert_eq!(rt; entries_on(&mut stage, case.0), Ok(case.1));
    }
    let root = [open_entry(0, 1, 0, 3), open_entry(48, 1, 0, 5)];
    assert_eq!(rt; two_on(&mut stage, 6), Ok(Some(root)));
    mv_free(&mut stage, &tree)?;
    assert!(rt; holds_no_pages(&mut stage));
    Ok(())
}

// The level of the node on the page, its place, the page before it and how many entries it has.
fn shape_on(stage: &mut MemStage, page: u64) -> Result<(u8, u32, u64, usize), PageFault> {
    let node: MvNode = read_page(stage, page)?;
    Ok((node.level, node.place, node.before, node.entries.len()))
}

// Whether the node on the page has this first entry, and the others follow: their lows so far apart, each with its start and its
// child, and of value 1.
fn follow_on(
    stage: &mut MemStage,
    page: u64,
    first: MvEntry,
    apart: u64,
) -> Result<bool, PageFault> {
    let node: MvNode = read_page(stage, page)?;
    let mut expected = first;
    for e in node.entries.as_slice() {
        if *e != expected {
            return Ok(false);
        }
        expected = open_entry(e.low.wrapping_add(apart), first.start, 1, first.child);
    }
    Ok(true)
}

// A leaf that version 1 filled, which is closed at version 2: two new leaves and a root over them take its part.
fn split_at_2(stage: &mut MemStage, tree: &mut Tree) -> Result<(), StageFault> {
    for key in 1..96u64 {
        mv_add(stage, tree, key, 1, 1)?;
    }
    mv_add(stage, tree, 96, 2, 1)
}

#[test]
fn a_root_that_splits_at_a_later_version_stays_for_the_past(rt: HostRuntime) -> Result<(), Fail> {
    let mut stage = MemStage::new(rt.alloc(), 20);
    let mut tree = Tree::default();
    split_at_2(&mut stage, &mut tree)?;
    // The closed leaf and the directory; the two leaves and the root.
    assert_eq!(rt; stage.allotted(), 8);
    assert_eq!(rt; tree.changes, 2);
    assert_eq!(rt; tree.last, 7);
    // The closed leaf is as version 1 left it, its entries still open: no way of version 2 leads to it.
    // The first half is on a new page too; the first entry of the second has the sum of the first half, 47, on top of its 1.
    for case in [
        (3, (1, 1, 0, 96), open_entry(0, 1, 0, 0)),
        (5, (1, 2, 3, 48), open_entry(0, 2, 0, 0)),
        (6, (1, 3, 5, 49), open_entry(48, 2, 48, 0)),
    ] {
        assert_eq!(rt; shape_on(&mut stage, case.0), Ok(case.1));
        assert_eq!(rt; follow_on(&mut stage, case.0, case.2, 1), Ok(true));
    }
    assert_eq!(rt; shape_on(&mut stage, 7), Ok((2, 4, 6, 2)));
    let root = [open_entry(0, 2, 0, 5), open_entry(48, 2, 0, 6)];
    assert_eq!(rt; two_on(&mut stage, 7), Ok(Some(root)));
    for case in [(1, 95), (2, 96)] {
        assert_eq!(rt; mv_value(&mut stage, &tree, 96, case.0), Ok(case.1));
    }
    mv_free(&mut stage, &tree)?;
    assert!(rt; holds_no_pages(&mut stage));
    Ok(())
}

// The page of the root at a version: the value there of the tree's directory, a tree over versions.
fn root_at(stage: &mut MemStage, tree: &Tree, version: u32) -> Result<u64, PageFault> {
    let directory = Tree {
        root: tree.root,
        levels: tree.levels,
        count: tree.changes,
        changes: 0,
        last: 0,
    };
    let root = sb_value(stage, &directory, version)?;
    u64::try_from(root).map_err(|_| PageFault::Damaged(tree.root))
}

// The four entries of the node on the page, if it has four.
fn four_on(stage: &mut MemStage, page: u64) -> Result<Option<[MvEntry; 4]>, PageFault> {
    let node: MvNode = read_page(stage, page)?;
    match node.entries.as_slice() {
        [first, second, third, fourth] => Ok(Some([*first, *second, *third, *fourth])),
        _ => Ok(None),
    }
}

#[test]
fn a_leaf_that_splits_closes_the_entry_that_led_to_it(rt: HostRuntime) -> Result<(), Fail> {
    let mut stage = MemStage::new(rt.alloc(), 20);
    let mut tree = Tree::default();
    split_at_2(&mut stage, &mut tree)?;
    for key in 97..145u64 {
        mv_add(&mut stage, &mut tree, key, 3, 1)?;
    }
    // Two leaves more, below the same root.
    assert_eq!(rt; stage.allotted(), 10);
    assert_eq!(rt; tree.changes, 2);
    for case in [
        (8, (1, 5, 7, 48), open_entry(48, 3, 48, 0)),
        (9, (1, 6, 8, 49), open_entry(96, 3, 96, 0)),
    ] {
        assert_eq!(rt; shape_on(&mut stage, case.0), Ok(case.1));
        assert_eq!(rt; follow_on(&mut stage, case.0, case.2, 1), Ok(true));
    }
    // The closed leaf has the keys of version 3 as well, but for the last.
    assert_eq!(rt; shape_on(&mut stage, 6), Ok((1, 3, 5, 96)));
    let mut closed = open_entry(48, 2, 0, 6);
    closed.end = 3;
    let root = [
        open_entry(0, 2, 0, 5),
        closed,
        open_entry(48, 3, 0, 8),
        open_entry(96, 3, 0, 9),
    ];
    assert_eq!(rt; four_on(&mut stage, 7), Ok(Some(root)));
    for case in [(2, 96), (3, 144)] {
        assert_eq!(rt; mv_value(&mut stage, &tree, 144, case.0), Ok(case.1));
    }
    Ok(())
}

// The first two entries of the node on the page, if it has more than two.
fn first_two_on(stage: &mut MemStage, page: u64) -> Result<Option<[MvEntry; 2]>, PageFault> {
    let node: MvNode = read_page(stage, page)?;
    match node.entries.as_slice() {
        [first, second, _, ..] => Ok(Some([*first, *second])),
        _ => Ok(None),
    }
}

#[test]
fn an_index_root_that_splits_stays_for_the_past(rt: HostRuntime) -> Result<(), Fail> {
    let mut stage = MemStage::new(rt.alloc(), 20);
    // A leaf of one entry, and above it a root of 96 entries, 10 keys apart, which all lead to it from version 1 on.
    let leaf = page_of(&mut stage, &node(1, 1, 0, 0, 1, 1))?;
    let page = page_of(&mut stage, &node(2, 2, leaf, leaf, 96, 96))?;
    assert_eq!(rt; [leaf, page], [3, 4]);
    let mut tree = tree_of(&mut stage, page)?;
    // From key 10 on the root itself takes the value, and has one entry too many.
    mv_add(&mut stage, &mut tree, 5, 3, 1)?;
    for case in [
        (4, (2, 2, 3, 96)),
        (6, (2, 3, 4, 48)),
        (7, (2, 4, 6, 48)),
        (8, (3, 5, 7, 2)),
    ] {
        assert_eq!(rt; shape_on(&mut stage, case.0), Ok(case.1));
    }
    for case in [(4, open_entry(0, 1, 1, 3)), (7, open_entry(480, 3, 50, 3))] {
        assert_eq!(rt; follow_on(&mut stage, case.0, case.1, 10), Ok(true));
    }
    // The first half has 48 entries of value 1, and the second of them the value that was added.
    let begin = [open_entry(0, 3, 1, 3), open_entry(10, 3, 2, 3)];
    assert_eq!(rt; first_two_on(&mut stage, 6), Ok(Some(begin)));
    let root = [open_entry(0, 3, 0, 6), open_entry(480, 3, 0, 7)];
    assert_eq!(rt; two_on(&mut stage, 8), Ok(Some(root)));
    // The old root is the one of version 2, and the new one that of version 3.
    for case in [(2, 4), (3, 8)] {
        assert_eq!(rt; root_at(&mut stage, &tree, case.0), Ok(case.1));
    }
    Ok(())
}

#[test]
fn one_key_at_many_versions(rt: HostRuntime) -> Result<(), Fail> {
    let mut stage = MemStage::new(rt.alloc(), 20);
    let mut tree = Tree::default();
    for version in 1..97u32 {
        mv_add(&mut stage, &mut tree, 5, version, 1)?;
    }
    assert_eq!(rt; tree.changes, 2);
    for case in [(1, 1), (95, 95), (96, 96)] {
        assert_eq!(rt; mv_value(&mut stage, &tree, 5, case.0), Ok(case.1));
    }
    // Of its entries two are alive, so one new page takes its part.
    assert_eq!(rt; stage.allotted(), 6);
    let copies = [open_entry(0, 96, 0, 0), open_entry(5, 96, 96, 0)];
    assert_eq!(rt; two_on(&mut stage, 5), Ok(Some(copies)));
    Ok(())
}

// The caller has to keep the order of versions. An addition at a version before the newest one may be taken, and here the tree
// stands for nothing then: the leaf of the versions before 96 takes it, and the one from 96 on knows nothing of it.
#[test]
fn an_addition_out_of_order_is_not_always_found(rt: HostRuntime) -> Result<(), Fail> {
    let mut stage = MemStage::new(rt.alloc(), 20);
    let mut tree = Tree::default();
    for version in 1..97u32 {
        mv_add(&mut stage, &mut tree, 5, version, 1)?;
    }
    assert_eq!(rt; mv_add(&mut stage, &mut tree, 5, 95, 1000), Ok(()));
    assert_eq!(rt; tree.count, 97);
    assert_eq!(rt; mv_value(&mut stage, &tree, 5, 95), Ok(1095));
    assert_eq!(rt; mv_value(&mut stage, &tree, 5, 96), Ok(96));
    // One that comes before an entry of its leaf starts is found.
    assert_eq!(rt;
        mv_add(&mut stage, &mut tree, 5, 94, 1000),
        Err(StageFault::Damaged(3))
    );
    Ok(())
}

/// An addition at a key and a version.
#[derive(Clone, Copy)]
struct Addition {
    key: u64,
    version: u32,
    value: u128,
}

// Additions in order of version: at any keys, at keys that ascend, at few keys, at one; many in one version, or all.
fn some_additions(alloc: Global, kind: u32, count: u32) -> Result<Vec<Addition>, AllocError> {
    let mut additions = Vec::new(alloc);
    let mut state: u32 = kind;
    for i in 0..count {
        state = state.wrapping_mul(1664525).wrapping_add(1013904223);
        let key = match kind % 5 {
            0 => u64::from(state) << 32,
            1 => u64::from(i),
            2 => u64::from(state >> 24),
            3 => u64::from(state >> 8),
            _ => 77,
        };
        let version = match kind % 4 {
            0 => i / 8,
            1 => i,
            2 => 7 + i / 500,
            _ => 7,
        };
        let value = u128::from(state).wrapping_neg();
        additions.push(Addition {
            key,
            version,
            value,
        })?;
    }
    Ok(additions)
}

fn plain_sum(additions: &[Addition], key: u64, version: u32) -> u128 {
    let mut sum: u128 = 0;
    for addition in additions {
        if addition.key <= key && addition.version <= version {
            sum = sum.wrapping_add(addition.value);
        }
    }
    sum
}

// Whether the tree has the plain sum at some keys of additions and versions of others, right before them, and at keys that
// have nothing to do with additions.
fn has_plain_sums(stage: &mut MemStage, tree: &Tree, additions: &[Addition]) -> bool {
    let count = additions.len();
    if count == 0 {
        return true;
    }
    for i in 0..100usize {
        let key = additions[(i * 7919) % count].key;
        let version = additions[(i * 104729) % count].version;
        for case in [
            (key, version),
            (key.saturating_sub(1), version),
            (key, version.saturating_sub(1)),
            (u64::MAX, version),
            (
                (i as u64).wrapping_mul(0x9E3779B97F4A7C15) >> (i % 64),
                version,
            ),
        ] {
            let expected = plain_sum(additions, case.0, case.1);
            if mv_value(stage, tree, case.0, case.1) != Ok(expected) {
                return false;
            }
        }
    }
    true
}

// The level of the newest root.
fn root_level(stage: &mut MemStage, tree: &Tree) -> Result<u8, PageFault> {
    let root = root_at(stage, tree, u32::MAX)?;
    let node: MvNode = read_page(stage, root)?;
    Ok(node.level)
}

#[test]
fn many_additions(rt: HostRuntime) -> Result<(), Fail> {
    for kind in 0..20u32 {
        let additions = some_additions(rt.alloc(), kind, 30000)?;
        let mut stage = MemStage::new(rt.alloc(), 100000);
        let mut tree = Tree::default();
        for addition in additions.as_slice() {
            assert!(rt; addition.version < u32::MAX);
            mv_add(
                &mut stage,
                &mut tree,
                addition.key,
                addition.version,
                addition.value,
            )?;
        }
        assert_eq!(rt; tree.count, 30000);
        // Of keys that differ there are index nodes that split, and not leaves alone.
        let level = root_level(&mut stage, &tree)?;
        assert!(rt;
            level == 3 || kind % 5 == 2 || kind % 5 == 4,
            "level {level} of kind {kind}"
        );
        assert!(rt; has_plain_sums(&mut stage, &tree, &additions));
        mv_free(&mut stage, &tree)?;
        assert!(rt; holds_no_pages(&mut stage));
    }
    Ok(())
}

// No contract tells these numbers; a model of the format, in Python, foretold them. A change by which trees need more pages should be
// noticed.
#[test]
fn so_many_additions_take_so_many_pages(rt: HostRuntime) -> Result<(), Fail> {
    // So many at random keys, at keys that ascend, at random keys in one version, and at one key; the numbers of pages that are given
    // out then, with the three that always are; and the level of the root.
    for (kind, count, allotted, level) in [
        (0u32, 4000u32, 176u64, 3u8),
        (1, 3000, 131, 3),
        (15, 7000, 119, 3),
        (9, 2000, 26, 1),
    ] {
        let additions = some_additions(rt.alloc(), kind, count)?;
        let mut stage = MemStage::new(rt.alloc(), 1000);
        let mut tree = Tree::default();
        for addition in additions.as_slice() {
            assert!(rt; addition.version < u32::MAX);
            mv_add(
                &mut stage,
                &mut tree,
                addition.key,
                addition.version,
                addition.value,
            )?;
        }
        assert_eq!(rt; stage.allotted(), allotted, "kind {kind}");
        assert_eq!(rt; root_level(&mut stage, &tree), Ok(level));
    }
    Ok(())
}

// Two gets and two puts a level of the directory and of the nodes at most, and for each new page a get and a put more.
#[test]
fn an_addition_gets_and_puts_few_pages(rt: HostRuntime) -> Result<(), Fail> {
    for kind in 0..5u32 {
        let additions = some_additions(rt.alloc(), kind, 1000)?;
        let mut stage = FailingStage::over(MemStage::new(rt.alloc(), 100000));
        let mut tree = Tree::default();
        for addition in additions.as_slice() {
            assert!(rt; addition.version < u32::MAX);
            let (gets, allotted, calls) = (
                stage.stage.gets(),
                stage.stage.allotted(),
                stage.calls_left,
            );
            mv_add(
                &mut stage,
                &mut tree,
                addition.key,
                addition.version,
                addition.value,
            )?;
            let got = stage.stage.gets().saturating_sub(gets);
            let new = stage.stage.allotted().saturating_sub(allotted);
            // Each other call is a put.
            let put = calls
                .saturating_sub(stage.calls_left)
                .saturating_sub(got)
                .saturating_sub(new);
            let before = stage.stage.gets();
            mv_value(&mut stage, &tree, addition.key, addition.version)?;
            let levels = stage.stage.gets().saturating_sub(before);
            let most = levels.saturating_mul(2).saturating_add(new);
            assert!(rt; put >= 1 && got <= most && put <= most, "{got} and {put}");
        }
    }
    Ok(())
}
