//! Multiversion trees whose pages lead in circles or hold noise: each call ends, and names a page.
use arrayvec::ArrayVec;
use bw_types::Tree;
use mvsb_tree::{mv_add, mv_free, mv_value};
use page_layout::{MvEntry, MvNode, Spelled, make_page, put_page};
use ports::{MemStage, PageFault, Pages, Stage, StageFault, blank_page};
use sb_tree::sb_add;
use std::test::Fail;

fn entry(low: u64, start: u32, child: u64) -> MvEntry {
    MvEntry {
        low,
        start,
        end: u32::MAX,
        value: 3,
        child,
    }
}

// A node of one entry, open from version 1 on.
fn node(level: u8, place: u32, before: u64, child: u64) -> MvNode {
    let mut entries = ArrayVec::new();
    entries.push(entry(0, 1, child));
    MvNode {
        level,
        place,
        before,
        entries,
    }
}

// A page of its own for the node.
fn page_of(stage: &mut MemStage, node: &MvNode) -> Result<u64, StageFault> {
    if !node.keeps_rules() {
        return Err(StageFault::Damaged(0));
    }
    make_page(stage, node)
}

// A page that holds no node, though its kind is that of one.
pub(crate) fn noise(stage: &mut MemStage) -> Result<u64, StageFault> {
    let page = stage.allot()?;
    let mut bytes = blank_page();
    bytes[0] = 3;
    bytes[1] = 77;
    bytes[9] = 200;
    stage.put(page, &bytes)?;
    Ok(page)
}

// A tree with this page as its root from version 1 on, which is the last page of its chain.
pub(crate) fn tree_of(stage: &mut MemStage, root: u64) -> Result<Tree, StageFault> {
    let mut roots = Tree::default();
    sb_add(stage, &mut roots, 1, u128::from(root))?;
    Ok(Tree {
        root: roots.root,
        levels: roots.levels,
        count: 1,
        changes: 1,
        last: root,
    })
}

#[test]
fn a_node_that_leads_to_itself(rt: HostRuntime) -> Result<(), Fail> {
    let mut stage = MemStage::new(rt.alloc(), 10);
    let page = stage.allot()?;
    let circle = node(2, 1, 0, page);
    assert!(rt; circle.keeps_rules());
    put_page(&mut stage, page, &circle)?;
    let mut tree = tree_of(&mut stage, page)?;
    assert_eq!(rt;
        mv_value(&mut stage, &tree, 5, 1),
        Err(PageFault::Damaged(page))
    );
    assert_eq!(rt;
        mv_add(&mut stage, &mut tree, 5, 2, 1),
        Err(StageFault::Damaged(page))
    );
    assert_eq!(rt; tree.count, 1);
    Ok(())
}

#[test]
fn a_directory_that_is_noise(rt: HostRuntime) -> Result<(), Fail> {
    let mut stage = MemStage::new(rt.alloc(), 10);
    let page = page_of(&mut stage, &node(1, 1, 0, 0))?;
    let mut tree = tree_of(&mut stage, page)?;
    let root = noise(&mut stage)?;
    tree.root = root;
    assert_eq!(rt;
        mv_value(&mut stage, &tree, 5, 1),
        Err(PageFault::Damaged(root))
    );
    assert_eq!(rt;
        mv_add(&mut stage, &mut tree, 5, 2, 1),
        Err(StageFault::Damaged(root))
    );
    assert_eq!(rt; mv_free(&mut stage, &tree), Err(StageFault::Damaged(root)));
    Ok(())
}

#[test]
fn two_pages_that_lead_to_each_other(rt: HostRuntime) -> Result<(), Fail> {
    // Below a root of level 2 the other page is to be a leaf; below one of level 3 the root is, when it is reached again.
    for level in 2..4u8 {
        let mut stage = MemStage::new(rt.alloc(), 10);
        let root = page_of(&mut stage, &node(level, 2, 4, 4))?;
        let other = page_of(&mut stage, &node(2, 1, 0, 3))?;
        assert_eq!(rt; [root, other], [3, 4]);
        let mut tree = tree_of(&mut stage, root)?;
        let damaged = if level == 2 { other } else { root };
        assert_eq!(rt;
            mv_value(&mut stage, &tree, 5, 1),
            Err(PageFault::Damaged(damaged))
        );
        assert_eq!(rt;
            mv_add(&mut stage, &mut tree, 5, 2, 1),
            Err(StageFault::Damaged(damaged))
        );
    }
    Ok(())
}

#[test]
fn a_node_that_is_its_own_child_is_freed(rt: HostRuntime) -> Result<(), Fail> {
    let mut stage = MemStage::new(rt.alloc(), 10);
    let page = stage.allot()?;
    let circle = node(2, 1, 0, page);
    assert!(rt; circle.keeps_rules());
    put_page(&mut stage, page, &circle)?;
    let tree = tree_of(&mut stage, page)?;
    // The pages are those of the chain of places, whatever the nodes lead to.
    assert_eq!(rt; mv_free(&mut stage, &tree), Ok(()));
    let mut bytes = blank_page();
    for gone in [page, tree.root] {
        assert_eq!(rt; stage.get(gone, &mut bytes), Err(PageFault::Damaged(gone)));
    }
    Ok(())
}

#[test]
fn a_place_behind_itself(rt: HostRuntime) -> Result<(), Fail> {
    let mut stage = MemStage::new(rt.alloc(), 10);
    let page = stage.allot()?;
    let behind = node(1, 2, page, 0);
    assert!(rt; behind.keeps_rules());
    put_page(&mut stage, page, &behind)?;
    let mut tree = tree_of(&mut stage, page)?;
    mv_add(&mut stage, &mut tree, 5, 2, 1)?;
    assert_eq!(rt; mv_value(&mut stage, &tree, 5, 2), Ok(4));
    assert_eq!(rt; mv_free(&mut stage, &tree), Err(StageFault::Damaged(page)));
    Ok(())
}

#[test]
fn a_place_that_is_not_one_less(rt: HostRuntime) -> Result<(), Fail> {
    for place in [1u32, 3, 4] {
        let mut stage = MemStage::new(rt.alloc(), 10);
        let last = page_of(&mut stage, &node(1, 3, 4, 0))?;
        let before = if place == 1 { 0 } else { 3 };
        let other = page_of(&mut stage, &node(1, place, before, 0))?;
        assert_eq!(rt; [last, other], [3, 4]);
        let tree = tree_of(&mut stage, last)?;
        assert_eq!(rt; mv_free(&mut stage, &tree), Err(StageFault::Damaged(other)));
    }
    Ok(())
}

#[test]
fn a_chain_with_noise_in_its_middle(rt: HostRuntime) -> Result<(), Fail> {
    let mut stage = MemStage::new(rt.alloc(), 10);
    page_of(&mut stage, &node(1, 1, 0, 0))?;
    let middle = noise(&mut stage)?;
    let last = page_of(&mut stage, &node(1, 3, middle, 0))?;
    let tree = tree_of(&mut stage, last)?;
    assert_eq!(rt;
        mv_free(&mut stage, &tree),
        Err(StageFault::Damaged(middle))
    );
    Ok(())
}

#[test]
fn a_page_of_the_directory_and_of_the_chain(rt: HostRuntime) -> Result<(), Fail> {
    // The chain leads to the directory's page, which holds no node of it.
    let mut stage = MemStage::new(rt.alloc(), 10);
    let last = page_of(&mut stage, &node(1, 2, 4, 0))?;
    let tree = tree_of(&mut stage, last)?;
    assert_eq!(rt; [last, tree.root], [3, 4]);
    assert_eq!(rt; mv_free(&mut stage, &tree), Err(StageFault::Damaged(4)));
    // One page is the directory's root and the last one of the chain: it can hold a node of one of the two only.
    for page in [3, 4] {
        let mut stage = MemStage::new(rt.alloc(), 10);
        let last = page_of(&mut stage, &node(1, 1, 0, 0))?;
        let mut tree = tree_of(&mut stage, last)?;
        assert_eq!(rt; [last, tree.root], [3, 4]);
        tree.root = page;
        tree.last = page;
        assert_eq!(rt; mv_free(&mut stage, &tree), Err(StageFault::Damaged(page)));
    }
    Ok(())
}

#[test]
fn a_root_that_is_noise(rt: HostRuntime) -> Result<(), Fail> {
    let mut stage = MemStage::new(rt.alloc(), 10);
    let page = noise(&mut stage)?;
    let mut tree = tree_of(&mut stage, page)?;
    assert_eq!(rt;
        mv_value(&mut stage, &tree, 5, 2),
        Err(PageFault::Damaged(page))
    );
    assert_eq!(rt;
        mv_add(&mut stage, &mut tree, 5, 2, 1),
        Err(StageFault::Damaged(page))
    );
    assert_eq!(rt;
        mv_add(&mut stage, &mut tree, 5, 0, 1),
        Err(StageFault::Damaged(tree.root))
    );
    assert_eq!(rt; mv_free(&mut stage, &tree), Err(StageFault::Damaged(page)));
    Ok(())
}

#[test]
fn a_leaf_that_is_noise(rt: HostRuntime) -> Result<(), Fail> {
    let mut stage = MemStage::new(rt.alloc(), 10);
    let leaf = noise(&mut stage)?;
    let root = page_of(&mut stage, &node(2, 1, 0, leaf))?;
    let mut tree = tree_of(&mut stage, root)?;
    assert_eq!(rt;
        mv_value(&mut stage, &tree, 5, 2),
        Err(PageFault::Damaged(leaf))
    );
    assert_eq!(rt;
        mv_add(&mut stage, &mut tree, 5, 2, 1),
        Err(StageFault::Damaged(leaf))
    );
    Ok(())
}

#[test]
fn an_entry_that_starts_or_ends_later(rt: HostRuntime) -> Result<(), Fail> {
    // The start and the end of an entry at 7; a version before one of them; the value at 7 after an addition of 1 at the later one.
    for case in [(9u32, u32::MAX, 2u32, 9u32, 7u128), (1, 2, 1, 2, 4)] {
        let mut stage = MemStage::new(rt.alloc(), 10);
        let mut entries = ArrayVec::new();
        entries.push(entry(0, 1, 0));
        let mut later = entry(7, case.0, 0);
        later.end = case.1;
        entries.push(later);
        let leaf = MvNode {
            level: 1,
            place: 1,
            before: 0,
            entries,
        };
        let page = page_of(&mut stage, &leaf)?;
        let mut tree = tree_of(&mut stage, page)?;
        assert!(rt; case.2 < u32::MAX && case.3 < u32::MAX);
        assert_eq!(rt;
            mv_add(&mut stage, &mut tree, 5, case.2, 1),
            Err(StageFault::Damaged(page))
        );
        mv_add(&mut stage, &mut tree, 5, case.3, 1)?;
        assert_eq!(rt; mv_value(&mut stage, &tree, 7, case.3), Ok(case.4));
    }
    Ok(())
}

// A node that is the first of a chain.
fn first_node(level: u8, entries: ArrayVec<MvEntry, 100>) -> MvNode {
    MvNode {
        level,
        place: 1,
        before: 0,
        entries,
    }
}

// A node of level 2 over two leaves, whose second entry begins, starts and ends so: the root, or below a root of level 3.
fn over_two_leaves(
    stage: &mut MemStage,
    low: u64,
    start: u32,
    end: u32,
    is_root: bool,
) -> Result<(u64, Tree), StageFault> {
    let first = page_of(stage, &node(1, 1, 0, 0))?;
    let mut entries = ArrayVec::new();
    entries.push(entry(low, 1, 0));
    let second = page_of(stage, &first_node(1, entries))?;
    let mut entries = ArrayVec::new();
    entries.push(entry(0, 1, first));
    let mut later = entry(low, start, second);
    later.end = end;
    entries.push(later);
    let page = page_of(stage, &first_node(2, entries))?;
    let root = if is_root {
        page
    } else {
        page_of(stage, &node(3, 1, 0, page))?
    };
    let tree = tree_of(stage, root)?;
    Ok((page, tree))
}

// The value of such a tree, whose root of level 3 adds the 3 of its entry.
fn above(is_root: bool, value: u128) -> u128 {
    if is_root {
        value
    } else {
        value.wrapping_add(3)
    }
}

#[test]
fn an_index_entry_that_starts_or_ends_later(rt: HostRuntime) -> Result<(), Fail> {
    // The start and the end of an entry at 7; a version before one of them, and the value at 7 there, which is told all the same;
    // the later one, and the value at 7 after an addition of 1 at it.
    for case in [
        (9u32, u32::MAX, 2u32, 6u128, 9u32, 10u128),
        (1, 2, 1, 9, 2, 7),
    ] {
        for is_root in [true, false] {
            let mut stage = MemStage::new(rt.alloc(), 10);
            let (page, mut tree) = over_two_leaves(&mut stage, 7, case.0, case.1, is_root)?;
            assert!(rt; case.2 < u32::MAX && case.4 < u32::MAX);
            let told = above(is_root, case.3);
            assert_eq!(rt; mv_value(&mut stage, &tree, 7, case.2), Ok(told));
            assert_eq!(rt;
                mv_add(&mut stage, &mut tree, 5, case.2, 1),
                Err(StageFault::Damaged(page))
            );
            mv_add(&mut stage, &mut tree, 5, case.4, 1)?;
            let told = above(is_root, case.5);
            assert_eq!(rt; mv_value(&mut stage, &tree, 7, case.4), Ok(told));
        }
    }
    Ok(())
}

#[test]
fn two_index_entries_of_one_low(rt: HostRuntime) -> Result<(), Fail> {
    for is_root in [true, false] {
        let mut stage = MemStage::new(rt.alloc(), 10);
        // Both begin at 0, from versions 1 and 2 on.
        let (page, mut tree) = over_two_leaves(&mut stage, 0, 2, u32::MAX, is_root)?;
        for version in 1..3u32 {
            assert_eq!(rt;
                mv_add(&mut stage, &mut tree, 5, version, 1),
                Err(StageFault::Damaged(page))
            );
        }
        // A value is told: the entries that are alive add up, and the last one has the child.
        assert_eq!(rt; mv_value(&mut stage, &tree, 5, 1), Ok(above(is_root, 6)));
        assert_eq!(rt; mv_value(&mut stage, &tree, 5, 2), Ok(above(is_root, 9)));
    }
    Ok(())
}

// A leaf whose entry is closed at version 2.
fn closed_leaf(low: u64) -> MvNode {
    let mut entries = ArrayVec::new();
    let mut closed = entry(low, 1, 0);
    closed.end = 2;
    entries.push(closed);
    MvNode {
        level: 1,
        place: 1,
        before: 0,
        entries,
    }
}

#[test]
fn a_low_outside_the_keys_of_a_leaf(rt: HostRuntime) -> Result<(), Fail> {
    // The lows of two leaves, which are reached below 100 and from 100 on; a key, a version, and the value there, if there is one.
    for case in [
        (0u64, 99u64, 5u64, 1u32, Some(6u128)),
        (0, 99, 150, 1, None),
        (0, 99, 150, 2, Some(6)),
        (100, 100, 5, 1, None),
        (100, 100, 5, 2, Some(3)),
        (100, 100, 150, 1, Some(9)),
    ] {
        let mut stage = MemStage::new(rt.alloc(), 10);
        let first = page_of(&mut stage, &closed_leaf(case.0))?;
        let second = page_of(&mut stage, &closed_leaf(case.1))?;
        let mut entries = ArrayVec::new();
        entries.push(entry(0, 1, first));
        entries.push(entry(100, 1, second));
        let above = MvNode {
            level: 2,
            place: 1,
            before: 0,
            entries,
        };
        let root = page_of(&mut stage, &above)?;
        let tree = tree_of(&mut stage, root)?;
        let reached = if case.2 < 100 { first } else { second };
        let expected = match case.4 {
            Some(value) => Ok(value),
            None => Err(PageFault::Damaged(reached)),
        };
        assert_eq!(rt; mv_value(&mut stage, &tree, case.2, case.3), expected);
    }
    Ok(())
}
