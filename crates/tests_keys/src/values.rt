//! A multiversion tree of one leaf: its values, what frees it, and what is answered where it is damaged.
use arrayvec::ArrayVec;
use bw_types::Tree;
use mvsb_tree::{mv_free, mv_value};
use page_layout::{MvEntry, MvNode, Spelled, make_page};
use ports::{MemStage, PageFault, Pages, Stage, StageFault, blank_page};
use sb_tree::sb_add;
use std::test::Fail;

fn entry(low: u64, start: u32, end: u32, value: u128) -> MvEntry {
    MvEntry {
        low,
        start,
        end,
        value,
        child: 0,
    }
}

// What additions of 5 at key 10 and of 7 at key 20 in version 1, of 1 at key 5 in version 2 and of 4 at
// key 10 in version 3 make.
fn small_leaf() -> MvNode {
    let mut entries = ArrayVec::new();
    entries.push(entry(0, 1, u32::MAX, 0));
    entries.push(entry(5, 2, u32::MAX, 1));
    entries.push(entry(10, 1, 3, 5));
    entries.push(entry(10, 3, u32::MAX, 9));
    entries.push(entry(20, 1, u32::MAX, 7));
    MvNode {
        level: 1,
        place: 1,
        before: 0,
        entries,
    }
}

fn small_tree(stage: &mut MemStage) -> Result<Tree, StageFault> {
    let leaf = small_leaf();
    if !leaf.keeps_rules() {
        return Err(StageFault::Damaged(0));
    }
    let page = make_page(stage, &leaf)?;
    let mut roots = Tree::default();
    sb_add(stage, &mut roots, 1, u128::from(page))?;
    Ok(Tree {
        root: roots.root,
        levels: roots.levels,
        count: 4,
        changes: 1,
        last: page,
    })
}

#[test]
fn values_of_every_version(rt: HostRuntime) -> Result<(), Fail> {
    let mut stage = MemStage::new(rt.alloc(), 10);
    let tree = small_tree(&mut stage)?;
    for case in [
        (25, 0, 0),
        (9, 1, 0),
        (10, 1, 5),
        (25, 1, 12),
        (4, 2, 0),
        (5, 2, 1),
        (25, 2, 13),
        (10, 3, 10),
        (u64::MAX, u32::MAX, 17),
    ] {
        assert_eq!(rt; mv_value(&mut stage, &tree, case.0, case.1), Ok(case.2));
    }
    assert_eq!(rt; mv_value(&mut stage, &Tree::default(), 5, 5), Ok(0));
    Ok(())
}

#[test]
fn freed_pages_are_gone(rt: HostRuntime) -> Result<(), Fail> {
    let mut stage = MemStage::new(rt.alloc(), 10);
    let tree = small_tree(&mut stage)?;
    mv_free(&mut stage, &tree)?;
    let mut bytes = blank_page();
    assert_eq!(rt;
        stage.get(tree.last, &mut bytes),
        Err(PageFault::Damaged(tree.last))
    );
    assert_eq!(rt;
        stage.get(tree.root, &mut bytes),
        Err(PageFault::Damaged(tree.root))
    );
    assert_eq!(rt;
        mv_value(&mut stage, &tree, 10, 1),
        Err(PageFault::Damaged(tree.root))
    );
    assert_eq!(rt;
        mv_free(&mut stage, &tree),
        Err(StageFault::Damaged(tree.last))
    );
    mv_free(&mut stage, &Tree::default())?;
    Ok(())
}

#[test]
fn a_root_that_is_no_node(rt: HostRuntime) -> Result<(), Fail> {
    let mut stage = MemStage::new(rt.alloc(), 10);
    let mut tree = small_tree(&mut stage)?;
    let mut roots = Tree::default();
    sb_add(&mut stage, &mut roots, 1, 1 << 64)?;
    tree.root = roots.root;
    assert_eq!(rt;
        mv_value(&mut stage, &tree, 10, 1),
        Err(PageFault::Damaged(roots.root))
    );
    let blank = stage.allot()?;
    let mut others = Tree::default();
    sb_add(&mut stage, &mut others, 1, u128::from(blank))?;
    tree.root = others.root;
    assert_eq!(rt; mv_value(&mut stage, &tree, 10, 0), Ok(0));
    assert_eq!(rt;
        mv_value(&mut stage, &tree, 10, 1),
        Err(PageFault::Damaged(blank))
    );
    Ok(())
}
