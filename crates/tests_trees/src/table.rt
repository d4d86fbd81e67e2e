//! Tables in memory, of pages that the tests write.
use arrayvec::ArrayVec;
use bw_types::{Dated, Object, Tree};
use object_table::{find, find_old, free_old, walk, walk_leaf, walk_old};
use page_layout::{LifeEntry, LifeNode, TableEntry, TableNode, TreePage, make_page};
use ports::{MemStage, PageFault, Stage, StageFault};
use std::test::Fail;

// A life that was added in version 1, and withdrawn in version 2 where it is told so.
fn dated(id: u64, life: u32, withdrawn: bool) -> Dated {
    let mut version = 0;
    if withdrawn {
        version = 2;
    }
    Dated {
        object: Object {
            id,
            low: [0; 3],
            high: [0; 3],
            weight: 1,
            coeffs: [0; 27],
        },
        life,
        added: 1,
        add_event: 0,
        withdrawn: version,
        withdraw_event: 0,
    }
}

// A new page of the node.
pub(crate) fn page_of<T: TreePage, S: Stage>(stage: &mut S, node: &T) -> Result<u64, StageFault> {
    if !node.keeps_rules() {
        return Err(StageFault::NoMemory);
    }
    make_page(stage, node)
}

// A leaf of first lives.
pub(crate) fn leaf<S: Stage>(stage: &mut S, from: u64, to: u64) -> Result<u64, StageFault> {
    let mut objects = ArrayVec::new();
    for id in from..to {
        if !objects.is_full() {
            objects.push(dated(id, 1, false));
        }
    }
    page_of(stage, &LifeNode::Leaf { objects })
}

// An index page above two leaves.
pub(crate) fn index<S: Stage>(
    stage: &mut S,
    first: u64,
    low: (u64, u32),
    second: u64,
) -> Result<u64, StageFault> {
    let mut entries = ArrayVec::new();
    entries.push(LifeEntry {
        low_id: 0,
        low_life: 0,
        child: first,
    });
    entries.push(LifeEntry {
        low_id: low.0,
        low_life: low.1,
        child: second,
    });
    page_of(stage, &LifeNode::Index { level: 2, entries })
}

pub(crate) fn table_of(root: u64, levels: u8, count: u32) -> Tree {
    Tree {
        root,
        levels,
        count,
        changes: 0,
        last: 0,
    }
}

// Whether a walk gives the first lives of these ids, and no more.
fn walks(stage: &mut MemStage, table: &Tree, count: u64) -> Result<bool, PageFault> {
    let mut after = None;
    for id in 0..count {
        if walk(stage, table, after)? != Some(dated(id, 1, false)) {
            return Ok(false);
        }
        after = Some((id, 1));
    }
    Ok(walk(stage, table, after)?.is_none())
}

// Whether a walk leaf by leaf gives the first lives of these ids, and no more.
fn walks_by_leaves(stage: &mut MemStage, table: &Tree, count: u64) -> Result<bool, PageFault> {
    let mut after = None;
    let mut next = 0;
    for _ in 0..=count {
        let found = walk_leaf(stage, table, after)?;
        if found.is_empty() {
            return Ok(next == count);
        }
        for life in found.as_slice() {
            if next >= count || *life != dated(next, 1, false) {
                return Ok(false);
            }
            after = Some((next, 1));
            next += 1;
        }
    }
    Ok(false)
}

// The first lives of these ids, as many as a leaf takes.
fn first_lives(from: u64, to: u64) -> ArrayVec<Dated, 14> {
    let mut lives = ArrayVec::new();
    for id in from..to {
        if !lives.is_full() {
            lives.push(dated(id, 1, false));
        }
    }
    lives
}

#[test]
fn sixteen_objects(rt: HostRuntime) -> Result<(), Fail> {
    let mut stage = MemStage::new(rt.alloc(), 10);
    let first = leaf(&mut stage, 0, 7)?;
    let second = leaf(&mut stage, 7, 16)?;
    let root = index(&mut stage, first, (7, 1), second)?;
    let table = table_of(root, 2, 16);
    assert!(rt; walks(&mut stage, &table, 16)?);
    for id in 0..16u64 {
        assert_eq!(rt; find(&mut stage, &table, id), Ok(Some(dated(id, 1, false))));
    }
    assert_eq!(rt; find(&mut stage, &table, 16), Ok(None));
    assert_eq!(rt; find(&mut stage, &table, u64::MAX), Ok(None));
    Ok(())
}

#[test]
fn leaf_by_leaf(rt: HostRuntime) -> Result<(), Fail> {
    let mut stage = MemStage::new(rt.alloc(), 10);
    let first = leaf(&mut stage, 0, 7)?;
    let second = leaf(&mut stage, 7, 21)?;
    let root = index(&mut stage, first, (7, 1), second)?;
    let table = table_of(root, 2, 21);
    assert!(rt; walks_by_leaves(&mut stage, &table, 21)?);
    assert_eq!(rt; walk_leaf(&mut stage, &table, None), Ok(first_lives(0, 7)));
    // From the middle of a leaf on there is the rest of it, and from its end on the next leaf.
    assert_eq!(rt;
        walk_leaf(&mut stage, &table, Some((3, 1))),
        Ok(first_lives(4, 7))
    );
    assert_eq!(rt;
        walk_leaf(&mut stage, &table, Some((6, 1))),
        Ok(first_lives(7, 21))
    );
    assert_eq!(rt;
        walk_leaf(&mut stage, &table, Some((20, 1))),
        Ok(first_lives(0, 0))
    );
    // A table without pages.
    let empty = table_of(0, 0, 0);
    assert_eq!(rt; walk_leaf(&mut stage, &empty, None), Ok(first_lives(0, 0)));
    Ok(())
}

#[test]
fn an_id_lives_again(rt: HostRuntime) -> Result<(), Fail> {
    let mut stage = MemStage::new(rt.alloc(), 10);
    let mut early = ArrayVec::new();
    early.push(dated(3, 1, true));
    early.push(dated(3, 2, false));
    early.push(dated(5, 1, true));
    early.push(dated(5, 2, true));
    let first = page_of(&mut stage, &LifeNode::Leaf { objects: early })?;
    let mut late = ArrayVec::new();
    late.push(dated(5, 3, false));
    late.push(dated(9, 1, false));
    let second = page_of(&mut stage, &LifeNode::Leaf { objects: late })?;
    let root = index(&mut stage, first, (5, 3), second)?;
    let table = table_of(root, 2, 6);
    assert_eq!(rt; find(&mut stage, &table, 3), Ok(Some(dated(3, 2, false))));
    assert_eq!(rt; find(&mut stage, &table, 5), Ok(Some(dated(5, 3, false))));
    assert_eq!(rt; find(&mut stage, &table, 4), Ok(None));
    assert_eq!(rt;
        walk(&mut stage, &table, Some((3, 1))),
        Ok(Some(dated(3, 2, false)))
    );
    assert_eq!(rt;
        walk(&mut stage, &table, Some((5, 2))),
        Ok(Some(dated(5, 3, false)))
    );
    assert_eq!(rt;
        walk(&mut stage, &table, Some((5, 3))),
        Ok(Some(dated(9, 1, false)))
    );
    assert_eq!(rt; walk(&mut stage, &table, Some((9, 1))), Ok(None));
    Ok(())
}

// A leaf of the earlier form.
fn old_leaf<S: Stage>(stage: &mut S, from: u64, to: u64) -> Result<u64, StageFault> {
    let mut objects = ArrayVec::new();
    for id in from..to {
        if !objects.is_full() {
            objects.push(dated(id, 1, false));
        }
    }
    page_of(stage, &TableNode::Leaf { objects })
}

#[test]
fn the_earlier_form(rt: HostRuntime) -> Result<(), Fail> {
    let mut stage = MemStage::new(rt.alloc(), 10);
    let first = old_leaf(&mut stage, 0, 8)?;
    let second = old_leaf(&mut stage, 10, 20)?;
    let mut entries = ArrayVec::new();
    entries.push(TableEntry {
        low: 0,
        child: first,
    });
    entries.push(TableEntry {
        low: 9,
        child: second,
    });
    let root = page_of(&mut stage, &TableNode::Index { level: 2, entries })?;
    let table = table_of(root, 2, 18);
    assert_eq!(rt;
        find_old(&mut stage, &table, 7),
        Ok(Some(dated(7, 1, false)))
    );
    assert_eq!(rt; find_old(&mut stage, &table, 9), Ok(None));
    assert_eq!(rt;
        find_old(&mut stage, &table, 19),
        Ok(Some(dated(19, 1, false)))
    );
    assert_eq!(rt;
        walk_old(&mut stage, &table, None),
        Ok(Some(dated(0, 1, false)))
    );
    assert_eq!(rt;
        walk_old(&mut stage, &table, Some(7)),
        Ok(Some(dated(10, 1, false)))
    );
    assert_eq!(rt; walk_old(&mut stage, &table, Some(19)), Ok(None));
    assert_eq!(rt; find(&mut stage, &table, 7), Err(PageFault::Damaged(root)));
    free_old(&mut stage, &table)?;
    assert_eq!(rt;
        free_old(&mut stage, &table_of(first, 1, 8)),
        Err(StageFault::Damaged(first))
    );
    assert_eq!(rt;
        free_old(&mut stage, &table_of(second, 1, 10)),
        Err(StageFault::Damaged(second))
    );
    assert_eq!(rt;
        free_old(&mut stage, &table),
        Err(StageFault::Damaged(root))
    );
    Ok(())
}

#[test]
fn damage_is_found(rt: HostRuntime) -> Result<(), Fail> {
    let mut stage = MemStage::new(rt.alloc(), 10);
    let first = leaf(&mut stage, 0, 7)?;
    let shared = index(&mut stage, first, (7, 1), first)?;
    let table = table_of(shared, 2, 14);
    // The page stands for the keys of the first entry, and not for those of the second.
    assert_eq!(rt; find(&mut stage, &table, 3), Ok(Some(dated(3, 1, false))));
    assert_eq!(rt; find(&mut stage, &table, 8), Err(PageFault::Damaged(first)));
    assert_eq!(rt;
        walk(&mut stage, &table, Some((6, 1))),
        Err(PageFault::Damaged(first))
    );
    assert_eq!(rt;
        walk_leaf(&mut stage, &table, Some((6, 1))),
        Err(PageFault::Damaged(first))
    );
    // A root of another level, and a page that is missing.
    assert_eq!(rt;
        find(&mut stage, &table_of(shared, 3, 14), 3),
        Err(PageFault::Damaged(shared))
    );
    assert_eq!(rt;
        find(&mut stage, &table_of(9, 1, 1), 3),
        Err(PageFault::Damaged(9))
    );
    // A table without pages.
    assert_eq!(rt; find(&mut stage, &table_of(0, 0, 0), 3), Ok(None));
    assert_eq!(rt; walk(&mut stage, &table_of(0, 0, 0), None), Ok(None));
    Ok(())
}
