//! Tables of the earlier form, of pages that the tests write, and what they become.
use arrayvec::ArrayVec;
use bw_types::{Dated, Object, Tree};
use object_table::{renew, walk};
use page_layout::{Spelled, TableEntry, TableNode, make_page};
use ports::{FREE_PAGE, MemStage, PageFault, Pages, Stage, StageFault};
use std::test::Fail;

// The object of this place in a table. Every other one was withdrawn.
fn object(place: u32) -> Dated {
    let mut withdrawn = 0;
    if place % 2 == 1 {
        withdrawn = 2;
    }
    Dated {
        object: Object {
            id: 3 * u64::from(place),
            low: [place; 3],
            high: [place; 3],
            weight: 5,
            coeffs: [0; 27],
        },
        life: 1,
        added: 1,
        add_event: place,
        withdrawn,
        withdraw_event: withdrawn,
    }
}

// A new page of the node.
fn page_of<S: Stage>(stage: &mut S, node: &TableNode) -> Result<u64, StageFault> {
    if !node.keeps_rules() {
        return Err(StageFault::NoMemory);
    }
    make_page(stage, node)
}

fn leaf<S: Stage>(stage: &mut S, from: u32, to: u32) -> Result<u64, StageFault> {
    let mut objects = ArrayVec::new();
    for place in from..to {
        if !objects.is_full() {
            objects.push(object(place));
        }
    }
    page_of(stage, &TableNode::Leaf { objects })
}

// A page above leaves of 15 objects each.
fn index<S: Stage>(stage: &mut S, count: u32) -> Result<u64, StageFault> {
    let mut entries = ArrayVec::new();
    for part in 0..count / 15 {
        let from = 15 * part;
        let child = leaf(stage, from, from + 15)?;
        if !entries.is_full() {
            entries.push(TableEntry {
                low: 3 * u64::from(from),
                child,
            });
        }
    }
    page_of(stage, &TableNode::Index { level: 2, entries })
}

// A table by ids: without pages, one leaf, or leaves of 15 objects each.
fn table_by_ids<S: Stage>(stage: &mut S, count: u32) -> Result<Tree, StageFault> {
    if count == 0 {
        return Ok(Tree::default());
    }
    if count <= 15 {
        let root = leaf(stage, 0, count)?;
        return Ok(table_of(root, 1, count));
    }
    let root = index(stage, count)?;
    Ok(table_of(root, 2, count))
}

fn table_of(root: u64, levels: u8, count: u32) -> Tree {
    Tree {
        root,
        levels,
        count,
        changes: 0,
        last: 0,
    }
}

// Whether a walk gives these objects, and no more.
fn walks(stage: &mut MemStage, table: &Tree, count: u32) -> Result<bool, PageFault> {
    let mut after = None;
    for place in 0..count {
        if walk(stage, table, after)? != Some(object(place)) {
            return Ok(false);
        }
        after = Some((3 * u64::from(place), 1));
    }
    Ok(walk(stage, table, after)?.is_none())
}

// Whether none of these pages is there.
fn are_gone(stage: &mut MemStage, from: u64, to: u64) -> bool {
    for page in from..to {
        let mut buf = [FREE_PAGE; 4096];
        if stage.get(page, &mut buf) != Err(PageFault::Damaged(page)) {
            return false;
        }
    }
    true
}

#[test]
fn the_objects_stay_and_the_old_pages_go(rt: HostRuntime) -> Result<(), Fail> {
    for count in [0, 1, 9, 300] {
        let mut stage = MemStage::new(rt.alloc(), 100);
        let old = table_by_ids(&mut stage, count)?;
        let end = stage.allotted();
        let table = renew(&mut stage, &old)?;
        assert_eq!(rt; table.count, count);
        assert!(rt; walks(&mut stage, &table, count)?);
        assert!(rt; are_gone(&mut stage, 3, end));
    }
    Ok(())
}

#[test]
fn an_empty_table_takes_no_page(rt: HostRuntime) -> Result<(), Fail> {
    let mut stage = MemStage::new(rt.alloc(), 3);
    assert_eq!(rt; renew(&mut stage, &Tree::default()), Ok(Tree::default()));
    Ok(())
}

#[test]
fn refusals(rt: HostRuntime) -> Result<(), Fail> {
    // The old leaf is there until the last object is entered.
    let mut stage = MemStage::new(rt.alloc(), 4);
    let old = table_by_ids(&mut stage, 9)?;
    assert_eq!(rt; renew(&mut stage, &old), Err(StageFault::PageLimit(4)));

    // Fewer objects than are told, and a page that is missing.
    let mut stage = MemStage::new(rt.alloc(), 100);
    let old = table_by_ids(&mut stage, 9)?;
    assert_eq!(rt;
        renew(&mut stage, &table_of(old.root, 1, 10)),
        Err(StageFault::Damaged(old.root))
    );
    assert_eq!(rt;
        renew(&mut stage, &table_of(99, 1, 9)),
        Err(StageFault::Damaged(99))
    );
    Ok(())
}
