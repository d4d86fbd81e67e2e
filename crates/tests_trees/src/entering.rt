//! Tables that entering makes, and what it refuses.
ghost use Rattle.std.specs.Prelude.{◌≡◌, ◌≤◌, IsTrue};
ghost use Rattle.page_layout.specs.Dated.{by_life_fits};

use crate::table::{index, leaf, page_of, table_of};
use arrayvec::ArrayVec;
use bw_types::{Dated, Object, Tree};
use object_table::{enter, find, mark_withdrawn, walk};
use page_layout::{LifeEntry, LifeNode, read_page};
use ports::{
    FREE_PAGE, FailingStage, MemStage, Page, PageFault, Pages, Stage, StageFault, blank_page,
};
use std::alloc::Global;
use std::test::Fail;

// A life that was added in version 1 by an event, and lives on.
fn living(id: u64, life: u32, event: u32) -> Dated
    requires { 1 ≤ life }
    ensures { IsTrue (by_life_fits result) }
{
    Dated {
        object: Object {
            id,
            low: [0; 3],
            high: [0; 3],
            weight: 1,
            coeffs: [0; 27],
        },
        life,
        added: 1,
        add_event: event,
        withdrawn: 0,
        withdraw_event: 0,
    }
}

fn withdrawn(life: Dated, version: u32, event: u32) -> Dated {
    Dated {
        withdrawn: version,
        withdraw_event: event,
        ..life
    }
}

// Enters first lives of the ids from 0 on.
fn enter_first<S: Stage>(stage: &mut S, table: &mut Tree, count: u32) -> Result<(), StageFault> {
    for id in 0..count {
        enter(stage, table, &living(u64::from(id), 1, id))?;
    }
    Ok(())
}

// How many objects or entries the node has.
fn count_in(stage: &mut MemStage, page: u64) -> Result<usize, PageFault> {
    let node: LifeNode = read_page(stage, page)?;
    match node {
        LifeNode::Leaf { objects } => Ok(objects.len()),
        LifeNode::Index { level: _, entries } => Ok(entries.len()),
    }
}

// The two children of a table's root, where the second begins with this id and its first life.
fn two_children(
    stage: &mut MemStage,
    table: &Tree,
    id: u64,
) -> Result<Option<(u64, u64)>, PageFault> {
    let node: LifeNode = read_page(stage, table.root)?;
    if let LifeNode::Index { level, entries } = node {
        if let [first, second] = entries.as_slice() {
            let lows = first.low_id == 0 && first.low_life == 0;
            let begins = second.low_id == id && second.low_life == 1;
            if level == table.levels && lows && begins {
                return Ok(Some((first.child, second.child)));
            }
        }
    }
    Ok(None)
}

#[test]
fn sixteen_are_entered(rt: HostRuntime) -> Result<(), Fail> {
    let mut stage = MemStage::new(rt.alloc(), 10);
    let mut table = Tree::default();
    enter_first(&mut stage, &mut table, 16)?;
    assert_eq!(rt; (table.levels, table.count, stage.allotted()), (2, 16, 6));
    let Some((first, second)) = two_children(&mut stage, &table, 7)? else {
        panic!(rt; "other children");
    };
    assert_eq!(rt; count_in(&mut stage, first), Ok(7));
    assert_eq!(rt; count_in(&mut stage, second), Ok(9));
    let mut after = None;
    for id in 0..16u32 {
        let life = living(u64::from(id), 1, id);
        assert_eq!(rt; walk(&mut stage, &table, after), Ok(Some(life)));
        after = Some((u64::from(id), 1));
    }
    assert_eq!(rt; walk(&mut stage, &table, after), Ok(None));
    assert_eq!(rt; find(&mut stage, &table, 16), Ok(None));
    mark_withdrawn(&mut stage, &table, 3, 2, 16)?;
    assert_eq!(rt;
        find(&mut stage, &table, 3),
        Ok(Some(withdrawn(living(3, 1, 3), 2, 16)))
    );
    assert_eq!(rt; find(&mut stage, &table, 4), Ok(Some(living(4, 1, 4))));
    Ok(())
}

#[test]
fn ids_live_again(rt: HostRuntime) -> Result<(), Fail> {
    let mut stage = MemStage::new(rt.alloc(), 100);
    let mut table = Tree::default();
    enter_first(&mut stage, &mut table, 10)?;
    // Id 5 lives 40 times, over several leaves.
    for life in 2..41u32 {
        mark_withdrawn(&mut stage, &table, 5, 2, life)?;
        enter(&mut stage, &mut table, &living(5, life, life))?;
        assert_eq!(rt;
            find(&mut stage, &table, 5),
            Ok(Some(living(5, life, life)))
        );
    }
    assert_eq!(rt; (table.levels, table.count), (2, 49));
    assert_eq!(rt;
        walk(&mut stage, &table, Some((5, 17))),
        Ok(Some(withdrawn(living(5, 18, 18), 2, 19)))
    );
    assert_eq!(rt;
        walk(&mut stage, &table, Some((5, 40))),
        Ok(Some(living(6, 1, 6)))
    );
    assert_eq!(rt; find(&mut stage, &table, 4), Ok(Some(living(4, 1, 4))));
    // A life that is there, and withdrawals that cannot be.
    let before = table;
    assert!(rt; is_damaged(enter(&mut stage, &mut table, &living(5, 17, 0))));
    assert_eq!(rt; table, before);
    mark_withdrawn(&mut stage, &table, 5, 2, 7)?;
    assert!(rt; is_damaged(mark_withdrawn(&mut stage, &table, 5, 3, 7)));
    assert!(rt; is_damaged(mark_withdrawn(&mut stage, &table, 4, 1, 7)));
    assert!(rt; is_damaged(mark_withdrawn(&mut stage, &table, 77, 2, 7)));
    Ok(())
}

fn is_damaged(answer: Result<(), StageFault>) -> bool {
    match answer {
        Err(StageFault::Damaged(_)) => true,
        _ => false,
    }
}

const MANY: u32 = 40000;

// The numbers below 40,000, each once, in an order that looks random.
fn shuffled(place: u32) -> u32 {
    (place % MANY) * 7919 % MANY
}

// Whether a walk gives the ids below 40,000 in order; each third has a second life.
fn walks_all(stage: &mut MemStage, table: &Tree) -> Result<bool, PageFault> {
    let mut after = None;
    for id in 0..MANY {
        let id = u64::from(id);
        for life in 1..3u32 {
            if life == 1 || id % 3 == 0 {
                match walk(stage, table, after)? {
                    Some(found) if found.object.id == id && found.life == life => {}
                    _ => return Ok(false),
                }
                after = Some((id, life));
            }
        }
    }
    Ok(walk(stage, table, after)?.is_none())
}

// Whether each id has the last life that it should have.
fn finds_all(stage: &mut MemStage, table: &Tree) -> Result<bool, PageFault> {
    for place in 0..MANY {
        let id = shuffled(place);
        let mut expected = living(u64::from(id), 1, place);
        if id % 3 == 0 {
            expected = living(u64::from(id), 2, place);
        }
        if find(stage, table, u64::from(id))? != Some(expected) {
            return Ok(false);
        }
    }
    Ok(find(stage, table, u64::from(MANY))?.is_none())
}

#[test]
fn forty_thousand_in_any_order(rt: HostRuntime) -> Result<(), Fail> {
    let mut stage = MemStage::new(rt.alloc(), 100000);
    let mut table = Tree::default();
    for place in 0..MANY {
        let id = u64::from(shuffled(place));
        enter(&mut stage, &mut table, &living(id, 1, place))?;
    }
    for place in 0..MANY {
        let id = shuffled(place);
        if id % 3 == 0 {
            mark_withdrawn(&mut stage, &table, u64::from(id), 2, place)?;
            enter(&mut stage, &mut table, &living(u64::from(id), 2, place))?;
        }
    }
    assert_eq!(rt; (table.levels, table.count), (3, 53334));
    assert!(rt; finds_all(&mut stage, &table)?);
    assert!(rt; walks_all(&mut stage, &table)?);
    // A find gets a page a level.
    let gets = stage.gets();
    assert!(rt; find(&mut stage, &table, 12345)?.is_some());
    assert_eq!(rt; stage.gets().saturating_sub(gets), 3);
    Ok(())
}

// Whether each call that changes a table finds the page damaged.
fn are_refused(stage: &mut MemStage, root: u64, levels: u8, id: u64, page: u64) -> bool {
    let mut table = table_of(root, levels, 20);
    let before = table;
    let entered = enter(stage, &mut table, &living(id, 9, 1));
    let marked = mark_withdrawn(stage, &table, id, 2, 1);
    entered == Err(StageFault::Damaged(page))
        && marked == Err(StageFault::Damaged(page))
        && table == before
}

// A new page with these bytes.
fn page_with(stage: &mut MemStage, bytes: &Page) -> Result<u64, StageFault> {
    if bytes[0] == FREE_PAGE {
        return Err(StageFault::NoMemory);
    }
    let page = stage.allot()?;
    stage.put(page, bytes)?;
    Ok(page)
}

#[test]
fn damage_is_named(rt: HostRuntime) -> Result<(), Fail> {
    let mut stage = MemStage::new(rt.alloc(), 100);
    let first = leaf(&mut stage, 0, 7)?;
    // One leaf under two entries, a cycle, a page that is missing, and noise.
    let shared = index(&mut stage, first, (7, 1), first)?;
    assert!(rt; are_refused(&mut stage, shared, 2, 8, first));
    let cycle = index(&mut stage, 7, (7, 1), 5)?;
    assert_eq!(rt; cycle, 5);
    assert!(rt; are_refused(&mut stage, cycle, 2, 8, cycle));
    assert!(rt; are_refused(&mut stage, cycle, 2, 3, 7));
    let mut bytes = blank_page();
    for i in 0..4096usize {
        bytes[i] = (i * i % 251) as u8;
    }
    bytes[0] = 10;
    let noise = page_with(&mut stage, &bytes)?;
    assert!(rt; are_refused(&mut stage, noise, 1, 3, noise));
    // A root of another level.
    assert!(rt; are_refused(&mut stage, shared, 3, 3, shared));
    // A table that has as many objects as it may, and one without pages.
    let mut full = table_of(first, 1, 1 << 28);
    assert_eq!(rt;
        enter(&mut stage, &mut full, &living(8, 1, 1)),
        Err(StageFault::Damaged(first))
    );
    assert_eq!(rt;
        mark_withdrawn(&mut stage, &Tree::default(), 3, 2, 1),
        Err(StageFault::Damaged(0))
    );
    Ok(())
}

// A full index page, whose last entry has the child.
fn full_index(stage: &mut MemStage, level: u8, from: u64, child: u64) -> Result<u64, StageFault> {
    let mut entries = ArrayVec::new();
    for place in 0..200u64 {
        if !entries.is_full() {
            entries.push(LifeEntry {
                low_id: from.saturating_add(place),
                low_life: 1,
                child,
            });
        }
    }
    page_of(stage, &LifeNode::Index { level, entries })
}

#[test]
fn a_full_node_is_halved(rt: HostRuntime) -> Result<(), Fail> {
    let mut stage = MemStage::new(rt.alloc(), 100);
    let page = leaf(&mut stage, 1000, 1014)?;
    let mut small = table_of(page, 1, 14);
    enter(&mut stage, &mut small, &living(1014, 1, 1))?;
    assert_eq!(rt; (small.levels, small.count), (2, 15));
    let Some((first, second)) = two_children(&mut stage, &small, 1007)? else {
        panic!(rt; "other leaves");
    };
    assert_eq!(rt; count_in(&mut stage, first), Ok(7));
    assert_eq!(rt; count_in(&mut stage, second), Ok(8));
    // An index page of 200 entries, whose last child is halved.
    let page = leaf(&mut stage, 1000, 1014)?;
    let root = full_index(&mut stage, 2, 0, page)?;
    let mut large = table_of(root, 2, 14);
    enter(&mut stage, &mut large, &living(1014, 1, 1))?;
    assert_eq!(rt; (large.levels, large.count), (3, 15));
    let Some((first, second)) = two_children(&mut stage, &large, 100)? else {
        panic!(rt; "other index pages");
    };
    assert_eq!(rt; count_in(&mut stage, first), Ok(100));
    assert_eq!(rt; count_in(&mut stage, second), Ok(101));
    Ok(())
}

#[test]
fn a_root_of_level_16_is_not_split(rt: HostRuntime) -> Result<(), Fail> {
    let mut stage = MemStage::new(rt.alloc(), 100);
    let mut page = leaf(&mut stage, 16000, 16014)?;
    for level in 2..17u8 {
        let from = 16000u64.saturating_sub(u64::from(level) * 1000);
        page = full_index(&mut stage, level, from, page)?;
    }
    let mut table = table_of(page, 16, 14);
    let before = table;
    assert_eq!(rt;
        enter(&mut stage, &mut table, &living(16014, 1, 1)),
        Err(StageFault::Damaged(page))
    );
    assert_eq!(rt; table, before);
    Ok(())
}

// A table whose one leaf is full, on a stage with this limit.
fn full_leaf(
    alloc: Global,
    limit: u64,
    table: &mut Tree,
) -> Result<FailingStage<MemStage>, StageFault>
    requires { (3 ≤ limit) × (limit ≤ 4294967295) }
{
    let mut stage = MemStage::new(alloc, limit);
    enter_first(&mut stage, table, 14)?;
    Ok(FailingStage::over(stage))
}

// How a split of the root is refused where this call of the stage fails, counted from 0; the table value
// stays.
fn refused_at(alloc: Global, calls: u64, fault: StageFault) -> Result<bool, StageFault> {
    let mut table = Tree::default();
    let mut stage = full_leaf(alloc, 10, &mut table)?;
    let before = table;
    stage.calls_left = calls;
    let entered = enter(&mut stage, &mut table, &living(14, 1, 14));
    Ok(entered == Err(fault) && table == before)
}

#[test]
fn each_call_of_the_stage_fails(rt: HostRuntime) -> Result<(), Fail> {
    // The leaf is got, a second page and a root are given out, and each of the three is put.
    assert!(rt; refused_at(rt.alloc(), 0, StageFault::Disk)?);
    assert!(rt; refused_at(rt.alloc(), 1, StageFault::NoMemory)?);
    assert!(rt; refused_at(rt.alloc(), 2, StageFault::Disk)?);
    assert!(rt; refused_at(rt.alloc(), 3, StageFault::Disk)?);
    assert!(rt; refused_at(rt.alloc(), 4, StageFault::NoMemory)?);
    assert!(rt; refused_at(rt.alloc(), 5, StageFault::Disk)?);
    let mut table = Tree::default();
    let mut stage = full_leaf(rt.alloc(), 10, &mut table)?;
    for calls in 0..2u64 {
        stage.calls_left = calls;
        assert_eq!(rt;
            mark_withdrawn(&mut stage, &table, 3, 2, 1),
            Err(StageFault::Disk)
        );
    }
    mark_withdrawn(&mut stage, &table, 3, 2, 1)?;
    Ok(())
}

#[test]
fn a_split_meets_the_limit(rt: HostRuntime) -> Result<(), Fail> {
    for limit in 4..6u64 {
        let mut table = Tree::default();
        let mut stage = full_leaf(rt.alloc(), limit, &mut table)?;
        let before = table;
        assert_eq!(rt;
            enter(&mut stage, &mut table, &living(14, 1, 14)),
            Err(StageFault::PageLimit(limit))
        );
        assert_eq!(rt; table, before);
    }
    Ok(())
}
