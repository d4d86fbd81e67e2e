//! A part of a page of cuts that is made anew, and pages of cuts that are split. All points are at 0 in the second dimension, so that each
//! cut is in the first.
use crate::beside::is_right;
use crate::samples::{add, built, pages_in_use, read_cuts};
use ba_tree::KeyTree;
use bw_types::{Point, Tree, point_key};
use cut_parts::BorderTree;
use page_layout::{CutNode, CutPage};
use ports::{MemStage, PageFault, Pages, Stage, StageFault, blank_page};
use std::alloc::Global;
use std::test::Fail;

/// A tree over two dimensions, and its points.
#[derive(Drop)]
struct Grown {
    stage: MemStage,
    tree: Tree,
    points: Vec<Point>,
}

fn point_on(coordinate: u32, number: u32) -> Point {
    Point {
        keys: [point_key(coordinate, number), point_key(0, number), 0],
        version: number / 100,
        weight: u128::from(number) + 1,
    }
}

/// Adds a point at the coordinate.
fn put(alloc: Global, grown: &mut Grown, coordinate: u32) -> Result<(), StageFault> {
    let point = point_on(coordinate, grown.tree.count);
    grown.points.push(point).map_err(|_| StageFault::NoMemory)?;
    add(alloc, &mut grown.stage, false, &mut grown.tree, &point)
}

/// Adds so many points, by turns in each of some parts of the places from one on, which are 1,000 apart. A part has 40 places.
fn fill(
    alloc: Global,
    grown: &mut Grown,
    first: u32,
    parts: u32,
    count: u32,
) -> Result<(), StageFault> {
    let parts = parts.max(1);
    for number in 0..count {
        let place = (number % parts).saturating_mul(40).saturating_add(first);
        let after = (number / parts).saturating_add(1);
        put(
            alloc,
            grown,
            place.saturating_mul(1000).saturating_add(after),
        )?;
    }
    Ok(())
}

/// The nodes from one place to before another; no nodes where there are not as many.
fn nodes_in(cuts: &CutPage, from: usize, to: usize) -> &[CutNode] {
    let nodes = cuts.nodes.as_slice();
    if from <= to && to <= nodes.len() {
        &nodes[from..to]
    } else {
        &[]
    }
}

fn is_in_order(alloc: Global, grown: &mut Grown) -> Result<bool, StageFault> {
    is_right(
        alloc,
        &mut grown.stage,
        false,
        &grown.tree,
        grown.points.as_slice(),
    )
}

/// A page of 64 leaves of 40 points, and 320 points more in the last 16: one more there, and the high side of the page's first cut
/// is made anew.
fn page_of_leaves(alloc: Global) -> Result<Grown, StageFault> {
    let mut stage = MemStage::new(alloc, 100000);
    let mut points = Vec::new(alloc);
    for number in 0..2560_u32 {
        points
            .push(point_on(number * 1000, number))
            .map_err(|_| StageFault::NoMemory)?;
    }
    let tree = built(alloc, &mut stage, false, points.as_mut_slice())?;
    let mut grown = Grown {
        stage,
        tree,
        points,
    };
    fill(alloc, &mut grown, 1920, 16, 320)?;
    Ok(grown)
}

/// Frees a page that is there.
fn free_page<S: Stage>(stage: &mut S, page: u64) -> Result<(), StageFault> {
    let mut bytes = blank_page();
    match stage.get(page, &mut bytes) {
        Err(fault) => Err(StageFault::from(fault)),
        Ok(()) => stage.free(page),
    }
}

/// Frees the leaves and borders of which these nodes tell.
fn free_all(stage: &mut MemStage, nodes: &[CutNode]) -> Result<(), StageFault> {
    for node in nodes {
        match *node {
            CutNode::Entry { child } => free_page(stage, child)?,
            CutNode::Cut {
                dimension: _,
                key: _,
                low: _,
                border,
            } => KeyTree::drop_tree(stage, &border)?,
        }
    }
    Ok(())
}

/// How many pages of a stage are not in the second, if all of these are the same in the third.
fn pages_kept(stage: &mut MemStage, second: &mut MemStage, third: &mut MemStage) -> Option<u32> {
    let mut kept: u32 = 0;
    let mut bytes = blank_page();
    let mut other = blank_page();
    for page in 3..stage.allotted() {
        if stage.get(page, &mut bytes).is_ok() && second.get(page, &mut other).is_err() {
            if third.get(page, &mut other).is_err() || bytes != other {
                return None;
            }
            kept = kept.saturating_add(1);
        }
    }
    Some(kept)
}

#[test]
fn a_side_is_made_anew(rt: HostRuntime) -> Result<(), Fail> {
    let mut before = page_of_leaves(rt.alloc())?;
    let mut apart = page_of_leaves(rt.alloc())?;
    let mut after = page_of_leaves(rt.alloc())?;
    let nodes = read_cuts(&mut before.stage, before.tree.root)?;
    free_all(&mut apart.stage, nodes_in(&nodes, 0, 64))?;
    put(rt.alloc(), &mut after, 1920999)?;
    assert_eq!(rt; after.tree.root, before.tree.root);
    let now = read_cuts(&mut after.stage, after.tree.root)?;
    assert_eq!(rt; (nodes.nodes.len(), now.nodes.len()), (127, 65));
    assert!(rt; nodes_in(&nodes, 0, 64) == nodes_in(&now, 0, 64));
    // The leaves of the low side are 32, and its borders have more pages than that.
    let kept = pages_kept(&mut before.stage, &mut apart.stage, &mut after.stage);
    assert!(rt; kept.unwrap_or(0) > 64);
    assert!(rt; is_in_order(rt.alloc(), &mut after)?);
    Ok(())
}

/// A tree of 5,118 points, of which the last one made all anew: the root is one cut above two pages of 64 leaves of 40 points.
fn two_pages(alloc: Global) -> Result<Grown, StageFault> {
    let mut grown = Grown {
        stage: MemStage::new(alloc, 100000),
        tree: Tree::default(),
        points: Vec::new(alloc),
    };
    for place in 233..3861_u32 {
        put(alloc, &mut grown, place * 1000)?;
    }
    for place in 0..233_u32 {
        put(alloc, &mut grown, (232 - place) * 1000)?;
    }
    for place in 3861..5118_u32 {
        put(alloc, &mut grown, place * 1000)?;
    }
    Ok(grown)
}

/// The last page below the root and what is on both, before an addition that splits this page.
#[derive(Drop)]
struct Before {
    page: u64,
    nodes: CutPage,
    above: CutPage,
    used: u64,
}

fn before_a_split(grown: &mut Grown) -> Result<Before, PageFault> {
    let root = grown.tree.root;
    let above = read_cuts(&mut grown.stage, root)?;
    let Some(CutNode::Entry { child }) = above.nodes.as_slice().last() else {
        return Err(PageFault::Damaged(root));
    };
    let page = *child;
    Ok(Before {
        page,
        nodes: read_cuts(&mut grown.stage, page)?,
        above,
        used: pages_in_use(&mut grown.stage),
    })
}

/// Whether the page's first cut and the entry that is its low side went up, and a leaf alone was given out.
fn an_entry_went_up(grown: &mut Grown, before: &Before) -> Result<bool, PageFault> {
    let above = read_cuts(&mut grown.stage, grown.tree.root)?;
    let kept = read_cuts(&mut grown.stage, before.page)?;
    let begins = before.above.nodes.len().saturating_sub(1);
    Ok(
        before.nodes.nodes.len() == 127
            && above.nodes.len() == begins.saturating_add(3)
            && nodes_in(&above, 0, begins) == nodes_in(&before.above, 0, begins)
            && nodes_in(&above, begins, begins.saturating_add(2)) == nodes_in(&before.nodes, 0, 2)
            && above.nodes.as_slice().last() == Some(&CutNode::Entry { child: before.page })
            && kept.nodes.len() == 127
            && nodes_in(&kept, 0, 124) == nodes_in(&before.nodes, 2, 126)
            && pages_in_use(&mut grown.stage) == before.used.saturating_add(1),
    )
}

/// Whether the page's first cut went up, the page kept its low side of 32 leaves, and its high side went to a new page.
fn two_sides_are_pages(grown: &mut Grown, before: &Before) -> Result<bool, PageFault> {
    let root = grown.tree.root;
    let above = read_cuts(&mut grown.stage, root)?;
    let kept = read_cuts(&mut grown.stage, before.page)?;
    let Some(CutNode::Entry { child }) = above.nodes.as_slice().last() else {
        return Err(PageFault::Damaged(root));
    };
    let made = read_cuts(&mut grown.stage, *child)?;
    let begins = before.above.nodes.len().saturating_sub(1);
    let next = begins.saturating_add(1);
    Ok(
        before.nodes.nodes.len() == 127
            && above.nodes.len() == begins.saturating_add(3)
            && nodes_in(&above, 0, begins) == nodes_in(&before.above, 0, begins)
            && nodes_in(&above, begins, next) == nodes_in(&before.nodes, 0, 1)
            && nodes_in(&above, next, next.saturating_add(1))
                == [CutNode::Entry { child: before.page }].as_slice()
            && kept.nodes.len() == 63
            && nodes_in(&kept, 0, 63) == nodes_in(&before.nodes, 1, 64)
            && made.nodes.len() == 65
            && nodes_in(&made, 0, 62) == nodes_in(&before.nodes, 64, 126)
            && pages_in_use(&mut grown.stage) == before.used.saturating_add(2),
    )
}

/// Where the last four leaves have room at their ends, in the order in which they get points, so that they stay balanced.
const TURNS: [u32; 8] = [
    5116001, 5083001, 5116001, 5076001, 5116001, 5083001, 5116001, 5043001,
];

/// Adds 62 points to the last four leaves: one more at the end, and the last one is split.
fn fill_last(alloc: Global, grown: &mut Grown) -> Result<(), StageFault> {
    for round in 0..8_u32 {
        let mut turn: u32 = 0;
        for coordinate in TURNS {
            if round < 7 || turn < 6 {
                put(
                    alloc,
                    grown,
                    coordinate
                        .saturating_add(round.saturating_mul(8))
                        .saturating_add(turn),
                )?;
            }
            turn = turn.saturating_add(1);
        }
    }
    Ok(())
}

#[test]
fn pages_are_split(rt: HostRuntime) -> Result<(), Fail> {
    let mut grown = two_pages(rt.alloc())?;
    // The low side of the last page comes to be an entry, and then its high side has 64.
    fill(rt.alloc(), &mut grown, 3198, 16, 320)?;
    fill(rt.alloc(), &mut grown, 3838, 32, 799)?;
    assert_eq!(rt; grown.tree.count, 6237);
    let before = before_a_split(&mut grown)?;
    put(rt.alloc(), &mut grown, 5078025)?;
    assert!(rt; an_entry_went_up(&mut grown, &before)?);
    assert!(rt; is_in_order(rt.alloc(), &mut grown)?);
    // Now both its sides have 32.
    fill_last(rt.alloc(), &mut grown)?;
    let before = before_a_split(&mut grown)?;
    put(rt.alloc(), &mut grown, 5116901)?;
    assert!(rt; two_sides_are_pages(&mut grown, &before)?);
    assert!(rt; is_in_order(rt.alloc(), &mut grown)?);
    Ok(())
}
