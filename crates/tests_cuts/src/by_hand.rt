//! Trees of cuts by hand: a leaf of one point, and a cut with a border.
use crate::samples::{GREATEST, sum};
use arrayvec::ArrayVec;
use ba_tree::KeyTree;
use bw_types::{Point, Tree};
use cut_parts::{BorderTree, make_leaf};
use page_layout::{CutNode, CutPage, Spelled, make_page};
use ports::{MemStage, PageFault, Stage, StageFault};
use std::alloc::Global;
use std::test::Fail;

fn point(first: u32, second: u32, weight: u128) -> Point {
    Point {
        keys: [u64::from(first), u64::from(second), 0],
        version: 1,
        weight,
    }
}

fn tree_of(root: u64, levels: u8, count: u32) -> Tree {
    Tree {
        root,
        levels,
        count,
        changes: 0,
        last: 0,
    }
}

/// The sum over two dimensions.
fn sum_at(
    stage: &mut MemStage,
    tree: &Tree,
    first: u64,
    second: u64,
    version: u32,
) -> Result<u128, PageFault> {
    sum(stage, false, tree, &[first, second, 0], version)
}

#[test]
fn a_leaf_of_one_point(rt: HostRuntime) -> Result<(), Fail> {
    let mut stage = MemStage::new(rt.alloc(), 10);
    let page = make_leaf(&mut stage, &[point(5, 7, 3)])?;
    let tree = tree_of(page, 1, 1);
    assert_eq!(rt; sum_at(&mut stage, &tree, 5, 7, 1), Ok(3));
    assert_eq!(rt; sum_at(&mut stage, &tree, 4, 9, 1), Ok(0));
    assert_eq!(rt; sum_at(&mut stage, &tree, 5, 7, 0), Ok(0));
    let wrong = tree_of(page, 1, 2);
    assert_eq!(rt;
        sum_at(&mut stage, &wrong, 5, 7, 1),
        Err(PageFault::Damaged(page))
    );
    Ok(())
}

fn add_to_border(
    alloc: Global,
    stage: &mut MemStage,
    tree: &mut Tree,
    point: &Point,
) -> Result<(), StageFault> {
    let [first, _second, _third] = point.keys;
    if first > GREATEST || point.version >= u32::MAX {
        return Err(StageFault::Damaged(0));
    }
    KeyTree::add(alloc, stage, tree, point)
}

/// A border of 65 points of weight 9, at 7 and from 100 on.
fn border(alloc: Global, stage: &mut MemStage) -> Result<Tree, StageFault> {
    let mut tree = Tree::default();
    add_to_border(alloc, stage, &mut tree, &point(7, 0, 9))?;
    for key in 100..164u32 {
        add_to_border(alloc, stage, &mut tree, &point(key, 0, 9))?;
    }
    Ok(tree)
}

/// A leaf of 64 points of weight 4, the first at 20 and 9.
fn leaf(stage: &mut MemStage) -> Result<u64, StageFault> {
    let mut points = [Point::default(); 64];
    let mut place: u32 = 0;
    for kept in points.iter_mut() {
        *kept = point(place.saturating_add(20), place.saturating_add(9), 4);
        place = place.saturating_add(1);
    }
    make_leaf(stage, &points)
}

/// A page of a cut at 10 in the first dimension, with 65 points on its low side.
fn page_of_cut(stage: &mut MemStage, border: Tree, low: u64, high: u64) -> Result<u64, StageFault> {
    let mut nodes = ArrayVec::new();
    nodes.push(CutNode::Cut {
        dimension: 0,
        key: 10,
        low: 65,
        border,
    });
    nodes.push(CutNode::Entry { child: low });
    nodes.push(CutNode::Entry { child: high });
    let page = CutPage { nodes };
    if !page.keeps_rules() {
        return Err(StageFault::Damaged(0));
    }
    make_page(stage, &page)
}

// The low side is not read from the cut on, and no border below it.
#[test]
fn a_cut_with_a_border(rt: HostRuntime) -> Result<(), Fail> {
    let mut stage = MemStage::new(rt.alloc(), 100);
    let border = border(rt.alloc(), &mut stage)?;
    let zeros = stage.allot()?;
    let high = leaf(&mut stage)?;
    let tree = tree_of(page_of_cut(&mut stage, border, zeros, high)?, 2, 129);
    assert_eq!(rt; sum_at(&mut stage, &tree, 20, 9, 1), Ok(13));
    assert_eq!(rt;
        sum_at(&mut stage, &tree, 5, 9, 1),
        Err(PageFault::Damaged(zeros))
    );
    Ok(())
}
