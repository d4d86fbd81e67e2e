//! Points in rows, and of two places by turns: the shapes that trees of cuts come to have.
use crate::samples::{
    add, built, collected, drop_all, pages_in_use, point_at, read_cuts, row, total,
};
use crate::walker::cuts_of;
use ba_tree::PlaneTree;
use bw_types::Tree;
use cut_parts::{BorderTree, read_leaf};
use page_layout::{CutNode, CutPage};
use ports::{MemStage, PageFault, StageFault};
use std::alloc::Global;
use std::test::Fail;

/// A node in few words: of a cut its dimension, low and the count of its border, and of an entry how many points its leaf has.
#[derive(Clone, Copy, Debug, PartialEq, Eq)]
enum Kind {
    Cut(u8, u32, u32),
    Leaf(usize),
}

fn points_on(stage: &mut MemStage, page: u64) -> Result<usize, PageFault> {
    for count in 1..65u32 {
        if let Ok(leaf) = read_leaf(stage, page, count) {
            return Ok(leaf.points.len());
        }
    }
    Err(PageFault::Damaged(page))
}

fn kind_of(stage: &mut MemStage, node: &CutNode) -> Result<Kind, PageFault> {
    match node {
        CutNode::Entry { child } => Ok(Kind::Leaf(points_on(stage, *child)?)),
        CutNode::Cut {
            dimension,
            key: _,
            low,
            border,
        } => Ok(Kind::Cut(*dimension, *low, border.count)),
    }
}

/// Whether the nodes on the page, which is above leaves alone, are these.
fn holds(stage: &mut MemStage, page: u64, kinds: &[Kind]) -> Result<bool, PageFault> {
    let cuts: CutPage = read_cuts(stage, page)?;
    if cuts.nodes.len() != kinds.len() {
        return Ok(false);
    }
    for (node, kind) in cuts.nodes.as_slice().iter().zip(kinds) {
        if kind_of(stage, node)? != *kind {
            return Ok(false);
        }
    }
    Ok(true)
}

/// The border of the first cut on the page.
fn first_border(stage: &mut MemStage, page: u64) -> Result<Tree, PageFault> {
    match read_cuts(stage, page)?.nodes.as_slice().first() {
        Some(
            CutNode::Cut {
                dimension: _,
                key: _,
                low: _,
                border,
            },
        ) => Ok(*border),
        _ => Err(PageFault::Damaged(page)),
    }
}

/// Whether the root is one cut in dimension 0 with the empty border, above leaves of so many points.
fn is_one_cut(stage: &mut MemStage, tree: &Tree, low: u32, high: u32) -> Result<bool, PageFault> {
    let kinds = [
        Kind::Cut(0, low, 0),
        Kind::Leaf(low as usize),
        Kind::Leaf(high as usize),
    ];
    Ok(holds(stage, tree.root, &kinds)? && first_border(stage, tree.root)? == Tree::default())
}

#[test]
fn no_points_are_the_empty_tree(rt: HostRuntime) -> Result<(), Fail> {
    for three in [false, true] {
        let mut stage = MemStage::new(rt.alloc(), 100000);
        let first = stage.allotted();
        let mut points = row(rt.alloc(), 0)?;
        let tree = built(rt.alloc(), &mut stage, three, points.as_mut_slice())?;
        assert_eq!(rt; tree, Tree::default());
        assert_eq!(rt; stage.allotted(), first);
        assert_eq!(rt; collected(rt.alloc(), &mut stage, three, &tree)?.len(), 0);
    }
    Ok(())
}

#[test]
fn a_row_is_built(rt: HostRuntime) -> Result<(), Fail> {
    let mut stage = MemStage::new(rt.alloc(), 1000);
    let mut few = row(rt.alloc(), 64)?;
    let leaf = built(rt.alloc(), &mut stage, false, few.as_mut_slice())?;
    assert_eq!(rt; leaf.levels, 1);
    let mut more = row(rt.alloc(), 65)?;
    let tree = built(rt.alloc(), &mut stage, false, more.as_mut_slice())?;
    assert_eq!(rt; tree.levels, 2);
    assert_eq!(rt; is_one_cut(&mut stage, &tree, 32, 33), Ok(true));
    Ok(())
}

/// The page of 130 points that are built, whose first border is of 65.
const FOUR_LEAVES: [Kind; 7] = [
    Kind::Cut(0, 65, 65),
    Kind::Cut(0, 32, 0),
    Kind::Leaf(32),
    Kind::Leaf(33),
    Kind::Cut(0, 32, 0),
    Kind::Leaf(32),
    Kind::Leaf(33),
];

#[test]
fn a_border_is_built(rt: HostRuntime) -> Result<(), Fail> {
    for three in [false, true] {
        let mut stage = MemStage::new(rt.alloc(), 10000);
        let mut points = row(rt.alloc(), 130)?;
        let tree = built(rt.alloc(), &mut stage, three, points.as_mut_slice())?;
        assert_eq!(rt; holds(&mut stage, tree.root, &FOUR_LEAVES), Ok(true));
        if three {
            let border = first_border(&mut stage, tree.root)?;
            assert_eq!(rt; is_one_cut(&mut stage, &border, 32, 33), Ok(true));
        }
        let kept = collected(rt.alloc(), &mut stage, three, &tree)?;
        assert!(rt; kept.as_slice() == row(rt.alloc(), 130)?.as_slice());
        drop_all(&mut stage, three, &tree)?;
        assert_eq!(rt; pages_in_use(&mut stage), 0);
    }
    Ok(())
}

/// Adds the points of the numbers from the one to before the other, at the coordinates by turns.
fn add_by_turns(
    alloc: Global,
    stage: &mut MemStage,
    tree: &mut Tree,
    numbers: (u32, u32),
    turns: (u32, u32),
) -> Result<(), StageFault> {
    let mut turns = turns;
    for number in numbers.0..numbers.1 {
        add(alloc, stage, false, tree, &point_at(turns.0, number))?;
        turns = (turns.1, turns.0);
    }
    Ok(())
}

/// The page of 129 points that came one by one.
const THREE_LEAVES: [Kind; 5] = [
    Kind::Cut(0, 65, 65),
    Kind::Cut(0, 32, 0),
    Kind::Leaf(32),
    Kind::Leaf(33),
    Kind::Leaf(64),
];

#[test]
fn two_places_by_turns(rt: HostRuntime) -> Result<(), Fail> {
    let mut stage = MemStage::new(rt.alloc(), 1000);
    let mut tree = Tree::default();
    add_by_turns(rt.alloc(), &mut stage, &mut tree, (0, 64), (5, 5))?;
    assert_eq!(rt; tree.levels, 1);
    add_by_turns(rt.alloc(), &mut stage, &mut tree, (64, 65), (5, 5))?;
    assert_eq!(rt; tree.levels, 2);
    assert_eq!(rt; is_one_cut(&mut stage, &tree, 32, 33), Ok(true));
    add_by_turns(rt.alloc(), &mut stage, &mut tree, (65, 82), (0, 0))?;
    assert_eq!(rt; is_one_cut(&mut stage, &tree, 49, 33), Ok(true));
    // Now 50 of 83 points would be low, which are more than three fifths.
    add_by_turns(rt.alloc(), &mut stage, &mut tree, (82, 83), (0, 0))?;
    assert_eq!(rt; is_one_cut(&mut stage, &tree, 41, 42), Ok(true));
    assert_eq!(rt; pages_in_use(&mut stage), 3);
    add_by_turns(rt.alloc(), &mut stage, &mut tree, (83, 128), (0, 5))?;
    assert_eq!(rt; is_one_cut(&mut stage, &tree, 64, 64), Ok(true));
    add_by_turns(rt.alloc(), &mut stage, &mut tree, (128, 129), (0, 0))?;
    assert_eq!(rt; holds(&mut stage, tree.root, &THREE_LEAVES), Ok(true));
    assert_eq!(rt; total(&mut stage, false, &tree), Ok(129));
    Ok(())
}

const ASCENDING: u32 = 2000;

#[test]
fn points_that_ascend(rt: HostRuntime) -> Result<(), Fail> {
    let mut stage = MemStage::new(rt.alloc(), 1000000);
    let mut tree = Tree::default();
    for number in 0..ASCENDING {
        add(
            rt.alloc(),
            &mut stage,
            false,
            &mut tree,
            &point_at(number, number),
        )?;
        assert_eq!(rt; total(&mut stage, false, &tree), Ok(u128::from(number) + 1));
        assert!(rt; cuts_of(rt.alloc(), &mut stage, 2, &tree)?.is_some());
    }
    Ok(())
}

#[test]
fn a_border_of_two_dimensions(rt: HostRuntime) -> Result<(), Fail> {
    assert_eq!(rt; PlaneTree::DIMS, 2);
    PlaneTree::border_laws();
    Ok(())
}
