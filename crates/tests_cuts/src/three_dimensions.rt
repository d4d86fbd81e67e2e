//! The index over one to three dimensions: the sums of its trees beside those of a plain list, and the pages that they take.
ghost use Rattle.std.specs.Prelude.{◌≡◌};

use crate::beside::key_near;
use crate::samples::{GREATEST, draw};
use ba_tree::{BaIndex, dom_sum};
use bw_types::{Point, Tree, point_key};
use dom_index::{DomIndex, PointList};
use page_layout::{CutNode, CutPage, PointLeaf, Spelled};
use ports::{MemStage, PageFault, Pages, StageFault, blank_page};
use std::alloc::{AllocError, Global};
use std::test::Fail;

fn key(state: &mut u64, number: u32) -> u64 {
    point_key(draw(state) % 1000, number)
}

/// So many points at any coordinates, four of each version. The sums of their weights go past `2^128`.
fn drawn_points(alloc: Global, count: u32) -> Result<Vec<Point>, AllocError> {
    let mut state = 17;
    let mut points = Vec::new(alloc);
    for number in 0..count {
        points.push(Point {
            keys: [
                key(&mut state, number),
                key(&mut state, number),
                key(&mut state, number),
            ],
            version: number / 4,
            weight: u128::from(draw(&mut state)).wrapping_neg(),
        })?;
    }
    Ok(points)
}

/// Adds the point to a tree of an index, over one to three dimensions.
fn add<X: DomIndex>(
    alloc: Global,
    stage: &mut MemStage,
    dims: u8,
    tree: &mut Tree,
    point: &Point,
) -> Result<(), StageFault>
    requires { X.DIMS ≡ 3 }
{
    let [first, second, third] = point.keys;
    if first > GREATEST || second > GREATEST || third > GREATEST || point.version >= u32::MAX {
        return Err(StageFault::Damaged(0));
    }
    if dims < 1 || dims > 3 {
        return Err(StageFault::Damaged(0));
    }
    X::add(alloc, stage, dims, tree, point)
}

/// The tree of an index to which all the points were added.
fn grown<X: DomIndex>(
    alloc: Global,
    stage: &mut MemStage,
    dims: u8,
    points: &[Point],
) -> Result<Tree, StageFault>
    requires { X.DIMS ≡ 3 }
{
    let mut tree = Tree::default();
    for point in points {
        add::<X>(alloc, stage, dims, &mut tree, point)?;
    }
    Ok(tree)
}

/// The sum in a tree of an index, over one to three dimensions.
fn sum<X: DomIndex>(
    stage: &mut MemStage,
    dims: u8,
    tree: &Tree,
    keys: &[u64; 3],
    version: u32,
) -> Result<u128, PageFault>
    requires { X.DIMS ≡ 3 }
{
    let [first, second, third] = *keys;
    if first > GREATEST || second > GREATEST || third > GREATEST || dims < 1 || dims > 3 {
        return Err(PageFault::Damaged(0));
    }
    X::sum(stage, dims, tree, keys, version)
}

/// A tree of points and a list of the same points.
#[derive(Drop)]
struct Beside {
    stage: MemStage,
    tree: Tree,
    list_stage: MemStage,
    list: Tree,
}

/// Whether the tree and the list have the same sum.
fn agrees(beside: &mut Beside, dims: u8, keys: &[u64; 3], version: u32) -> bool {
    let listed = sum::<PointList>(&mut beside.list_stage, dims, &beside.list, keys, version);
    listed.is_ok() && sum::<BaIndex>(&mut beside.stage, dims, &beside.tree, keys, version) == listed
}

/// Whether they have at the keys of each point and right before it, at its version, the one before and the last.
fn agree_at_points(beside: &mut Beside, dims: u8, points: &[Point]) -> bool {
    for point in points {
        let [first, second, third] = point.keys;
        let before = [
            first.saturating_sub(1),
            second.saturating_sub(1),
            third.saturating_sub(1),
        ];
        for version in [point.version, point.version.saturating_sub(1), u32::MAX] {
            if !agrees(beside, dims, &point.keys, version)
                || !agrees(beside, dims, &before, version)
            {
                return false;
            }
        }
    }
    true
}

/// Whether they have at keys that are those of different points.
fn agree_between_points(beside: &mut Beside, dims: u8, points: &[Point]) -> bool {
    let mut state = 5;
    for _ in 0..1000 {
        let keys = [
            key_near(&mut state, points, 0),
            key_near(&mut state, points, 1),
            key_near(&mut state, points, 2),
        ];
        let version = draw(&mut state) % 80;
        if !agrees(beside, dims, &keys, version) {
            return false;
        }
    }
    true
}

const COUNT: u32 = 300;

#[test]
fn a_tree_beside_a_list(rt: HostRuntime) -> Result<(), Fail> {
    let points = drawn_points(rt.alloc(), COUNT)?;
    for dims in 1..4u8 {
        let mut stage = MemStage::new(rt.alloc(), 100000);
        let tree = grown::<BaIndex>(rt.alloc(), &mut stage, dims, points.as_slice())?;
        let mut list_stage = MemStage::new(rt.alloc(), 100000);
        let list = grown::<PointList>(rt.alloc(), &mut list_stage, dims, points.as_slice())?;
        assert_eq!(rt; tree.count, COUNT);
        let mut beside = Beside {
            stage,
            tree,
            list_stage,
            list,
        };
        assert!(rt; agree_at_points(&mut beside, dims, points.as_slice()));
        assert!(rt; agree_between_points(&mut beside, dims, points.as_slice()));
    }
    Ok(())
}

#[test]
fn few_points_are_one_page(rt: HostRuntime) -> Result<(), Fail> {
    let points = drawn_points(rt.alloc(), 65)?;
    for dims in 2..4u8 {
        let mut stage = MemStage::new(rt.alloc(), 100);
        let mut tree = Tree::default();
        for point in points.as_slice() {
            // A page more for the leaf that is split, and one for the root.
            let (levels, allotted) = if tree.count < 64 { (1, 4) } else { (2, 6) };
            add::<BaIndex>(rt.alloc(), &mut stage, dims, &mut tree, point)?;
            assert_eq!(rt; (tree.levels, stage.allotted()), (levels, allotted));
        }
        assert_eq!(rt; tree.count, 65);
    }
    Ok(())
}

/// How many points the leaf on a page has.
fn points_on(stage: &mut MemStage, page: u64) -> Result<usize, PageFault> {
    let mut bytes = blank_page();
    stage.get(page, &mut bytes)?;
    match PointLeaf::read(&bytes) {
        Some(leaf) => Ok(leaf.points.len()),
        None => Err(PageFault::Damaged(page)),
    }
}

/// The dimension and the points low of the cut on a page that has one cut with the empty border, and those of its two leaves.
fn one_cut(stage: &mut MemStage, page: u64) -> Result<(u8, u32, usize, usize), PageFault> {
    let mut bytes = blank_page();
    stage.get(page, &mut bytes)?;
    let Some(cuts) = CutPage::read(&bytes) else {
        return Err(PageFault::Damaged(page));
    };
    if let [
        CutNode::Cut {
            dimension,
            key: _,
            low,
            border,
        },
        CutNode::Entry { child: lows },
        CutNode::Entry { child: highs },
    ] = cuts.nodes.as_slice()
    {
        if *border == Tree::default() {
            let below = points_on(stage, *lows)?;
            return Ok((*dimension, *low, below, points_on(stage, *highs)?));
        }
    }
    Err(PageFault::Damaged(page))
}

#[test]
fn points_of_one_place_are_cut(rt: HostRuntime) -> Result<(), Fail> {
    for dims in 2..4u8 {
        let mut stage = MemStage::new(rt.alloc(), 100);
        let mut tree = Tree::default();
        for number in 0..65 {
            assert_eq!(rt; tree.levels, if number == 0 { 0 } else { 1 });
            let key = point_key(5, number);
            let point = Point {
                keys: [key, key, key],
                version: 1,
                weight: 1,
            };
            add::<BaIndex>(rt.alloc(), &mut stage, dims, &mut tree, &point)?;
        }
        assert_eq!(rt; tree.levels, 2);
        assert_eq!(rt; one_cut(&mut stage, tree.root), Ok((0, 32, 32, 33)));
        let keys = [GREATEST; 3];
        assert_eq!(rt; dom_sum(&mut stage, dims, &tree, &keys, 1), Ok(65));
        assert_eq!(rt; dom_sum(&mut stage, dims, &tree, &keys, 0), Ok(0));
    }
    Ok(())
}

#[test]
fn an_index_of_three_dimensions(rt: HostRuntime) -> Result<(), Fail> {
    assert_eq!(rt; BaIndex::DIMS, 3);
    BaIndex::index_laws();
    Ok(())
}
