//! Points, and trees of cuts of them over two dimensions or over three, as the tests here take them.
use ba_tree::{KeyTree, PlaneTree, build, collect, drop_tree, tree_add, tree_sum};
use bw_types::{Point, Tree, point_key};
use cut_parts::{may_be_built, no_cuts};
use page_layout::CutPage;
use ports::{MemStage, PageFault, Pages, Stage, StageFault, blank_page};
use std::alloc::{AllocError, Global};

/// The greatest key of a sum, 2^64 - 2^32 - 1.
pub(crate) const GREATEST: u64 = 18446744069414584319;

/// The next of numbers that look random.
pub(crate) fn draw(state: &mut u64) -> u32 {
    *state = state
        .wrapping_mul(6364136223846793005)
        .wrapping_add(1442695040888963407);
    (*state >> 32) as u32
}

/// A point of this number with all coordinates the same, of version 1 and weight 1.
pub(crate) fn point_at(coordinate: u32, number: u32) -> Point {
    let key = point_key(coordinate, number);
    Point {
        keys: [key, key, key],
        version: 1,
        weight: 1,
    }
}

/// Points of the coordinates 0 to before `count`, whose numbers are the same.
pub(crate) fn row(alloc: Global, count: u32) -> Result<Vec<Point>, AllocError> {
    let mut points = Vec::new(alloc);
    for number in 0..count {
        points.push(point_at(number, number))?;
    }
    Ok(points)
}

/// Builds a tree of points over three dimensions, or over two.
pub(crate) fn built<S: Stage>(
    alloc: Global,
    stage: &mut S,
    three: bool,
    points: &mut [Point],
) -> Result<Tree, StageFault> {
    if three {
        if !may_be_built(points, 3) {
            return Err(StageFault::Damaged(0));
        }
        return build::<PlaneTree, S>(alloc, stage, points);
    }
    if !may_be_built(points, 2) {
        return Err(StageFault::Damaged(0));
    }
    build::<KeyTree, S>(alloc, stage, points)
}

/// Adds a point to a tree over three dimensions, or over two.
pub(crate) fn add<S: Stage>(
    alloc: Global,
    stage: &mut S,
    three: bool,
    tree: &mut Tree,
    point: &Point,
) -> Result<(), StageFault> {
    let [first, second, third] = point.keys;
    if first > GREATEST || second > GREATEST || third > GREATEST || point.version >= u32::MAX {
        return Err(StageFault::Damaged(0));
    }
    if three {
        tree_add::<PlaneTree, S>(alloc, stage, tree, point)
    } else {
        tree_add::<KeyTree, S>(alloc, stage, tree, point)
    }
}

/// The sum at the keys and the version, in a tree over three dimensions, or over two.
pub(crate) fn sum(
    stage: &mut MemStage,
    three: bool,
    tree: &Tree,
    keys: &[u64; 3],
    version: u32,
) -> Result<u128, PageFault> {
    let [first, second, third] = *keys;
    if first > GREATEST || second > GREATEST || third > GREATEST {
        return Err(PageFault::Damaged(0));
    }
    if three {
        tree_sum::<PlaneTree, MemStage>(stage, tree, keys, version)
    } else {
        tree_sum::<KeyTree, MemStage>(stage, tree, keys, version)
    }
}

/// The sum of all points.
pub(crate) fn total(stage: &mut MemStage, three: bool, tree: &Tree) -> Result<u128, PageFault> {
    sum(
        stage,
        three,
        tree,
        &[GREATEST, GREATEST, GREATEST],
        u32::MAX,
    )
}

/// The points of a tree over three dimensions, or over two, in the order of their first keys.
pub(crate) fn collected(
    alloc: Global,
    stage: &mut MemStage,
    three: bool,
    tree: &Tree,
) -> Result<Vec<Point>, StageFault> {
    let mut points = if three {
        collect::<PlaneTree, MemStage>(alloc, stage, tree)?
    } else {
        collect::<KeyTree, MemStage>(alloc, stage, tree)?
    };
    points.sort_unstable_by_key(|point| point.keys[0]);
    Ok(points)
}

/// Frees the pages of a tree over three dimensions, or over two.
pub(crate) fn drop_all(stage: &mut MemStage, three: bool, tree: &Tree) -> Result<(), StageFault> {
    if three {
        drop_tree::<PlaneTree, MemStage>(stage, tree)
    } else {
        drop_tree::<KeyTree, MemStage>(stage, tree)
    }
}

/// The nodes that a page holds.
pub(crate) fn read_cuts<P: Pages>(pages: &mut P, page: u64) -> Result<CutPage, PageFault> {
    let mut cuts = no_cuts();
    cut_parts::read_cuts(pages, page, &mut blank_page(), &mut cuts)?;
    Ok(cuts)
}

/// How many pages of the stage are in use.
pub(crate) fn pages_in_use(stage: &mut MemStage) -> u64 {
    let mut bytes = blank_page();
    let mut count: u64 = 0;
    for page in 3..stage.allotted() {
        if stage.get(page, &mut bytes).is_ok() {
            count = count.saturating_add(1);
        }
    }
    count
}
