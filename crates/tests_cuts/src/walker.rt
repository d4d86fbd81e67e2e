//! A walker through the pages of a tree of cuts, which tells whether its cuts and leaves are as they have to be.
use crate::samples::read_cuts;
use bw_types::{Point, Region, Tree};
use cut_parts::read_leaf;
use page_layout::{CutNode, CutPage};
use ports::{Pages, StageFault};
use std::alloc::{AllocError, Global};

/// A cut that the walker met.
#[derive(Clone, Copy)]
pub(crate) struct Met {
    pub(crate) dimension: usize,
    pub(crate) key: u64,
    pub(crate) border: Tree,
}

/// A side of a cut: how many points it has, and where they lie.
#[derive(Clone, Copy)]
struct Side {
    count: u32,
    region: Region,
}

const END: u64 = 0xffff_ffff_0000_0000;

/// The cuts of a tree of some points over so many dimensions; none where a leaf or a cut is not as it has to be.
pub(crate) fn cuts_of<P: Pages>(
    alloc: Global,
    pages: &mut P,
    dims: usize,
    tree: &Tree,
) -> Result<Option<Vec<Met>>, StageFault> {
    let mut met = Vec::new(alloc);
    let mut due = Vec::new(alloc);
    let whole = Side {
        count: tree.count,
        region: Region {
            low: [0, 0, 0],
            high: [END, END, END],
        },
    };
    due.push((tree.root, whole))
        .map_err(|_| StageFault::NoMemory)?;
    // A tree has at most two pages a point.
    for _ in 0..u64::from(tree.count) * 2 {
        let Some((page, side)) = due.pop() else {
            return Ok(Some(met));
        };
        if !walk_page(alloc, pages, dims, page, &side, &mut due, &mut met)? {
            return Ok(None);
        }
    }
    Ok(if due.is_empty() { Some(met) } else { None })
}

// Whether the page is as this side's has to be. It pushes the pages below it and its cuts.
fn walk_page<P: Pages>(
    alloc: Global,
    pages: &mut P,
    dims: usize,
    page: u64,
    side: &Side,
    due: &mut Vec<(u64, Side)>,
    met: &mut Vec<Met>,
) -> Result<bool, StageFault> {
    if side.count <= 64 {
        let leaf = read_leaf(pages, page, side.count)?;
        let points = leaf.points.as_slice();
        return Ok(
            points
                .iter()
                .all(|point| lies_in(point, dims, &side.region)),
        );
    }
    let cuts = read_cuts(pages, page)?;
    walk_cuts(alloc, dims, &cuts, side, due, met).map_err(|_| StageFault::NoMemory)
}

// Whether the nodes are as those of this side have to be.
fn walk_cuts(
    alloc: Global,
    dims: usize,
    cuts: &CutPage,
    side: &Side,
    due: &mut Vec<(u64, Side)>,
    met: &mut Vec<Met>,
) -> Result<bool, AllocError> {
    let mut sides = Vec::new(alloc);
    sides.push(*side)?;
    for node in cuts.nodes.as_slice() {
        let Some(side) = sides.pop() else {
            return Ok(false);
        };
        match *node {
            CutNode::Entry { child } => due.push((child, side))?,
            CutNode::Cut {
                dimension,
                key,
                low,
                border,
            } => {
                let dimension = usize::from(dimension);
                if !is_right(dims, &side, dimension, key, low, &border) {
                    return Ok(false);
                }
                met.push(Met {
                    dimension,
                    key,
                    border,
                })?;
                let (below, above) = sides_of(&side, dimension, key, low);
                sides.push(above)?;
                sides.push(below)?;
            }
        }
    }
    Ok(sides.is_empty())
}

fn lies_in(point: &Point, dims: usize, region: &Region) -> bool {
    (0..dims.min(3)).all(|by| region.low[by] <= point.keys[by] && point.keys[by] < region.high[by])
}

// Whether the cut is balanced, lies inside the region, and has a border of as many points as it has to.
fn is_right(dims: usize, side: &Side, dimension: usize, key: u64, low: u32, border: &Tree) -> bool {
    let most = u64::from(side.count) * 3;
    let high = side.count.saturating_sub(low);
    let balanced = low > 0 && high > 0 && u64::from(low) * 5 <= most && u64::from(high) * 5 <= most;
    let inside = dimension < dims.min(3)
        && side.region.low[dimension] < key
        && key < side.region.high[dimension];
    let bordered = if low <= 64 {
        *border == Tree::default()
    } else {
        border.count == low
    };
    balanced && inside && bordered
}

// The low and the high side.
fn sides_of(side: &Side, dimension: usize, key: u64, low: u32) -> (Side, Side) {
    let mut below = *side;
    let mut above = *side;
    below.count = low;
    above.count = side.count.saturating_sub(low);
    below.region.high[dimension.min(2)] = key;
    above.region.low[dimension.min(2)] = key;
    (below, above)
}
