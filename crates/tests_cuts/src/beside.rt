//! Whether a tree of cuts has the plain sums of its points, and cuts as they have to be.
use crate::bounds::most_gets;
use crate::samples::{GREATEST, draw, sum};
use crate::walker::{Met, cuts_of};
use bw_types::{Point, Tree};
use ports::{MemStage, StageFault};
use std::alloc::Global;

/// The sum of the weights of the points at or below the keys and the version, over three dimensions or over two.
fn plain_sum(points: &[Point], three: bool, keys: &[u64; 3], version: u32) -> u128 {
    let mut sum = 0_u128;
    for point in points {
        if point.keys[0] <= keys[0]
            && point.keys[1] <= keys[1]
            && (!three || point.keys[2] <= keys[2])
            && point.version <= version
        {
            sum = sum.wrapping_add(point.weight);
        }
    }
    sum
}

/// The key of any of the points in the dimension, or the one before.
pub(crate) fn key_near(state: &mut u64, points: &[Point], dimension: usize) -> u64 {
    let place = draw(state) as usize % points.len().max(1);
    let before = u64::from(draw(state) % 2);
    match points.get(place) {
        Some(point) => point.keys[dimension.min(2)].saturating_sub(before),
        None => 0,
    }
}

/// Whether the tree has the plain sum at the keys and the version.
fn sum_agrees(
    stage: &mut MemStage,
    three: bool,
    tree: &Tree,
    points: &[Point],
    keys: &[u64; 3],
    version: u32,
) -> bool {
    sum(stage, three, tree, keys, version) == Ok(plain_sum(points, three, keys, version))
}

/// Whether the tree has the plain sums at keys and versions that are drawn, each with no more gets than it may take.
fn sums_agree(stage: &mut MemStage, three: bool, tree: &Tree, points: &[Point]) -> bool {
    let mut state = 5;
    let most = most_gets(three, tree.count);
    for _ in 0..200 {
        let keys = [
            key_near(&mut state, points, 0),
            key_near(&mut state, points, 1),
            key_near(&mut state, points, 2),
        ];
        let version = draw(&mut state) % 40;
        let before = stage.gets();
        if !sum_agrees(stage, three, tree, points, &keys, version)
            || stage.gets().saturating_sub(before) > most
        {
            return false;
        }
    }
    true
}

/// Whether the tree has the plain sums at the key of each cut, and right before it.
fn sums_agree_at(
    stage: &mut MemStage,
    three: bool,
    tree: &Tree,
    points: &[Point],
    cuts: &[Met],
) -> bool {
    for cut in cuts {
        let mut keys = [GREATEST, GREATEST, GREATEST];
        let by = cut.dimension.min(2);
        keys[by] = cut.key;
        let at = sum_agrees(stage, three, tree, points, &keys, u32::MAX);
        keys[by] = cut.key.saturating_sub(1);
        if !at || !sum_agrees(stage, three, tree, points, &keys, u32::MAX) {
            return false;
        }
    }
    true
}

/// Whether the borders of the cuts are trees over two dimensions, with cuts as they have to be.
fn are_borders_right(
    alloc: Global,
    stage: &mut MemStage,
    cuts: &[Met],
) -> Result<bool, StageFault> {
    for cut in cuts {
        if cut.border.count > 0 && cuts_of(alloc, stage, 2, &cut.border)?.is_none() {
            return Ok(false);
        }
    }
    Ok(true)
}

/// Whether the tree of the points is as it has to be.
pub(crate) fn is_right(
    alloc: Global,
    stage: &mut MemStage,
    three: bool,
    tree: &Tree,
    points: &[Point],
) -> Result<bool, StageFault> {
    let dims = if three { 3 } else { 2 };
    let Some(cuts) = cuts_of(alloc, stage, dims, tree)? else {
        return Ok(false);
    };
    if three && !are_borders_right(alloc, stage, cuts.as_slice())? {
        return Ok(false);
    }
    Ok(
        sums_agree(stage, three, tree, points)
            && sums_agree_at(stage, three, tree, points, cuts.as_slice()),
    )
}
