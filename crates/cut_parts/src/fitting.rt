//! Whether a tree may be built of points.
ghost use Rattle.std.specs.Prelude.{◌<◌, ◌≤◌, ◌-◌, ◌^◌, ◌↔◌, IsTrue, length, IsPermutation};
ghost use Rattle.std.specs.List.{All, AllAdjacentBelow};
ghost use Rattle.cut_parts.specs.Medians.{KeysDiffer, key_of};
ghost use Rattle.cut_parts.specs.Borders.{MayBeBuilt, ShareNoKey};
ghost use Rattle.cut_parts.specs.Fitting.{IsPointBelow};

use bw_types::Point;

/// Whether a tree over so many dimensions may be built of the points: they are at most 2^31, no two of them share a key in a
/// dimension, their keys are below 2^64 - 2^32, and their versions below 2^32 - 1. It may put them in another order.
pub fn may_be_built(points: &mut [Point], dims: u8) -> bool
    requires { dims ≤ 3 }
    ensures permutation { IsPermutation points.old points.new }
    ensures built { IsTrue result → MayBeBuilt dims points.new }
    ensures only { MayBeBuilt dims points.old → IsTrue result }
{
    if points.len() > 0x8000_0000 {
        return false;
    }
    if !are_below(points, dims) {
        return false;
    }
    are_apart(points, dims)
}

// Whether the keys of the points are below the end of regions, and their versions below the last.
fn are_below(points: &[Point], dims: u8) -> bool
    requires { dims ≤ 3 }
    ensures { IsTrue result ↔ All (IsPointBelow dims) points.now }
{
    for point in points {
        if !is_below(point, dims) {
            return false;
        }
    }
    true
}

// Whether the point's keys are below the end of regions, and its version below the last.
fn is_below(point: &Point, dims: u8) -> bool
    requires { dims ≤ 3 }
    ensures { IsTrue result ↔ IsPointBelow dims point.now }
{
    point.version < u32::MAX && are_keys_below(&point.keys[..usize::from(dims)])
}

// Whether the keys are below 2^64 - 2^32, where regions end.
fn are_keys_below(keys: &[u64]) -> bool
    ensures { IsTrue result ↔ All (λ key. key < 2 ^ 64 - 2 ^ 32) keys.now }
{
    keys.iter().all(|key| *key < 0xffff_ffff_0000_0000)
}

// Whether no two of the points share a key in one of the dimensions.
fn are_apart(points: &mut [Point], dims: u8) -> bool
    requires { dims ≤ 3 }
    ensures permutation { IsPermutation points.old points.new }
    ensures apart { IsTrue result → ShareNoKey dims points.new }
    ensures only { ShareNoKey dims points.old → IsTrue result }
{
    for dimension in 0..dims {
        if !do_differ(points, dimension) {
            return false;
        }
    }
    true
}

// Whether no two of the points share a key in the dimension. It puts them in the order of these keys.
fn do_differ(points: &mut [Point], dimension: u8) -> bool
    requires { dimension < 3 }
    ensures permutation { IsPermutation points.old points.new }
    ensures differ { IsTrue result → KeysDiffer dimension points.new }
    ensures only { KeysDiffer dimension points.old → IsTrue result }
{
    let by = usize::from(dimension);
    points.sort_unstable_by_key(|point| point.keys[by]);
    do_rise(points, dimension)
}

// Whether the key of each point is below that of the next one.
fn do_rise(points: &[Point], dimension: u8) -> bool
    requires { dimension < 3 }
    ensures { IsTrue result ↔ AllAdjacentBelow (λ p q. key_of dimension p < key_of dimension q) points.now (length points.now) }
{
    let by = usize::from(dimension);
    for place in 1..points.len() {
        if points[place - 1].keys[by] >= points[place].keys[by] {
            return false;
        }
    }
    true
}
