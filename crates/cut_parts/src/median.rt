//! Where points are cut in two halves.
ghost use Rattle.std.specs.Prelude.{◌/◌, ◌<◌, ◌≤◌, length, take, drop, slice_index, IsPermutation};
ghost use Rattle.std.specs.List.{All};
ghost use Rattle.cut_parts.specs.Borders.{MayBeBuilt};
ghost use Rattle.cut_parts.specs.Widest.{IsWidest};

use crate::middle::middle_key;
use crate::widest::widest;
use bw_types::Point;

/// Cuts the points in two halves in the dimension in which they lie farthest apart, that is in which the difference between
/// their greatest and their least key is greatest; at a tie in the least such dimension.
///
/// It puts them in the order of these keys, and answers the dimension and the key of the point at half their number, rounded
/// down: the points before that one have a smaller key, and those after it a greater one.
pub fn median_cut(points: &mut [Point], dims: u8) -> (u8, u64)
    requires dims { (1 ≤ dims) × (dims ≤ 3) }
    requires some { 2 ≤ length points.old }
    requires points { MayBeBuilt dims points.old }
    ensures permutation { IsPermutation points.old points.new }
    ensures dimension { result.0 < dims }
    ensures widest { IsWidest dims points.old result.0 }
    ensures low { All (λ p. slice_index p.keys result.0 < result.1) (take (length points.new / 2) points.new) }
    ensures high { All (λ p. result.1 ≤ slice_index p.keys result.0) (drop (length points.new / 2) points.new) }
{
    let dimension = widest(points, dims);
    let key = middle_key(points, dimension);
    (dimension, key)
}
