//! The key at which points in the order of their keys are cut in two halves.
ghost use Rattle.std.specs.Prelude.{◌/◌, ◌<◌, ◌≤◌, length};
ghost use Rattle.std.specs.List.Sorted.{IsPermutation};
ghost use Rattle.cut_parts.specs.Medians.{AreAscending, IsMedian, KeysDiffer};

use bw_types::Point;

/// Orders the points by their keys of the dimension, and answers the key of the point at half their
/// number, rounded down: as many points have a smaller key.
pub(crate) fn middle_key(points: &mut [Point], dimension: u8) -> u64
    requires dimension { dimension < 3 }
    requires some { 2 ≤ length points.old }
    requires keys { KeysDiffer dimension points.old }
    ensures permutation { IsPermutation points.old points.new }
    ensures ascending { AreAscending dimension points.new }
    ensures median { IsMedian dimension points.new (length points.new / 2) result }
{
    let by = usize::from(dimension);
    points.sort_unstable_by_key(|point| point.keys[by]);
    points[points.len() / 2].keys[by]
}
