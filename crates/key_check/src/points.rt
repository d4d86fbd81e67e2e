//! Whether the sum of corners is the dominance sum of points.
ghost use Rattle.std.specs.Prelude.{◌≡◌, ◌++◌, ◌^◌, ◌<◌, ◌↔◌, IsTrue, IfOk, OnOk, map};
ghost use Rattle.std.specs.List.{All};
ghost use Rattle.key_check.specs.Sums.{SumOverKeys, SumOverVersions, opposite_corner};

use crate::corner::Corner;
use crate::scan::vanish;
use bw_types::Point;
use std::alloc::AllocError;

/// Whether the sum of the corners is that of the points at each key and version. The points' keys past the
/// first do not count.
pub(crate) fn sum_over_keys(mut corners: Vec<Corner>, points: &[Point]) -> Result<bool, AllocError>
    ensures { IfOk result (λ same. IsTrue same ↔ SumOverKeys corners.items points.now) }
{
    push_opposites(&mut corners, points, true)?;
    Ok(vanish(corners.as_mut_slice()))
}

/// Whether the sum of the corners is that of the points at each version, whatever the points' keys.
pub(crate) fn sum_over_versions(
    mut corners: Vec<Corner>,
    points: &[Point],
) -> Result<bool, AllocError>
    requires { All (λ c. c.key ≡ 0) corners.items }
    ensures { IfOk result (λ same. IsTrue same ↔ SumOverVersions corners.items points.now) }
{
    push_opposites(&mut corners, points, false)?;
    Ok(vanish(corners.as_mut_slice()))
}

// Puts behind the corners one for each point, with the opposite weight.
fn push_opposites(
    corners: &mut Vec<Corner>,
    points: &[Point],
    keyed: bool,
) -> Result<(), AllocError>
    ensures items { OnOk result (corners.new.items ≡ corners.old.items ++ map (opposite_corner keyed) points.now) }
    ensures typed { OnOk result (All (λ p. p.weight < 2 ^ 128) points.now) }
{
    for point in points {
        corners.push(opposite_of(point, keyed))?;
    }
    Ok(())
}

// The corner of a point, with the opposite weight.
fn opposite_of(point: &Point, keyed: bool) -> Corner
    ensures value { result ≡ opposite_corner keyed point.now }
    ensures typed { point.now.weight < 2 ^ 128 }
{
    Corner {
        version: point.version,
        key: if keyed { point.keys[0] } else { 0 },
        weight: point.weight.wrapping_neg(),
    }
}
