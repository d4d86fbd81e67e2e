//! Lists of numbers, and what their order tells of them.
ghost use Rattle.std.specs.Prelude.{◌≡◌, ◌==◌, ◌||◌, IfOk, map};
ghost use Rattle.std.specs.List.{list_any};
ghost use Rattle.std.specs.List.Sorted.{IsNonDecreasing, IsPermutation};

use bw_types::Point;
use std::alloc::{AllocError, Global};

/// The versions of the points, in order.
pub(crate) fn versions_in_order(alloc: Global, points: &[Point]) -> Result<Vec<u32>, AllocError>
    ensures order { IfOk result (λ versions. IsNonDecreasing versions.items) }
    ensures same { IfOk result (λ versions. IsPermutation (map (λ p. p.version) points.now) versions.items) }
{
    let mut versions: Vec<u32> = points.iter().map(|point| point.version).collect(alloc)?;
    versions.sort_unstable();
    Ok(versions)
}

/// Whether the version is 0 or among the versions.
pub(crate) fn is_mark(versions: &[u32], version: u32) -> bool
    requires { IsNonDecreasing versions.now }
    ensures { result ≡ (version == 0 || list_any (λ v. v == version) versions.now) }
{
    version == 0 || is_among(versions, version)
}

fn is_among(versions: &[u32], version: u32) -> bool
    requires { IsNonDecreasing versions.now }
    ensures { result ≡ list_any (λ v. v == version) versions.now }
{
    versions.binary_search(&version).is_ok()
}
