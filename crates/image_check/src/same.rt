//! Whether points are those that a tree is to stand for.
ghost use Rattle.std.specs.Prelude.{◌≡◌, ◌≤◌, ◌↔◌, ℕ, IsTrue, IfOk, IsPermutation};
ghost use Rattle.cut_parts.specs.Borders.{MayBeBuilt};

use bw_types::Point;
use cut_parts::may_be_built;
use std::alloc::{AllocError, Global};

/// Whether a tree over so many dimensions may be built of the points.
pub(crate) fn are_buildable(alloc: Global, points: &[Point], dims: u8) -> Result<bool, AllocError>
    requires { dims ≤ 3 }
    ensures { IfOk result (λ may. IsTrue may ↔ MayBeBuilt dims points.now) }
{
    let mut copy = Vec::new(alloc);
    copy.extend_from_slice(points)?;
    Ok(may_be_built(copy.as_mut_slice(), dims))
}

/// Whether the points that were found are the others, of which a tree may be built, in any order. They are put in the order of their
/// first keys, since no two share one.
pub(crate) fn are_same(
    alloc: Global,
    found: &mut [Point],
    points: &[Point],
) -> Result<bool, AllocError>
    ensures { IfOk result (λ same. (dims : ℕ) → 1 ≤ dims → MayBeBuilt dims points.now → IsTrue same ↔ IsPermutation found.old points.now) }
{
    let mut sorted = Vec::new(alloc);
    sorted.extend_from_slice(points)?;
    sorted.sort_unstable_by_key(|point| point.keys[0]);
    found.sort_unstable_by_key(|point| point.keys[0]);
    Ok(are_equal(found, sorted.as_slice()))
}

fn are_equal(points: &[Point], others: &[Point]) -> bool
    ensures { IsTrue result ↔ (points.now ≡ others.now) }
{
    points == others
}
