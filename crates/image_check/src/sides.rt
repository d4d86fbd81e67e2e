//! The two sides of a cut, and whether points lie on them.
ghost use Rattle.std.specs.Prelude.{◌≡◌, ◌↔◌, ◌++◌, ◌<◌, ◌≤◌, suc, drop, Ok, true, slice_index, IsTrue, IfOk, IsPermutation};
ghost use Rattle.std.specs.List.{All};
ghost use Rattle.bw_types.specs.Empty.{empty_tree};
ghost use Rattle.cut_parts.specs.Borders.{HoldForTrees};
ghost use Rattle.image_check.specs.Walked.{AreLow};
ghost use Rattle.page_checks.specs.Reads.{OnlyChecks};

use crate::checked_tree::CheckedTree;
use bw_types::{Point, Tree};
use cut_parts::border_points;
use page_checks::CheckFault;
use ports::Pages;
use std::alloc::Global;

/// The laws of borders; it does nothing when it runs.
pub(crate) fn laws_of_borders<B: CheckedTree>()
    ensures dims { (1 ≤ B.DIMS) × (B.DIMS ≤ 2) }
    ensures laws { HoldForTrees B.stands B.footprint B.balanced B.cost B.growth B.share }
{
    B::border_laws();
}

/// The number of dimensions of trees with these borders.
pub(crate) fn dims_above<B: CheckedTree>() -> u8
    ensures { (result ≡ suc B.DIMS) × (result ≤ 3) }
{
    B::border_laws();
    B::DIMS + 1
}

/// The points behind the first so many; none where there are no more.
pub(crate) fn behind(points: &[Point], before: usize) -> &[Point]
    ensures { result.now ≡ drop before points.now }
{
    match points.get(before..) {
        Some(more) => more,
        None => &[],
    }
}

// Whether each of the points has a key below this one in the dimension.
fn are_below(points: &[Point], dimension: u8, key: u64) -> bool
    requires { dimension < 3 }
    ensures { IsTrue result ↔ All (λ p. slice_index p.keys dimension < key) points.now }
{
    let by = usize::from(dimension);
    for point in points {
        if point.keys[by] >= key {
            return false;
        }
    }
    true
}

/// Whether each of the points has this key or a greater one in the dimension, as on the high side of a cut.
pub(crate) fn are_high(points: &[Point], dimension: u8, key: u64) -> bool
    requires { dimension < 3 }
    ensures { IsTrue result ↔ All (λ p. key ≤ slice_index p.keys dimension) points.now }
{
    let by = usize::from(dimension);
    for point in points {
        if point.keys[by] < key {
            return false;
        }
    }
    true
}

/// Whether the points may be those of the low side of a cut, that are so many. Where it is so, the pages of its border are put behind
/// those named.
pub(crate) fn are_low<B: CheckedTree, P: Pages>(
    alloc: Global,
    pages: &mut P,
    points: &[Point],
    dimension: u8,
    key: u64,
    low: u32,
    border: &Tree,
    named: &mut Vec<u64>,
) -> Result<bool, CheckFault>
    requires { dimension < 3 }
    ensures low { IfOk result (λ yes. IsTrue (P.tells pages.old) → IsTrue yes ↔ AreLow B.BorderTree (P.map pages.old) dimension key low border.now points.now) }
    ensures named { result ≡ Ok true → IsTrue (P.tells pages.old) → (low ≤ 64 → border.now ≡ empty_tree)
        → IsPermutation (named.old.items ++ B.footprint (P.map pages.old) border.now) named.new.items }
    ensures reads { OnlyChecks P.Pages pages.old pages.new result }
{
    laws_of_borders::<B>();
    if !are_below(points, dimension, key) {
        return Ok(false);
    }
    if low <= 64 {
        return Ok(true);
    }
    let without = border_points(alloc, points, dimension)?;
    B::tree_stands(alloc, pages, border, without.as_slice(), named)
}
