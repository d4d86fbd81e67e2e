//! Whether a cut is as it has to be.
ghost use Rattle.std.specs.Prelude.{◌≡◌, ◌≤◌, ◌<◌, ◌↔◌, suc, IsTrue};
ghost use Rattle.bw_types.specs.Empty.{empty_tree};
ghost use Rattle.cut_parts.specs.Damage.{IsSoundCut};
ghost use Rattle.cut_parts.specs.Parts.{IsBalancedCut};

use crate::border_tree::BorderTree;
use bw_types::Tree;

/// Whether a cut of so many points may have so many on its low side: at least one, and on either side at most three fifths.
pub fn is_balanced(count: u32, low: u32) -> bool
    ensures { IsTrue result ↔ IsBalancedCut count low }
{
    if count <= 64 || low < 1 || count <= low {
        return false;
    }
    let most = 3 * u64::from(count);
    5 * u64::from(low) <= most && 5 * u64::from(count - low) <= most
}

/// Whether a cut of so many points is in one of the dimensions and balanced, and has the empty border where its low side is a leaf,
/// and else one of as many points.
pub fn is_sound<B: BorderTree>(count: u32, dimension: u8, low: u32, border: &Tree) -> bool
    ensures { IsTrue result ↔ IsSoundCut (suc B.DIMS) count dimension low border.now }
{
    B::border_laws();
    if dimension > B::DIMS {
        return false;
    }
    if !is_balanced(count, low) {
        return false;
    }
    border_fits(low, border)
}

// Whether a border is empty where so many points are a leaf, and else one of as many.
fn border_fits(low: u32, border: &Tree) -> bool
    ensures { IsTrue result ↔ ((low ≤ 64 → border.now ≡ empty_tree) × (64 < low → border.now.count ≡ low)) }
{
    if low > 64 {
        return border.count == low;
    }
    border.root == 0
        && border.levels == 0
        && border.count == 0
        && border.changes == 0
        && border.last == 0
}
