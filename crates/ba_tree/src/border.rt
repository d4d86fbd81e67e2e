//! The border of a cut whose low side gets a point.
ghost use Rattle.std.specs.Prelude.{◌≡◌, ◌+◌, ◌-◌, ◌*◌, ◌^◌, ◌<◌, ◌⊎◌, ◌∷◌, ℕ, suc, List, length, Option, Err, IsTrue, IfOk};
ghost use Rattle.bw_types.specs.Without.{without_dimension};
ghost use Rattle.bw_types.specs.declared.point.Point.{Point};
ghost use Rattle.ports.specs.Calls.{Changes};
ghost use Rattle.page_layout.specs.TreeValue.{IsTreeTyped, tree_fits};
ghost use Rattle.dom_index.specs.Points.{AreKeysBelow};
ghost use Rattle.cut_parts.specs.Borders.{MayBeBuilt, OthersStay};
ghost use Rattle.cut_parts.specs.Parts.{Part, border_points, points_of};
ghost use Rattle.cut_parts.specs.Reach.{BorderMayLeave, IsDamagedAtBorder, IsDamagedBegun, MayNotBeBuilt};
ghost use Rattle.cut_parts.specs.Spelling.{first_page};
ghost use Rattle.cut_parts.specs.Standing.{PartStands};
ghost use Rattle.ba_tree.specs.Additions.{BorderBegun, BorderGrown, BorderTakes};
ghost use Rattle.ba_tree.specs.Going.{GoesWell};
ghost use Rattle.ba_tree.specs.Growing.{border_growth};

use crate::leaf::with_point;
use crate::storing::stage_leaf;
use bw_types::{Point, Tree};
use cut_parts::laws::points_may_be_built;
use cut_parts::{BorderTree, border_points, drop_dimension, may_be_built};
use ports::{Stage, StageFault};
use std::alloc::Global;

/// The border of a cut in this dimension with so many points low, after the low side got a point: none for as long as that side is
/// a leaf; where it is not any more, a border that is built of its points; and else the border with the point. `leaf` is the page
/// of the low side, where that is an entry.
///
/// `Damaged` carries the page of the cut, where the low side is no entry or no tree may be built of its points; the leaf's page, where it
/// has not 64; or what the border calls damaged.
pub(crate) fn border_add<B: BorderTree, S: Stage>(
    alloc: Global,
    stage: &mut S,
    page: u64,
    leaf: Option<u64>,
    dimension: u8,
    low: u32,
    border: &Tree,
    point: &Point,
) -> Result<Tree, StageFault>
    requires dimension { dimension < suc B.DIMS }
    requires keys { AreKeysBelow (suc B.DIMS) point.now.keys }
    requires version { point.now.version < 2 ^ 32 - 1 }
    ensures grown { IfOk result (λ grown. IsTrue (S.tells stage.old) → (side : Part)
        → BorderTakes B.BorderTree (S.map stage.old) leaf dimension low border.now side point.now
        → BorderGrown B.BorderTree (S.map stage.old) (S.map stage.new) dimension low border.now grown (points_of side) point.now) }
    ensures apart { IfOk result (λ grown. IsTrue (S.tells stage.old)
        → BorderMayLeave B.BorderTree (without_dimension dimension point.now) (S.map stage.old) low border.now (S.map stage.new)) }
    ensures damaged { (damaged : ℕ) → result ≡ Err (StageFault.Damaged damaged) → IsTrue (S.tells stage.old)
        → IsDamagedAtBorder B.BorderTree point.now damaged (S.map stage.old) page leaf dimension low border.now ⊎ (¬ S.free_in_order stage.old) }
    ensures well { IsTrue (S.tells stage.old) → (side : Part) → BorderTakes B.BorderTree (S.map stage.old) leaf dimension low border.now side point.now
        → (64 < low → B.balanced (S.map stage.old) border.now) → GoesWell S.Pages (border_growth B.BorderTree low) stage.old stage.new result }
    ensures fits { IfOk result (λ grown. IsTrue (tree_fits border.now) → IsTrue (tree_fits grown)) }
    ensures typed { IfOk result (λ grown. IsTreeTyped border.now → IsTreeTyped grown) }
    ensures changes { Changes S.Pages (S.allotted stage.new + 1) stage.old stage.new result }
{
    B::border_laws();
    if low < 64 {
        return Ok(*border);
    }
    if low == 64 {
        return match begin_border::<B, S>(alloc, stage, page, leaf, dimension, point) {
            Err(fault) => Err(fault),
            Ok(begun) => Ok(begun),
        };
    }
    let mut grown = *border;
    match B::add(alloc, stage, &mut grown, &drop_dimension(point, dimension)) {
        Err(fault) => Err(fault),
        Ok(()) => Ok(grown),
    }
}

// A border of the 64 points of a leaf and one more.
fn begin_border<B: BorderTree, S: Stage>(
    alloc: Global,
    stage: &mut S,
    page: u64,
    leaf: Option<u64>,
    dimension: u8,
    point: &Point,
) -> Result<Tree, StageFault>
    requires dimension { dimension < suc B.DIMS }
    ensures begun { IfOk result (λ grown. IsTrue (S.tells stage.old) → (side : Part) → PartStands B.BorderTree (S.map stage.old) 64 side → leaf ≡ first_page side
        → BorderBegun B.BorderTree (S.map stage.old) (S.map stage.new) dimension grown (points_of side) point.now) }
    ensures apart { IfOk result (λ grown. IsTrue (S.tells stage.old) → OthersStay (λ p. ⊥) (S.map stage.old) (S.map stage.new)) }
    ensures damaged { (damaged : ℕ) → result ≡ Err (StageFault.Damaged damaged) → IsTrue (S.tells stage.old)
        → IsDamagedBegun (suc B.DIMS) point.now damaged (S.map stage.old) page leaf ⊎ (¬ S.free_in_order stage.old) }
    ensures well { IsTrue (S.tells stage.old) → (side : Part) → PartStands B.BorderTree (S.map stage.old) 64 side → leaf ≡ first_page side
        → MayBeBuilt (suc B.DIMS) (point.now ∷ points_of side) → GoesWell S.Pages (65 * B.share 65) stage.old stage.new result }
    ensures fits { IfOk result (λ grown. IsTrue (tree_fits grown)) }
    ensures typed { IfOk result (λ grown. IsTreeTyped grown) }
    ensures changes { Changes S.Pages (S.allotted stage.new + 1) stage.old stage.new result }
{
    B::border_laws();
    let Some(leaf) = leaf else {
        return Err(StageFault::Damaged(page));
    };
    match stage_leaf::<S>(stage, leaf, 64) {
        Err(fault) => Err(fault),
        Ok(points) => {
            let mut all = with_point(points.as_slice(), point);
            match build_border::<B, S>(alloc, stage, page, dimension, all.as_mut_slice()) {
                Err(fault) => Err(fault),
                Ok(begun) => Ok(begun),
            }
        }
    }
}

// A border of 65 points, without a dimension.
fn build_border<B: BorderTree, S: Stage>(
    alloc: Global,
    stage: &mut S,
    page: u64,
    dimension: u8,
    points: &mut [Point],
) -> Result<Tree, StageFault>
    requires dimension { dimension < suc B.DIMS }
    requires number { length points.old ≡ 65 }
    ensures begun { IfOk result (λ grown. IsTrue (S.tells stage.old) → (others : List Point) (point : Point) → points.old ≡ point ∷ others
        → BorderBegun B.BorderTree (S.map stage.old) (S.map stage.new) dimension grown others point) }
    ensures apart { IfOk result (λ grown. IsTrue (S.tells stage.old) → OthersStay (λ p. ⊥) (S.map stage.old) (S.map stage.new)) }
    ensures damaged { (damaged : ℕ) → result ≡ Err (StageFault.Damaged damaged) → IsTrue (S.tells stage.old)
        → ((damaged ≡ page) × MayNotBeBuilt (suc B.DIMS) points.old) ⊎ (¬ S.free_in_order stage.old) }
    ensures well { IsTrue (S.tells stage.old) → MayBeBuilt (suc B.DIMS) points.old → GoesWell S.Pages (65 * B.share 65) stage.old stage.new result }
    ensures fits { IfOk result (λ grown. IsTrue (tree_fits grown)) }
    ensures typed { IfOk result (λ grown. IsTreeTyped grown) }
    ensures changes { Changes S.Pages (S.allotted stage.new + 1) stage.old stage.new result }
{
    B::border_laws();
    points_may_be_built();
    if !may_be_built(points, B::DIMS + 1) {
        return Err(StageFault::Damaged(page));
    }
    match border_points(alloc, points, dimension) {
        Err(_) => Err(StageFault::NoMemory),
        Ok(mut kept) => match B::build(alloc, stage, kept.as_mut_slice()) {
            Err(fault) => Err(fault),
            Ok(begun) => Ok(begun),
        },
    }
}
