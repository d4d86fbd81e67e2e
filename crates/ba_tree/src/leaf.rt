//! A point that is added to a leaf.
ghost use Rattle.std.specs.Prelude.{◌≡◌, ◌+◌, ◌≤◌, ◌<◌, ◌⊎◌, ◌==◌, ◌++◌, ◌∷◌, [], false, ℕ, suc, List, length, take, drop, Err, IsTrue, IsSome, IfOk, OnOk};
ghost use Rattle.bw_types.specs.declared.point.Point.{Point};
ghost use Rattle.ports.specs.Calls.{Grows};
ghost use Rattle.ports.specs.Frame.{Replaces};
ghost use Rattle.cut_parts.specs.Spelling.{HoldsLeaf};
ghost use Rattle.cut_parts.specs.Borders.{MayBeBuilt};
ghost use Rattle.cut_parts.specs.Reach.{IsNoLeafWith, MayNotBeBuilt};
ghost use Rattle.ba_tree.specs.Additions.{IsLeafSplit};
ghost use Rattle.ba_tree.specs.Going.{GoesWell};

use crate::storing::{look_again, stage_leaf};
use arrayvec::ArrayVec;
use bw_types::Point;
use cut_parts::{BorderTree, make_leaf, may_be_built, median_cut, put_leaf};
use ports::{Stage, StageFault, blank_page};

/// Puts a point behind those of a leaf of so many.
pub(crate) fn leaf_add<S: Stage>(
    stage: &mut S,
    page: u64,
    count: u32,
    point: &Point,
) -> Result<(), StageFault>
    requires count { count < 64 }
    ensures put { OnOk result (IsTrue (S.tells stage.old) → (points : List Point) → HoldsLeaf (S.map stage.old) page points
        → HoldsLeaf (S.map stage.new) page (points ++ (point.now ∷ []))) }
    ensures change { OnOk result (IsTrue (S.tells stage.old) → Replaces (page ∷ []) (page ∷ []) (S.map stage.old) (S.map stage.new)) }
    ensures damaged { (damaged : ℕ) → result ≡ Err (StageFault.Damaged damaged) → IsTrue (S.tells stage.old)
        → (damaged ≡ page) × ((points : List Point) → HoldsLeaf (S.map stage.old) page points → length points ≡ count → ⊥) }
    ensures well { IsTrue (S.tells stage.old) → (points : List Point) → HoldsLeaf (S.map stage.old) page points → length points ≡ count
        → GoesWell S.Pages 0 stage.old stage.new result }
    ensures grows { Grows S.Pages 0 stage.old stage.new result }
{
    match stage_leaf::<S>(stage, page, count) {
        Err(fault) => Err(fault),
        Ok(mut points) => {
            points.push(*point);
            match put_leaf(stage, page, points.as_slice()) {
                Err(fault) => Err(fault),
                Ok(()) => Ok(()),
            }
        }
    }
}

/// The cut at which a leaf was split, and the page of its high side.
#[derive(Clone, Copy, Debug, PartialEq, Eq)]
pub(crate) struct LeafCut {
    pub dimension: u8,
    pub key: u64,
    pub high: u64,
}

/// Splits a leaf of 64 points with one more by a median cut: 32 points stay in its page, 33 go to a new one.
///
/// `Damaged` carries the page, where the points share a key in a dimension, or are not below the end of regions.
pub(crate) fn leaf_split<B: BorderTree, S: Stage>(
    stage: &mut S,
    page: u64,
    point: &Point,
) -> Result<LeafCut, StageFault>
    ensures split { IfOk result (λ cut. IsTrue (S.tells stage.old) → (points : List Point) → HoldsLeaf (S.map stage.old) page points
        → IsLeafSplit (suc B.DIMS) (S.map stage.old) (S.map stage.new) page cut.high cut.dimension cut.key points point.now) }
    ensures dimension { IfOk result (λ cut. cut.dimension < suc B.DIMS) }
    ensures number { IfOk result (λ cut. 3 ≤ cut.high) }
    ensures change { IfOk result (λ cut. IsTrue (S.tells stage.old) → Replaces (page ∷ []) (page ∷ cut.high ∷ []) (S.map stage.old) (S.map stage.new)) }
    ensures damaged { (damaged : ℕ) → result ≡ Err (StageFault.Damaged damaged) → IsTrue (S.tells stage.old)
        → ((damaged ≡ page) × (((points : List Point) → HoldsLeaf (S.map stage.old) page points → length points ≡ 64 → ⊥)
        ⊎ IsNoLeafWith (suc B.DIMS) (S.map stage.old) page point.now)) ⊎ (¬ S.free_in_order stage.old) }
    ensures well { IsTrue (S.tells stage.old) → (points : List Point) → HoldsLeaf (S.map stage.old) page points → length points ≡ 64
        → MayBeBuilt (suc B.DIMS) (point.now ∷ points) → GoesWell S.Pages 1 stage.old stage.new result }
    ensures grows { Grows S.Pages 1 stage.old stage.new result }
{
    match stage_leaf::<S>(stage, page, 64) {
        Err(fault) => Err(fault),
        Ok(points) => {
            let mut all = with_point(points.as_slice(), point);
            match split_points::<B, S>(stage, page, all.as_mut_slice()) {
                Err(fault) => Err(fault),
                Ok(cut) => Ok(cut),
            }
        }
    }
}

// Puts 65 points into the page and a new one, by a median cut.
fn split_points<B: BorderTree, S: Stage>(
    stage: &mut S,
    page: u64,
    points: &mut [Point],
) -> Result<LeafCut, StageFault>
    requires { length points.old ≡ 65 }
    ensures split { IfOk result (λ cut. IsTrue (S.tells stage.old) → (others : List Point) (point : Point) → points.old ≡ point ∷ others
        → IsLeafSplit (suc B.DIMS) (S.map stage.old) (S.map stage.new) page cut.high cut.dimension cut.key others point) }
    ensures dimension { IfOk result (λ cut. cut.dimension < suc B.DIMS) }
    ensures number { IfOk result (λ cut. 3 ≤ cut.high) }
    ensures change { IfOk result (λ cut. IsTrue (S.tells stage.old) → Replaces (page ∷ []) (page ∷ cut.high ∷ []) (S.map stage.old) (S.map stage.new)) }
    ensures damaged { (damaged : ℕ) → result ≡ Err (StageFault.Damaged damaged) → IsTrue (S.tells stage.old) → IsSome (S.map stage.old page)
        → ((damaged ≡ page) × MayNotBeBuilt (suc B.DIMS) points.old) ⊎ (¬ S.free_in_order stage.old) }
    ensures well { IsTrue (S.tells stage.old) → IsSome (S.map stage.old page) → MayBeBuilt (suc B.DIMS) points.old
        → GoesWell S.Pages 1 stage.old stage.new result }
    ensures grows { Grows S.Pages 1 stage.old stage.new result }
{
    B::border_laws();
    if !may_be_built(points, B::DIMS + 1) {
        return Err(StageFault::Damaged(page));
    }
    let (dimension, key) = median_cut(points, B::DIMS + 1);
    match put_halves::<S>(stage, page, points) {
        Err(fault) => Err(fault),
        Ok(high) => Ok(LeafCut {
            dimension,
            key,
            high,
        }),
    }
}

/// A point and those of a leaf.
pub(crate) fn with_point(points: &[Point], point: &Point) -> ArrayVec<Point, 65>
    requires { length points.now ≤ 64 }
    ensures { result.items ≡ point.now ∷ points.now }
{
    let mut all = ArrayVec::new();
    all.push(*point);
    for other in points {
        all.push(*other);
    }
    all
}

// Puts the first 32 of 65 points into the page, and the others into a new one.
fn put_halves<S: Stage>(stage: &mut S, page: u64, points: &[Point]) -> Result<u64, StageFault>
    requires { length points.now ≡ 65 }
    ensures halves { IfOk result (λ high. IsTrue (S.tells stage.old) → HoldsLeaf (S.map stage.new) page (take 32 points.now)
        × HoldsLeaf (S.map stage.new) high (drop 32 points.now) × ((high == page) ≡ false)
        × Replaces (page ∷ []) (page ∷ high ∷ []) (S.map stage.old) (S.map stage.new)) }
    ensures number { IfOk result (λ high. 3 ≤ high) }
    ensures well { IsTrue (S.tells stage.old) → IsSome (S.map stage.old page) → GoesWell S.Pages 1 stage.old stage.new result }
    ensures grows { Grows S.Pages 1 stage.old stage.new result }
{
    let mut bytes = blank_page();
    match look_again(stage, page, &mut bytes) {
        Err(fault) => Err(fault),
        Ok(()) => {
            let (lows, highs) = points.split_at(32);
            match put_leaf(stage, page, lows) {
                Err(fault) => Err(fault),
                Ok(()) => match make_leaf(stage, highs) {
                    Err(fault) => Err(fault),
                    Ok(high) => Ok(high),
                },
            }
        }
    }
}
