//! A point that is added to a tree over one to three dimensions.
ghost use Rattle.std.specs.Prelude.{◌≡◌, ◌≢◌, ◌+◌, ◌-◌, ◌^◌, ◌<◌, ◌≤◌, ◌⊎◌, ◌∷◌, ℕ, List, Err, IsTrue, IsSome, OnOk, OnErr};
ghost use Rattle.bw_types.specs.declared.point.Point.{Point};
ghost use Rattle.ports.specs.Calls.{Changes};
ghost use Rattle.ports.specs.Frame.{Replaces};
ghost use Rattle.page_layout.specs.TreeValue.{IsTreeTyped, tree_fits};
ghost use Rattle.dom_index.specs.Points.{AreKeysBelow, HasRoom, IsNewPoint};
ghost use Rattle.ba_tree.specs.Over.{BalancedOver, IsDamagedForAdd, MayBecome, MayChange, StandsOver, pages_over, tree_growth};

use crate::key_tree::KeyTree;
use crate::plane_tree::PlaneTree;
use crate::tree::tree_add;
use bw_types::{Point, Tree};
use cut_parts::BorderTree;
use dom_index::DomIndex;
use mvsb_tree::MvIndex;
use ports::{Stage, StageFault};
use std::alloc::Global;

/// Adds a point to a tree over one to three dimensions. Where the tree stood and the point is new to it, it stands for one more.
///
/// After a refusal the tree value is as it was, and the stage is to be abandoned.
pub fn add_point<S: Stage>(
    alloc: Global,
    stage: &mut S,
    dims: u8,
    tree: &mut Tree,
    point: &Point,
) -> Result<(), StageFault>
    requires dims { (1 ≤ dims) × (dims ≤ 3) }
    requires keys { AreKeysBelow dims point.now.keys }
    requires version { point.now.version < 2 ^ 32 - 1 }
    ensures stands { OnOk result (IsTrue (S.tells stage.old) → (points : List Point)
        → StandsOver ⟦<MvIndex as DomIndex>⟧ ⟦<KeyTree as BorderTree>⟧ ⟦<PlaneTree as BorderTree>⟧ (S.map stage.old) dims tree.old points
        → IsNewPoint dims points point.now
        → StandsOver ⟦<MvIndex as DomIndex>⟧ ⟦<KeyTree as BorderTree>⟧ ⟦<PlaneTree as BorderTree>⟧ (S.map stage.new) dims tree.new (point.now ∷ points)) }
    ensures balanced { OnOk result (IsTrue (S.tells stage.old) → (points : List Point)
        → StandsOver ⟦<MvIndex as DomIndex>⟧ ⟦<KeyTree as BorderTree>⟧ ⟦<PlaneTree as BorderTree>⟧ (S.map stage.old) dims tree.old points
        → IsNewPoint dims points point.now
        → BalancedOver ⟦<MvIndex as DomIndex>⟧ ⟦<KeyTree as BorderTree>⟧ ⟦<PlaneTree as BorderTree>⟧ (S.map stage.old) dims tree.old
        → BalancedOver ⟦<MvIndex as DomIndex>⟧ ⟦<KeyTree as BorderTree>⟧ ⟦<PlaneTree as BorderTree>⟧ (S.map stage.new) dims tree.new) }
    ensures change { OnOk result (IsTrue (S.tells stage.old) → (points : List Point)
        → StandsOver ⟦<MvIndex as DomIndex>⟧ ⟦<KeyTree as BorderTree>⟧ ⟦<PlaneTree as BorderTree>⟧ (S.map stage.old) dims tree.old points
        → IsNewPoint dims points point.now
        → Replaces (pages_over ⟦<MvIndex as DomIndex>⟧ ⟦<KeyTree as BorderTree>⟧ ⟦<PlaneTree as BorderTree>⟧ (S.map stage.old) dims tree.old)
        (pages_over ⟦<MvIndex as DomIndex>⟧ ⟦<KeyTree as BorderTree>⟧ ⟦<PlaneTree as BorderTree>⟧ (S.map stage.new) dims tree.new)
        (S.map stage.old) (S.map stage.new)) }
    ensures apart { OnOk result (IsTrue (S.tells stage.old) → (page : ℕ) → IsSome (S.map stage.old page)
        → ¬ MayChange ⟦<MvIndex as DomIndex>⟧ ⟦<KeyTree as BorderTree>⟧ ⟦<PlaneTree as BorderTree>⟧ (S.map stage.old) dims tree.old point.now page
        → S.map stage.new page ≡ S.map stage.old page) }
    ensures becomes { OnOk result (IsTrue (S.tells stage.old)
        → MayBecome ⟦<MvIndex as DomIndex>⟧ ⟦<KeyTree as BorderTree>⟧ ⟦<PlaneTree as BorderTree>⟧ (S.map stage.old) dims tree.old point.now tree.new) }
    ensures low { OnOk result (IsTrue (S.tells stage.old) → (points : List Point)
        → StandsOver ⟦<MvIndex as DomIndex>⟧ ⟦<KeyTree as BorderTree>⟧ ⟦<PlaneTree as BorderTree>⟧ (S.map stage.old) dims tree.old points
        → IsNewPoint dims points point.now → 2 ≤ dims → HasRoom tree.old → tree.new.levels ≡ 1) }
    ensures rules { OnOk result (IsTrue (tree_fits tree.old) → IsTrue (tree_fits tree.new)) }
    ensures typed { IsTreeTyped tree.new }
    ensures unchanged { OnErr result (tree.new ≡ tree.old) }
    ensures damaged { (page : ℕ) → result ≡ Err (StageFault.Damaged page) → IsTrue (S.tells stage.old)
        → IsDamagedForAdd ⟦<MvIndex as DomIndex>⟧ ⟦<KeyTree as BorderTree>⟧ ⟦<PlaneTree as BorderTree>⟧ (S.map stage.old) dims tree.old point.now page
        ⊎ (¬ S.free_in_order stage.old) }
    ensures sound { (points : List Point) (page : ℕ) → IsTrue (S.tells stage.old)
        → StandsOver ⟦<MvIndex as DomIndex>⟧ ⟦<KeyTree as BorderTree>⟧ ⟦<PlaneTree as BorderTree>⟧ (S.map stage.old) dims tree.old points
        → IsNewPoint dims points point.now
        → BalancedOver ⟦<MvIndex as DomIndex>⟧ ⟦<KeyTree as BorderTree>⟧ ⟦<PlaneTree as BorderTree>⟧ (S.map stage.old) dims tree.old
        → S.free_in_order stage.old → result ≢ Err (StageFault.Damaged page) }
    ensures changes { Changes S.Pages (S.allotted stage.new + 1) stage.old stage.new result }
    ensures growth { IsTrue (S.tells stage.old) → (points : List Point)
        → StandsOver ⟦<MvIndex as DomIndex>⟧ ⟦<KeyTree as BorderTree>⟧ ⟦<PlaneTree as BorderTree>⟧ (S.map stage.old) dims tree.old points
        → IsNewPoint dims points point.now
        → BalancedOver ⟦<MvIndex as DomIndex>⟧ ⟦<KeyTree as BorderTree>⟧ ⟦<PlaneTree as BorderTree>⟧ (S.map stage.old) dims tree.old
        → Changes S.Pages (tree_growth dims tree.old.levels tree.old.count) stage.old stage.new result }
{
    if dims == 1 {
        return match MvIndex::add(alloc, stage, 1, tree, point) {
            Err(fault) => Err(fault),
            Ok(()) => Ok(()),
        };
    }
    if dims == 2 {
        return match tree_add::<KeyTree, S>(alloc, stage, tree, point) {
            Err(fault) => Err(fault),
            Ok(()) => Ok(()),
        };
    }
    match tree_add::<PlaneTree, S>(alloc, stage, tree, point) {
        Err(fault) => Err(fault),
        Ok(()) => Ok(()),
    }
}
