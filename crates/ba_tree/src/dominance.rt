//! The dominance sum of a tree over one to three dimensions.
ghost use Rattle.std.specs.Prelude.{◌≡◌, ◌≢◌, ◌+◌, ◌≤◌, ℕ, List, Err, IsTrue, IfOk, OnOk};
ghost use Rattle.bw_types.specs.Depths.{query_pages};
ghost use Rattle.bw_types.specs.Dominance.{dominance_sum};
ghost use Rattle.bw_types.specs.declared.point.Point.{Point};
ghost use Rattle.ports.specs.Calls.{OnlyReads};
ghost use Rattle.dom_index.specs.Points.{AreKeysBelow};
ghost use Rattle.ba_tree.specs.Over.{BalancedOver, IsDamagedForSum, StandsOver};

use crate::key_tree::KeyTree;
use crate::plane_tree::PlaneTree;
use crate::sum::tree_sum;
use bw_types::Tree;
use cut_parts::BorderTree;
use dom_index::DomIndex;
use mvsb_tree::MvIndex;
use ports::{PageFault, Pages};

/// The sum of the weights of the points whose version and first `dims` keys are at or below those given, modulo `2^128`, in a tree
/// over one to three dimensions. It takes no memory.
///
/// `Disk` comes only where the count of faults rose. `Damaged` carries a page of which `IsDamagedForSum` holds; it never comes
/// where the tree stands. A tree that stands and is balanced is read from at most `query_pages` pages.
pub fn dom_sum<P: Pages>(
    pages: &mut P,
    dims: u8,
    tree: &Tree,
    keys: &[u64; 3],
    version: u32,
) -> Result<u128, PageFault>
    requires dims { (1 ≤ dims) × (dims ≤ 3) }
    requires keys { AreKeysBelow dims keys.now }
    ensures sum { IfOk result (λ value. IsTrue (P.tells pages.old) → (points : List Point)
        → StandsOver ⟦<MvIndex as DomIndex>⟧ ⟦<KeyTree as BorderTree>⟧ ⟦<PlaneTree as BorderTree>⟧ (P.map pages.old) dims tree.now points
        → value ≡ dominance_sum dims points keys.now version) }
    ensures damaged { (page : ℕ) → result ≡ Err (PageFault.Damaged page) → IsTrue (P.tells pages.old)
        → IsDamagedForSum ⟦<MvIndex as DomIndex>⟧ ⟦<KeyTree as BorderTree>⟧ ⟦<PlaneTree as BorderTree>⟧ (P.map pages.old) dims tree.now keys.now version page }
    ensures whole { OnOk result (IsTrue (P.tells pages.old) → (page : ℕ)
        → ¬ IsDamagedForSum ⟦<MvIndex as DomIndex>⟧ ⟦<KeyTree as BorderTree>⟧ ⟦<PlaneTree as BorderTree>⟧ (P.map pages.old) dims tree.now keys.now version page) }
    ensures sound { (points : List Point) (page : ℕ) → IsTrue (P.tells pages.old)
        → StandsOver ⟦<MvIndex as DomIndex>⟧ ⟦<KeyTree as BorderTree>⟧ ⟦<PlaneTree as BorderTree>⟧ (P.map pages.old) dims tree.now points
        → result ≢ Err (PageFault.Damaged page) }
    ensures reads { OnlyReads P.Pages (P.gets pages.new) pages.old pages.new result }
    ensures cost { IsTrue (P.tells pages.old) → (points : List Point)
        → StandsOver ⟦<MvIndex as DomIndex>⟧ ⟦<KeyTree as BorderTree>⟧ ⟦<PlaneTree as BorderTree>⟧ (P.map pages.old) dims tree.now points
        → BalancedOver ⟦<MvIndex as DomIndex>⟧ ⟦<KeyTree as BorderTree>⟧ ⟦<PlaneTree as BorderTree>⟧ (P.map pages.old) dims tree.now
        → P.gets pages.new ≤ P.gets pages.old + query_pages dims tree.now.count }
{
    if dims == 1 {
        return match MvIndex::sum(pages, 1, tree, keys, version) {
            Err(fault) => Err(fault),
            Ok(value) => Ok(value),
        };
    }
    if dims == 2 {
        return match tree_sum::<KeyTree, P>(pages, tree, keys, version) {
            Err(fault) => Err(fault),
            Ok(value) => Ok(value),
        };
    }
    match tree_sum::<PlaneTree, P>(pages, tree, keys, version) {
        Err(fault) => Err(fault),
        Ok(value) => Ok(value),
    }
}
