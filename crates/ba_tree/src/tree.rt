//! A point that is added to a tree of cuts.
ghost use Rattle.std.specs.Prelude.{◌≡◌, ◌≢◌, ◌+◌, ◌-◌, ◌^◌, ◌≤◌, ◌<◌, ◌⊎◌, ◌∷◌, [], ℕ, suc, nat_le, if◌then◌else◌, List, length, Some, Err, IsTrue, IfOk, OnOk, OnErr};
ghost use Rattle.bw_types.specs.declared.point.Point.{Point};
ghost use Rattle.ports.specs.Calls.{Changes, Grows};
ghost use Rattle.ports.specs.Frame.{Replaces};
ghost use Rattle.page_layout.specs.TreeValue.{IsTreeTyped, tree_fits};
ghost use Rattle.page_layout.specs.declared.cut_page.CutNode.TheVariants.{Entry};
ghost use Rattle.dom_index.specs.Becoming.{MayName};
ghost use Rattle.dom_index.specs.Points.{AreKeysBelow, IsNewPoint};
ghost use Rattle.cut_parts.specs.Borders.{OthersStay, TakesPoint};
ghost use Rattle.cut_parts.specs.Damage.{BeforePage};
ghost use Rattle.cut_parts.specs.Parts.{Part};
ghost use Rattle.cut_parts.specs.Reach.{IsDamagedForAdd, IsDamagedFrom, Leads, LeadsFrom};
ghost use Rattle.cut_parts.specs.Spelling.{HoldsCuts, HoldsLeaf, first_page};
ghost use Rattle.cut_parts.specs.Standing.{CutsBalanced, CutsStand, PartBalanced, cuts_growth, tree_pages};
ghost use Rattle.ba_tree.specs.Additions.{ChangeFits, IsAddedAs, MayTake};
ghost use Rattle.ba_tree.specs.Going.{GoesWell};
ghost use Rattle.ba_tree.specs.Growing.{root_growth};
ghost use Rattle.ba_tree.specs.declared.change.Change.TheVariants.{Raised};

use crate::adding::page_add;
use crate::change::Change;
use arrayvec::ArrayVec;
use bw_types::{Point, Tree};
use cut_parts::{BorderTree, make_cuts, make_leaf};
use page_layout::{CutNode, CutPage};
use ports::{Stage, StageFault, blank_page};
use std::alloc::Global;

const MOST_POINTS: u32 = 0x8000_0000;

/// Adds a point. Where the tree stood and the point is new to it, it stands for one point more.
///
/// A point goes down the cuts to a leaf, and into the borders of those cuts on its way below which it lies. Where a side of a cut would
/// have more than three fifths of its points, the part of this cut is made anew, and the addition ends with it. A leaf of 64 points
/// and a page of 64 entries are split.
///
/// The first point takes one page number at most, and a further one none for as long as the tree has fewer than 64.
///
/// After a refusal the tree value is as it was, and the stage is to be abandoned. `Disk` comes only where the count of faults rose,
/// `PageLimit` only where as many page numbers are given out as the limit allows, and `NoMemory` where the stage or the call finds
/// none. `Damaged` never comes where the tree stands and is balanced, the point is new and the free pages are in order; else it
/// carries
///
/// - the root, where it is no number of a page, or the tree has `2^31` points;
/// - a page on the way of the point that holds no leaf of as many points as are told of it, or no cuts, or a cut that is not sound; a
///   leaf of 64 points, of which with the new one no tree may be built; or a page that is gone after what was done below it;
/// - where the point goes low, what an addition to the border calls damaged; and where a border begins, its leaf, if that has not 64
///   points, or the page of the cut, if the low side is no leaf or no tree may be built of its points;
/// - where a part is made anew, what collecting or dropping it calls damaged, or the page of its cut, where no tree may be built of its
///   points and the new one;
/// - any page, where the free pages are not in order.
pub fn tree_add<B: BorderTree, S: Stage>(
    alloc: Global,
    stage: &mut S,
    tree: &mut Tree,
    point: &Point,
) -> Result<(), StageFault>
    requires keys { AreKeysBelow (suc B.DIMS) point.now.keys }
    requires version { point.now.version < 2 ^ 32 - 1 }
    ensures added { OnOk result (IsTrue (S.tells stage.old) → (points : List Point) → CutsStand B.BorderTree (S.map stage.old) tree.old points
        → IsNewPoint (suc B.DIMS) points point.now
        → TakesPoint (CutsStand B.BorderTree) (tree_pages B.BorderTree) (CutsBalanced B.BorderTree) (S.map stage.old) (S.map stage.new) tree.old tree.new points point.now) }
    // Whatever the pages hold, those to which the tree does not lead the point stay as they are, and none of them becomes the root.
    ensures apart { OnOk result (IsTrue (S.tells stage.old) → OthersStay (Leads B.BorderTree (S.map stage.old) tree.old point.now) (S.map stage.old) (S.map stage.new)) }
    ensures root { OnOk result (IsTrue (S.tells stage.old)
        → MayName (Leads B.BorderTree (S.map stage.old) tree.old point.now) (S.map stage.old) tree.old.root tree.new.root) }
    ensures count { OnOk result (tree.new.count ≡ tree.old.count + 1) }
    ensures rules { OnOk result (IsTrue (tree_fits tree.old) → IsTrue (tree_fits tree.new)) }
    ensures typed { IsTreeTyped tree.new }
    ensures unchanged { OnErr result (tree.new ≡ tree.old) }
    ensures damaged { (page : ℕ) → result ≡ Err (StageFault.Damaged page) → IsTrue (S.tells stage.old)
        → IsDamagedForAdd B.BorderTree (S.map stage.old) tree.old point.now page ⊎ (¬ S.free_in_order stage.old) }
    ensures sound { (points : List Point) (page : ℕ) → IsTrue (S.tells stage.old) → CutsStand B.BorderTree (S.map stage.old) tree.old points
        → IsNewPoint (suc B.DIMS) points point.now → CutsBalanced B.BorderTree (S.map stage.old) tree.old → S.free_in_order stage.old
        → result ≢ Err (StageFault.Damaged page) }
    ensures changes { Changes S.Pages (S.allotted stage.new + 1) stage.old stage.new result }
    ensures growth { IsTrue (S.tells stage.old) → (points : List Point) → CutsStand B.BorderTree (S.map stage.old) tree.old points
        → IsNewPoint (suc B.DIMS) points point.now → CutsBalanced B.BorderTree (S.map stage.old) tree.old
        → Changes S.Pages (cuts_growth B.BorderTree (length points)) stage.old stage.new result }
    ensures small { IsTrue (S.tells stage.old) → (points : List Point) → CutsStand B.BorderTree (S.map stage.old) tree.old points
        → IsNewPoint (suc B.DIMS) points point.now → CutsBalanced B.BorderTree (S.map stage.old) tree.old → length points < 64
        → Changes S.Pages (1 - length points) stage.old stage.new result }
{
    B::border_laws();
    three_keys(point);
    if tree.count == 0 {
        return match first_leaf(stage, point) {
            Err(fault) => Err(fault),
            Ok(first) => {
                *tree = first;
                Ok(())
            }
        };
    }
    if tree.root < 3 || tree.count >= MOST_POINTS {
        return Err(StageFault::Damaged(tree.root));
    }
    match root_add::<B, S>(alloc, stage, tree.root, tree.count, point) {
        Err(fault) => Err(fault),
        Ok(root) => {
            *tree = tree_of(root, tree.count + 1);
            Ok(())
        }
    }
}

// Proves that a point has three keys; it does nothing when it runs.
fn three_keys(point: &Point)
    ensures { length point.now.keys ≡ 3 }
{
    let _keys = point.keys;
}

// The tree of so many points, of which there are some, with this root.
fn tree_of(root: u64, count: u32) -> Tree
    ensures { result ≡ record { root = root; levels = if nat_le count 64 then 1 else 2; count = count; changes = 0; last = 0 } }
{
    Tree {
        root,
        levels: if count <= 64 { 1 } else { 2 },
        count,
        changes: 0,
        last: 0,
    }
}

// A tree of one point.
fn first_leaf<S: Stage>(stage: &mut S, point: &Point) -> Result<Tree, StageFault>
    ensures made { IfOk result (λ tree. IsTrue (S.tells stage.old) → HoldsLeaf (S.map stage.new) tree.root (point.now ∷ [])
        × Replaces [] (tree.root ∷ []) (S.map stage.old) (S.map stage.new)) }
    ensures tree { IfOk result (λ tree. (3 ≤ tree.root) × (tree ≡ record { root = tree.root; levels = 1; count = 1; changes = 0; last = 0 })) }
    ensures well { IsTrue (S.tells stage.old) → GoesWell S.Pages 1 stage.old stage.new result }
    ensures grows { Grows S.Pages 1 stage.old stage.new result }
{
    match make_leaf(stage, &[*point]) {
        Err(fault) => Err(fault),
        Ok(root) => Ok(tree_of(root, 1)),
    }
}

// Adds a point to the part that is all of a tree, whose first page this is: the page with which it begins then. A root that is
// split gets a new root page of one cut.
fn root_add<B: BorderTree, S: Stage>(
    alloc: Global,
    stage: &mut S,
    root: u64,
    count: u32,
    point: &Point,
) -> Result<u64, StageFault>
    requires root { 3 ≤ root }
    requires count { count < 2 ^ 31 }
    requires keys { AreKeysBelow (suc B.DIMS) point.now.keys }
    requires version { point.now.version < 2 ^ 32 - 1 }
    ensures added { IfOk result (λ first. IsTrue (S.tells stage.old) → (part : Part) → first_page part ≡ Some root
        → MayTake B.BorderTree (S.map stage.old) count part point.now
        → IsAddedAs B.BorderTree (S.map stage.old) (S.map stage.new) count part point.now (Entry first ∷ [])) }
    ensures number { IfOk result (λ first. 3 ≤ first) }
    ensures apart { OnOk result (IsTrue (S.tells stage.old)
        → OthersStay (LeadsFrom B.BorderTree point.now (S.map stage.old) count (BeforePage root)) (S.map stage.old) (S.map stage.new)) }
    ensures named { IfOk result (λ first. IsTrue (S.tells stage.old)
        → MayName (LeadsFrom B.BorderTree point.now (S.map stage.old) count (BeforePage root)) (S.map stage.old) root first) }
    ensures damaged { (damaged : ℕ) → result ≡ Err (StageFault.Damaged damaged) → IsTrue (S.tells stage.old)
        → IsDamagedFrom B.BorderTree point.now (S.map stage.old) count (BeforePage root) damaged ⊎ (¬ S.free_in_order stage.old) }
    ensures well { IsTrue (S.tells stage.old) → (part : Part) → first_page part ≡ Some root → MayTake B.BorderTree (S.map stage.old) count part point.now
        → PartBalanced B.BorderTree (S.map stage.old) part → GoesWell S.Pages (root_growth B.BorderTree count) stage.old stage.new result }
    ensures changes { Changes S.Pages (S.allotted stage.new + 1) stage.old stage.new result }
{
    B::border_laws();
    let mut bytes = blank_page();
    match page_add::<B, S>(alloc, stage, root, count, point, &mut bytes) {
        Err(fault) => Err(fault),
        Ok(Change::Same) => Ok(root),
        Ok(Change::Moved { page }) => Ok(page),
        Ok(Change::Raised { cut, low, high }) => match new_root::<S>(stage, &cut, low, high) {
            Err(fault) => Err(fault),
            Ok(first) => Ok(first),
        },
    }
}

// A new root page of one cut.
fn new_root<S: Stage>(stage: &mut S, cut: &CutNode, low: u64, high: u64) -> Result<u64, StageFault>
    requires { ChangeFits (Raised cut.now low high) }
    ensures made { IfOk result (λ page. IsTrue (S.tells stage.old) → HoldsCuts (S.map stage.new) page (cut.now ∷ Entry low ∷ Entry high ∷ [])
        × Replaces [] (page ∷ []) (S.map stage.old) (S.map stage.new)) }
    ensures number { IfOk result (λ page. 3 ≤ page) }
    ensures well { IsTrue (S.tells stage.old) → GoesWell S.Pages 1 stage.old stage.new result }
    ensures grows { Grows S.Pages 1 stage.old stage.new result }
{
    match make_cuts(stage, &one_cut(cut, low, high)) {
        Err(fault) => Err(fault),
        Ok(page) => Ok(page),
    }
}

// The nodes of one cut between two entries.
fn one_cut(cut: &CutNode, low: u64, high: u64) -> CutPage
    ensures { result.nodes.items ≡ cut.now ∷ Entry low ∷ Entry high ∷ [] }
{
    let mut nodes = ArrayVec::new();
    nodes.push(*cut);
    nodes.push(CutNode::Entry { child: low });
    nodes.push(CutNode::Entry { child: high });
    CutPage { nodes }
}
