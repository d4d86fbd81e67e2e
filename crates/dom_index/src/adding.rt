//! A list of points added to a tree.
ghost use Rattle.std.specs.Prelude.{◌≡◌, ◌≢◌, ◌+◌, ◌-◌, ◌^◌, ◌<◌, ◌≤◌, ◌⊎◌, ℕ, List, length, Err, IsTrue, OnOk, OnErr};
ghost use Rattle.std.specs.List.{All};
ghost use Rattle.bw_types.specs.declared.point.Point.{Point};
ghost use Rattle.ports.specs.Calls.{Changes};
ghost use Rattle.page_layout.specs.TreeValue.{IsTreeTyped, tree_fits};
ghost use Rattle.dom_index.specs.Adding.{AreNewInTurn, TreeTakes};
ghost use Rattle.dom_index.specs.AddingDamage.{AdditionsMayLeave, IsDamagedForPoints};
ghost use Rattle.dom_index.specs.Growth.{TakesMore, tree_growth};
ghost use Rattle.dom_index.specs.Points.{AreKeysBelow};

use crate::index::DomIndex;
use bw_types::{Point, Tree};
use ports::{Stage, StageFault};
use std::alloc::Global;

/// Adds points to a tree, one after the other: all of them, or none.
///
/// Where the tree stood for points to which these are new, each once those before it are added, it stands for all of
/// them. After a refusal the tree value is as it was, and the stage is to be abandoned. `Disk` comes only where the
/// count of faults rose, `PageLimit` only where as many pages are given out as the limit allows, `NoMemory` where the
/// stage or the index finds none. `Damaged` carries a page that an addition of one of the points may name after those
/// before it, or any page where the free pages are not in order; it never comes where the tree stands and is
/// balanced, the points are new and the free pages are in order.
pub fn add_all<X: DomIndex, S: Stage>(
    alloc: Global,
    stage: &mut S,
    dims: u8,
    tree: &mut Tree,
    points: &[Point],
) -> Result<(), StageFault>
    requires dims { (1 ≤ dims) × (dims ≤ X.DIMS) }
    requires keys { All (λ p. AreKeysBelow dims p.keys) points.now }
    requires versions { All (λ p. p.version < 2 ^ 32 - 1) points.now }
    ensures takes { OnOk result (IsTrue (S.tells stage.old) → (kept : List Point)
        → X.stands (S.map stage.old) dims tree.old kept → AreNewInTurn dims kept points.now
        → TreeTakes X.DomIndex dims (S.map stage.old) (S.map stage.new) tree.old tree.new points.now kept) }
    // Whatever the pages hold, the additions leave what the index says they may.
    ensures leaves { OnOk result (IsTrue (S.tells stage.old)
        → AdditionsMayLeave X.DomIndex dims points.now (S.map stage.old) tree.old (S.map stage.new) tree.new) }
    // In two and three dimensions a tree becomes one page and stays so for as long as its points fit.
    ensures one_page { OnOk result (IsTrue (S.tells stage.old) → (kept : List Point)
        → X.stands (S.map stage.old) dims tree.old kept → AreNewInTurn dims kept points.now
        → 2 ≤ dims → TakesMore (length points.now) tree.old → 1 ≤ length points.now → tree.new.levels ≡ 1) }
    // What a page may spell before, it may spell afterwards, whatever the pages hold.
    ensures rules { OnOk result (IsTrue (tree_fits tree.old) → IsTrue (tree_fits tree.new)) }
    ensures typed { IsTreeTyped tree.new }
    ensures unchanged { OnErr result (tree.new ≡ tree.old) }
    ensures damaged { (page : ℕ) → result ≡ Err (StageFault.Damaged page) → IsTrue (S.tells stage.old)
        → IsDamagedForPoints X.DomIndex dims points.now (S.map stage.old) tree.old page ⊎ (¬ S.free_in_order stage.old) }
    ensures sound { (kept : List Point) (page : ℕ) → IsTrue (S.tells stage.old)
        → X.stands (S.map stage.old) dims tree.old kept → AreNewInTurn dims kept points.now
        → X.balanced (S.map stage.old) dims tree.old → S.free_in_order stage.old → result ≢ Err (StageFault.Damaged page) }
    // However many page numbers are given out, where the tree does not stand.
    ensures changes { Changes S.Pages (S.allotted stage.new + 1) stage.old stage.new result }
    // Addition by addition, each at the tree as it is then.
    ensures growth { IsTrue (S.tells stage.old) → (kept : List Point)
        → X.stands (S.map stage.old) dims tree.old kept → AreNewInTurn dims kept points.now
        → X.balanced (S.map stage.old) dims tree.old
        → Changes S.Pages (tree_growth dims tree.old (length points.now)) stage.old stage.new result }
    // In two and three dimensions a tree takes its first page, and no other for as long as its points fit.
    ensures small_growth { IsTrue (S.tells stage.old) → (kept : List Point)
        → X.stands (S.map stage.old) dims tree.old kept → AreNewInTurn dims kept points.now
        → X.balanced (S.map stage.old) dims tree.old → 2 ≤ dims → TakesMore (length points.now) tree.old
        → Changes S.Pages (1 - tree.old.levels) stage.old stage.new result }
{
    X::index_laws();
    is_typed(tree);
    let mut grown = *tree;
    for point in points {
        X::add(alloc, stage, dims, &mut grown, point)?;
    }
    *tree = grown;
    Ok(())
}

// Proves that the tree's numbers are those of their types; it does nothing when it runs.
fn is_typed(tree: &Tree)
    ensures { IsTreeTyped tree.now }
{
    let _root = tree.root;
    let _count = tree.count;
    let _changes = tree.changes;
    let _last = tree.last;
}
