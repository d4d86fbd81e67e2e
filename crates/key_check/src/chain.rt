//! The chain of a multiversion tree's nodes.
ghost use Rattle.std.specs.Prelude.{◌≡◌, ◌≢◌, ◌≤◌, ◌++◌, Ok, Err, Some, None, true, false, IsTrue, List, ℕ};
ghost use Rattle.bw_types.specs.declared.point.Point.{Point};
ghost use Rattle.mvsb_tree.specs.Steps.{chain_from, node_on, node_pages, place_count};
ghost use Rattle.key_check.specs.Chains.{ChainKeeps, HoldsNode, HoldsThis, PlaceKeeps};
ghost use Rattle.key_check.specs.Marks.{AreInOrder, AreMarksOf};
ghost use Rattle.page_checks.specs.Reads.{OnlyChecks};
ghost use Rattle.page_layout.specs.declared.mv_node.MvNode.{MvNode};

use crate::marks::{Marks, entries_keep};
use bw_types::Tree;
use page_checks::{CheckFault, push_page};
use page_layout::{MvNode, read_page};
use ports::{PageFault, Pages};

/// Puts the pages of the chain behind those named, the last one allotted first. Answers `false` where the
/// chain does not stand, is empty below a directory that has levels, or has entries that do not keep to the
/// points of these marks.
pub(crate) fn walk_chain<P: Pages>(
    pages: &mut P,
    tree: &Tree,
    marks: &Marks,
    named: &mut Vec<u64>,
) -> Result<bool, CheckFault>
    requires { AreInOrder marks.now }
    ensures stands { (points : List Point) → AreMarksOf points marks.now → result ≡ Ok true → IsTrue (P.tells pages.old)
        → (tree.now.levels ≢ 0 → 1 ≤ place_count (P.map pages.old) tree.now) × ChainKeeps (place_count (P.map pages.old) tree.now) (P.map pages.old) points tree.now.last }
    ensures named { result ≡ Ok true → IsTrue (P.tells pages.old) → named.new.items ≡ named.old.items ++ node_pages (P.map pages.old) tree.now }
    ensures refused { (points : List Point) → AreMarksOf points marks.now → result ≡ Ok false → IsTrue (P.tells pages.old)
        → (tree.now.levels ≢ 0 → 1 ≤ place_count (P.map pages.old) tree.now) → ChainKeeps (place_count (P.map pages.old) tree.now) (P.map pages.old) points tree.now.last → ⊥ }
    ensures reads { OnlyChecks P.Pages pages.old pages.new result }
{
    if tree.levels == 0 {
        return Ok(tree.last == 0);
    }
    let Some(node) = mv_node_at(pages, tree.last)? else {
        return Ok(false);
    };
    walk_places(pages, tree.last, node.place, marks, named)
}

// The same from the page of a place on.
fn walk_places<P: Pages>(
    pages: &mut P,
    last: u64,
    places: u32,
    marks: &Marks,
    named: &mut Vec<u64>,
) -> Result<bool, CheckFault>
    requires { AreInOrder marks.now }
    ensures stands { (points : List Point) → AreMarksOf points marks.now → result ≡ Ok true → IsTrue (P.tells pages.old)
        → ChainKeeps places (P.map pages.old) points last }
    ensures named { result ≡ Ok true → IsTrue (P.tells pages.old) → named.new.items ≡ named.old.items ++ chain_from places (P.map pages.old) last }
    ensures refused { (points : List Point) → AreMarksOf points marks.now → result ≡ Ok false → IsTrue (P.tells pages.old)
        → ChainKeeps places (P.map pages.old) points last → ⊥ }
    ensures reads { OnlyChecks P.Pages pages.old pages.new result }
{
    let mut page = last;
    let mut left = places;
    while left > 0 {
        let Some(before) = place_before(pages, page, left, marks)? else {
            return Ok(false);
        };
        push_page(named, page)?;
        page = before;
        left -= 1;
    }
    Ok(page == 0)
}

// The page before this one in the chain, where this one's node has the place and keeps to the points.
fn place_before<P: Pages>(
    pages: &mut P,
    page: u64,
    place: u32,
    marks: &Marks,
) -> Result<Option<u64>, CheckFault>
    requires { AreInOrder marks.now }
    ensures some { (points : List Point) (before : ℕ) → AreMarksOf points marks.now → result ≡ Ok (Some before) → IsTrue (P.tells pages.old)
        → PlaceKeeps (P.map pages.old) points place page }
    ensures before { (before : ℕ) → result ≡ Ok (Some before) → IsTrue (P.tells pages.old) → (node_on (P.map pages.old) page).before ≡ before }
    ensures none { (points : List Point) → AreMarksOf points marks.now → result ≡ Ok None → IsTrue (P.tells pages.old)
        → PlaceKeeps (P.map pages.old) points place page → ⊥ }
    ensures reads { OnlyChecks P.Pages pages.old pages.new result }
{
    let Some(node) = mv_node_at(pages, page)? else {
        return Ok(None);
    };
    if node.place == place && entries_keep(marks, node.level, node.entries.as_slice()) {
        Ok(Some(node.before))
    } else {
        Ok(None)
    }
}

/// The node of a multiversion tree that the page spells.
pub(crate) fn mv_node_at<P: Pages>(pages: &mut P, page: u64) -> Result<Option<MvNode>, CheckFault>
    ensures some { (node : MvNode) → result ≡ Ok (Some node) → IsTrue (P.tells pages.old) → HoldsThis (P.map pages.old) page node }
    ensures none { result ≡ Ok None → IsTrue (P.tells pages.old) → HoldsNode (P.map pages.old) page → ⊥ }
    ensures reads { OnlyChecks P.Pages pages.old pages.new result }
{
    match read_page::<MvNode, P>(pages, page) {
        Ok(node) => Ok(Some(node)),
        Err(PageFault::Damaged(_)) => Ok(None),
        Err(PageFault::Disk) => Err(CheckFault::Disk),
    }
}
