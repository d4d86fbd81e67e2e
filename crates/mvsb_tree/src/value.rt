//! The value at a key and a version.
ghost use Rattle.std.specs.Prelude.{◌≡◌, ◌≢◌, ◌+◌, ◌-◌, ◌%◌, ◌^◌, ◌≤◌, ℕ, List, [], ◌∷◌, Err, IsTrue, IfOk};
ghost use Rattle.bw_types.specs.Dominance.{dominance_sum};
ghost use Rattle.bw_types.specs.Digits.{digit_count};
ghost use Rattle.bw_types.specs.declared.point.Point.{Point};
ghost use Rattle.page_layout.specs.Damage.{HoldsNoNode, IsDamagedBelow, NothingBeside};
ghost use Rattle.ports.specs.Calls.{OnlyReads};
ghost use Rattle.mvsb_tree.specs.Damage.{FitsPlace, IsDamagedForValue, IsDamagedFromRoot, LeadsTo, root_place as spec_root_place};
ghost use Rattle.mvsb_tree.specs.Stands.{IsBalanced, MvStands, RootStands};
ghost use Rattle.mvsb_tree.specs.Telling.{ToldIn};
ghost use Rattle.mvsb_tree.specs.Steps.{root_at as spec_root_at, root_level, total_below, tree_value};

use crate::directory::root_at;
use crate::place::{Place, root_place};
use crate::told::{Told, told_on};
use bw_types::Tree;
use page_layout::{MvNode, View, view_page};
use ports::{Page, PageFault, Pages, blank_page};

/// The value of the tree at a key and a version: the sum of what was added at or below that key and at
/// or before that version, modulo `2^128`.
///
/// It gets at most as many pages as the directory and the root of the version have levels. `Disk` comes
/// only where the count of faults rose. `Damaged` carries a page on the way through the directory or
/// down from the root that is missing, is no node of its level, or does not keep to the place by which
/// it is reached; or the directory's root, where what the directory tells is no number of a page.
pub fn mv_value<P: Pages>(
    pages: &mut P,
    tree: &Tree,
    key: u64,
    version: u32,
) -> Result<u128, PageFault>
    // What the pages tell is read, whatever they hold.
    ensures value { IfOk result (λ value. IsTrue (P.tells pages.old) → value ≡ tree_value (P.map pages.old) tree.now key version) }
    // Where the tree stands, this is the sum over its points.
    ensures sum { IfOk result (λ value. IsTrue (P.tells pages.old) → (points : List Point)
        → MvStands (P.map pages.old) tree.now points → value ≡ dominance_sum 1 points (key ∷ []) version) }
    ensures damaged { (page : ℕ) → result ≡ Err (PageFault.Damaged page) → IsTrue (P.tells pages.old)
        → IsDamagedForValue (P.map pages.old) tree.now key version page }
    // Where it answers, no page on its way is damaged.
    ensures whole { IfOk result (λ value. IsTrue (P.tells pages.old) → (page : ℕ)
        → IsDamagedForValue (P.map pages.old) tree.now key version page → ⊥) }
    ensures sound { (points : List Point) (page : ℕ) → IsTrue (P.tells pages.old)
        → MvStands (P.map pages.old) tree.now points → result ≢ Err (PageFault.Damaged page) }
    // One get a level of the directory and of the root, which has at most 16; of a balanced tree the count bounds them.
    ensures reads { OnlyReads P.Pages (tree.now.levels + 16) pages.old pages.new result }
    ensures height { IsTrue (P.tells pages.old) → 1 ≤ root_level (P.map pages.old) (spec_root_at (P.map pages.old) tree.now version)
        → P.gets pages.new ≤ P.gets pages.old + (tree.now.levels + root_level (P.map pages.old) (spec_root_at (P.map pages.old) tree.now version)) }
    ensures cost { (points : List Point) → IsTrue (P.tells pages.old) → MvStands (P.map pages.old) tree.now points → IsBalanced (P.map pages.old) tree.now
        → P.gets pages.new ≤ P.gets pages.old + (digit_count 32 tree.now.count + digit_count 24 tree.now.count) }
{
    let root = root_at(pages, tree, version)?;
    if root == 0 {
        return Ok(0);
    }
    let mut bytes = blank_page();
    value_from(pages, &mut bytes, root, root_place(key, version))
}

// The value from a root down, which tells its level. Each page is read in place in these bytes.
fn value_from<P: Pages>(
    pages: &mut P,
    bytes: &mut Page,
    root: u64,
    place: Place,
) -> Result<u128, PageFault>
    requires { root ≢ 0 }
    ensures value { IfOk result (λ value. IsTrue (P.tells pages.old)
        → value ≡ total_below (root_level (P.map pages.old) root) (P.map pages.old) root place.key place.version % 2 ^ 128) }
    ensures damaged { (damaged : ℕ) → result ≡ Err (PageFault.Damaged damaged) → IsTrue (P.tells pages.old)
        → IsDamagedFromRoot (P.map pages.old) root place damaged }
    // Where it answers, no page on its way is damaged.
    ensures whole { IfOk result (λ value. IsTrue (P.tells pages.old) → (damaged : ℕ)
        → IsDamagedFromRoot (P.map pages.old) root place damaged → ⊥) }
    ensures sound { (nodes : List ℕ) (page : ℕ) → IsTrue (P.tells pages.old) → place ≡ spec_root_place place.key place.version
        → RootStands (P.map pages.old) nodes root place.version place.key → result ≢ Err (PageFault.Damaged page) }
    ensures reads { OnlyReads P.Pages 16 pages.old pages.new result }
    ensures cost { IsTrue (P.tells pages.old) → 1 ≤ root_level (P.map pages.old) root
        → P.gets pages.new ≤ P.gets pages.old + root_level (P.map pages.old) root }
{
    let node: View<MvNode> = view_page(pages, root, bytes)?;
    let level = node.level();
    let Some(told) = told_on(&node, place) else {
        return Err(PageFault::Damaged(root));
    };
    let Some(step) = told.step else {
        return Ok(told.value);
    };
    let below = value_below(pages, bytes, step.child, level - 1, step.place)?;
    Ok(told.value.wrapping_add(below))
}

// The value of the page, and of those below it, at the key and the version sought.
fn value_below<P: Pages>(
    pages: &mut P,
    bytes: &mut Page,
    page: u64,
    level: u8,
    place: Place,
) -> Result<u128, PageFault>
    ensures value { IfOk result (λ value. IsTrue (P.tells pages.old)
        → value ≡ total_below level (P.map pages.old) page place.key place.version % 2 ^ 128) }
    ensures damaged { (damaged : ℕ) → result ≡ Err (PageFault.Damaged damaged) → IsTrue (P.tells pages.old)
        → IsDamagedBelow FitsPlace LeadsTo NothingBeside (P.map pages.old) level place page damaged }
    // Where it answers, no page on its way is damaged.
    ensures whole { IfOk result (λ value. IsTrue (P.tells pages.old) → (damaged : ℕ)
        → IsDamagedBelow FitsPlace LeadsTo NothingBeside (P.map pages.old) level place page damaged → ⊥) }
    ensures reads { OnlyReads P.Pages level pages.old pages.new result }
{
    if level == 0 {
        return Ok(0);
    }
    let told = told_in(pages, bytes, page, level, place)?;
    let Some(step) = told.step else {
        return Ok(told.value);
    };
    let below = value_below(pages, bytes, step.child, level - 1, step.place)?;
    Ok(told.value.wrapping_add(below))
}

// What the node of the page tells in its place.
fn told_in<P: Pages>(
    pages: &mut P,
    bytes: &mut Page,
    page: u64,
    level: u8,
    place: Place,
) -> Result<Told, PageFault>
    ensures told { IfOk result (λ told. IsTrue (P.tells pages.old) → ToldIn (P.map pages.old) page level place told) }
    ensures damaged { (p : ℕ) → result ≡ Err (PageFault.Damaged p) → (p ≡ page) × (IsTrue (P.tells pages.old)
        → HoldsNoNode FitsPlace (P.map pages.old) level place page) }
    ensures reads { OnlyReads P.Pages 1 pages.old pages.new result }
{
    let node: View<MvNode> = view_page(pages, page, bytes)?;
    if node.level() != level {
        return Err(PageFault::Damaged(page));
    }
    match told_on(&node, place) {
        Some(told) => Ok(told),
        None => Err(PageFault::Damaged(page)),
    }
}
