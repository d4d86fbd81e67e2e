//! Additions.
ghost use Rattle.std.specs.Prelude.{◌≡◌, ◌≢◌, ◌+◌, ◌<◌, ◌≤◌, ◌^◌, ◌==◌, ◌⊎◌, false, ℕ, List, ◌∷◌, length, Some, None, Err, IsSome, IsTrue, IfOk, OnOk, OnErr};
ghost use Rattle.bw_types.specs.declared.point.Point.{Point};
ghost use Rattle.ports.specs.Calls.{Grows};
ghost use Rattle.ports.specs.Frame.{Replaces, names_page};
ghost use Rattle.page_layout.specs.Damage.{IsDamagedBelow, NothingBeside};
ghost use Rattle.page_layout.specs.Footprint.{NamesNoneTwice};
ghost use Rattle.page_layout.specs.TreeValue.{IsTreeTyped, plain_tree_fits};
ghost use Rattle.sb_tree.specs.Damage.{FitsPlace, IsDamagedForAdd, IsFullBelow, LeadsTo};
ghost use Rattle.sb_tree.specs.Edits.{first_entries, leaf_entry as spec_leaf_entry, root_entries};
ghost use Rattle.sb_tree.specs.Raised.{IsRaised, SecondFits, WasFull};
ghost use Rattle.sb_tree.specs.Stands.{IsBalanced, SbStands, StandsBelow};
ghost use Rattle.sb_tree.specs.Steps.{pages_below, tree_pages};
ghost use Rattle.sb_tree.specs.Stored.{OthersStay, page_of};

use crate::edit::{add_beside, take_in};
use crate::entries::{begun_count, child_before, inner_place};
use crate::place::{Place, root_place};
use crate::second::Second;
use crate::store::store;
use arrayvec::ArrayVec;
use bw_types::Tree;
use page_layout::{SbEntry, SbNode, make_page, read_in_place};
use ports::{Stage, StageFault};

/// Adds a value, a residue modulo `2^128`, from a version on.
///
/// Where the tree stood, it stands for one point more, past versions included, and stays balanced; at
/// most 8 pages are given out then. After a refusal the tree value is as it was, and the stage is to be
/// abandoned. `Disk` comes only where the count of faults rose; `PageLimit` only where as many pages
/// are given out as the limit allows; `Damaged` carries a page on the way down as for `sb_value`, or
/// the root where the tree has `2^31` points or would have to split a root of level 16, or a page of
/// the stage where its free pages are not in order.
pub fn sb_add<S: Stage>(
    stage: &mut S,
    tree: &mut Tree,
    version: u32,
    value: u128,
) -> Result<(), StageFault>
    ensures stands { OnOk result (IsTrue (S.tells stage.old) → (points : List Point) (p : Point)
        → SbStands (S.map stage.old) tree.old points → length points < 2 ^ 31 → p.version ≡ version → p.weight ≡ value
        → SbStands (S.map stage.new) tree.new (p ∷ points)) }
    ensures balanced { OnOk result (IsTrue (S.tells stage.old) → (points : List Point)
        → SbStands (S.map stage.old) tree.old points → length points < 2 ^ 31 → IsBalanced tree.old → IsBalanced tree.new) }
    // The map changes exactly by the tree's pages.
    ensures change { OnOk result (IsTrue (S.tells stage.old) → (points : List Point)
        → SbStands (S.map stage.old) tree.old points
        → Replaces (tree_pages (S.map stage.old) tree.old) (tree_pages (S.map stage.new) tree.new)
        (S.map stage.old) (S.map stage.new)) }
    // Whatever the pages hold, those outside the tree stay as they are.
    ensures apart { OnOk result (IsTrue (S.tells stage.old) → OthersStay (tree_pages (S.map stage.old) tree.old) (S.map stage.old) (S.map stage.new)) }
    // Whatever the pages hold, the root is the one of before, a page of the tree, or one that was given out.
    ensures renamed { OnOk result (IsTrue (S.tells stage.old) → IsSome (S.map stage.old tree.new.root)
        → names_page (tree_pages (S.map stage.old) tree.old) tree.new.root ≡ false → tree.new.root ≡ tree.old.root) }
    ensures count { OnOk result (tree.new.count ≡ tree.old.count + 1) }
    // What a page may spell before, it may spell afterwards, whatever the pages hold.
    ensures rules { OnOk result (IsTrue (plain_tree_fits tree.old) → IsTrue (plain_tree_fits tree.new)) }
    // So it is with a root whose count is not told.
    ensures root { OnOk result ((tree.old.levels ≢ 0 → 3 ≤ tree.old.root)
        → (1 ≤ tree.new.levels) × (tree.new.levels ≤ 16) × (3 ≤ tree.new.root)) }
    ensures typed { IsTreeTyped tree.new }
    ensures beside { (tree.new.changes ≡ tree.old.changes) × (tree.new.last ≡ tree.old.last) }
    ensures unchanged { OnErr result (tree.new ≡ tree.old) }
    ensures damaged { (page : ℕ) → result ≡ Err (StageFault.Damaged page) → IsTrue (S.tells stage.old)
        → IsDamagedForAdd (S.map stage.old) (S.free_in_order stage.old) tree.old version page }
    ensures sound { (points : List Point) (page : ℕ) → IsTrue (S.tells stage.old)
        → SbStands (S.map stage.old) tree.old points → length points < 2 ^ 31 → IsBalanced tree.old
        → S.free_in_order stage.old → result ≢ Err (StageFault.Damaged page) }
    // One page a level and a new root at most. A balanced tree has at most 7 levels (`tree_laws`).
    ensures grows { Grows S.Pages (tree.old.levels + 1) stage.old stage.new result }
{
    if tree.count >= 1 << 31 {
        return Err(StageFault::Damaged(tree.root));
    }
    if tree.levels == 0 {
        let root = first_leaf(stage, version, value)?;
        *tree = grown(tree, root, 1);
        return Ok(());
    }
    let place = root_place(version);
    match add_below(stage, tree.root, tree.levels, place, value)? {
        None => *tree = grown(tree, tree.root, tree.levels),
        Some(second) => {
            // No page of a stage is below 3; it is tested for a stage that does not tell its map.
            if tree.levels >= 16 || tree.root < 3 {
                return Err(StageFault::Damaged(tree.root));
            }
            let root = new_root(stage, tree.root, tree.levels, second)?;
            *tree = grown(tree, root, tree.levels + 1);
        }
    }
    Ok(())
}

// The tree with a point more.
fn grown(tree: &Tree, root: u64, levels: u8) -> Tree
    requires { tree.now.count < 2 ^ 31 }
    ensures root { result.root ≡ root }
    ensures levels { result.levels ≡ levels }
    ensures count { result.count ≡ tree.now.count + 1 }
    ensures changes { result.changes ≡ tree.now.changes }
    ensures last { result.last ≡ tree.now.last }
{
    Tree {
        root,
        levels,
        count: tree.count + 1,
        changes: tree.changes,
        last: tree.last,
    }
}

// Adds below the page, which is split if it is too full for that.
fn add_below<S: Stage>(
    stage: &mut S,
    page: u64,
    level: u8,
    place: Place,
    value: u128,
) -> Result<Option<Second>, StageFault>
    requires level { 1 ≤ level }
    requires place { (place.low ≤ place.sought) × (place.sought < place.high) × (place.sought < 2 ^ 32) }
    ensures raised { IfOk result (λ second. IsTrue (S.tells stage.old) → (least : ℕ)
        → StandsBelow level (S.map stage.old) page place.low place.high least → NamesNoneTwice (pages_below level (S.map stage.old) page)
        → IsRaised level (S.map stage.old) (S.map stage.new) page place.low place.high least place.sought value second) }
    ensures apart { IfOk result (λ second. IsTrue (S.tells stage.old) → OthersStay (pages_below level (S.map stage.old) page) (S.map stage.old) (S.map stage.new)) }
    ensures second { IfOk result (λ second. SecondFits place.low place.high second) }
    ensures full { IfOk result (λ second. IsTrue (S.tells stage.old) → WasFull second (IsFullBelow level (S.map stage.old) page place.sought)) }
    ensures level { OnOk result (level ≤ 16) }
    ensures damaged { (damaged : ℕ) → result ≡ Err (StageFault.Damaged damaged) → IsTrue (S.tells stage.old)
        → IsDamagedBelow FitsPlace LeadsTo NothingBeside (S.map stage.old) level place page damaged ⊎ (¬ S.free_in_order stage.old) }
    ensures grows { Grows S.Pages level stage.old stage.new result }
{
    let mut node: SbNode = read_in_place(stage, page, level, place)?;
    if level == 1 {
        take_in(&mut node.entries, place.sought, value);
        return store(stage, page, node);
    }
    let entries = node.entries.as_slice();
    let begun = begun_count(entries, place.sought);
    let inner = inner_place(entries, begun, place);
    let child = child_before(entries, begun);
    let second = add_below(stage, child, level - 1, inner, value)?;
    add_beside(&mut node.entries, begun, value, second);
    store(stage, page, node)
}

// A leaf of one addition.
fn first_leaf<S: Stage>(stage: &mut S, version: u32, value: u128) -> Result<u64, StageFault>
    ensures number { IfOk result (λ page. 3 ≤ page) }
    ensures made { IfOk result (λ page. IsTrue (S.tells stage.old) → (S.map stage.old page ≡ None)
        × (S.map stage.new page ≡ Some (page_of 1 (first_entries version value)))
        × ((p : ℕ) → (page == p) ≡ false → S.map stage.new p ≡ S.map stage.old p)) }
    ensures damaged { (p : ℕ) → result ≡ Err (StageFault.Damaged p) → IsTrue (S.tells stage.old) → ¬ S.free_in_order stage.old }
    ensures grows { Grows S.Pages 1 stage.old stage.new result }
{
    let mut entries = ArrayVec::new();
    if version > 0 {
        entries.push(leaf_entry(0, 0));
    }
    entries.push(leaf_entry(version, value));
    make_page(stage, &SbNode { level: 1, entries })
}

fn leaf_entry(low: u32, value: u128) -> SbEntry
    ensures { result ≡ spec_leaf_entry low value }
{
    SbEntry {
        low,
        value,
        child: 0,
    }
}

// A root above the two pages into which the old one was split.
fn new_root<S: Stage>(
    stage: &mut S,
    first: u64,
    levels: u8,
    second: Second,
) -> Result<u64, StageFault>
    requires levels { (1 ≤ levels) × (levels < 16) }
    requires pages { (3 ≤ first) × (3 ≤ second.page) }
    requires low { 0 < second.low }
    ensures number { IfOk result (λ page. 3 ≤ page) }
    ensures made { IfOk result (λ page. IsTrue (S.tells stage.old) → (S.map stage.old page ≡ None)
        × (S.map stage.new page ≡ Some (page_of (levels + 1) (root_entries first second)))
        × ((p : ℕ) → (page == p) ≡ false → S.map stage.new p ≡ S.map stage.old p)) }
    ensures damaged { (p : ℕ) → result ≡ Err (StageFault.Damaged p) → IsTrue (S.tells stage.old) → ¬ S.free_in_order stage.old }
    ensures grows { Grows S.Pages 1 stage.old stage.new result }
{
    let mut entries = ArrayVec::new();
    entries.push(SbEntry {
        low: 0,
        value: 0,
        child: first,
    });
    entries.push(SbEntry {
        low: second.low,
        value: 0,
        child: second.page,
    });
    let level = levels + 1;
    make_page(stage, &SbNode { level, entries })
}
