//! Entering an object.
ghost use Rattle.std.specs.Prelude.{◌≡◌, ◌≢◌, ◌+◌, ◌<◌, ◌≤◌, ◌^◌, ◌==◌, ◌⊎◌, false, ℕ, List, [], ◌∷◌, ◌++◌, length, take, drop, Some, None, Err, IsTrue, IsSome, IfOk, OnOk, OnErr};
ghost use Rattle.std.specs.List.{All};
ghost use Rattle.bw_types.specs.declared.dated.Dated.{Dated};
ghost use Rattle.ports.specs.Calls.{Grows};
ghost use Rattle.ports.specs.Frame.{Replaces};
ghost use Rattle.page_layout.specs.Damage.{IsDamagedBelow, NothingBeside};
ghost use Rattle.page_layout.specs.Dated.{IsDatedTyped, by_life_fits};
ghost use Rattle.page_layout.specs.Footprint.{NamesNoneTwice};
ghost use Rattle.page_layout.specs.LifeNode.{IsLifeIndex, IsLifeLeaf, life_node_page};
ghost use Rattle.page_layout.specs.TreeValue.{IsTreeTyped, plain_tree_fits};
ghost use Rattle.object_table.specs.declared.form.Form.TheVariants.{ByLives};
ghost use Rattle.object_table.specs.Damage.{FitsAsked, HaveNot, IsDamagedForEnter, IsFullBelow, LeadsTo};
ghost use Rattle.object_table.specs.Edits.{IsNewLife, with_object};
ghost use Rattle.object_table.specs.Entered.{IsEntered, SecondFits, WasFull, root_entries};
ghost use Rattle.object_table.specs.Keys.{key as spec_key, low_key};
ghost use Rattle.object_table.specs.Lives.{pages_below, table_pages};
ghost use Rattle.object_table.specs.Stands.{StandsBelow, TableStands};
ghost use Rattle.object_table.specs.Stored.{IsPutInLeaf, IsSecondOf, IsStored, OthersStay, entry_name, index_of, leaf_of};

use crate::copying::copied_dated;
use crate::form::Form;
use crate::key::key;
use crate::path::{begun_count, step_to};
use crate::place::{Place, root_place};
use crate::placed::view_node;
use crate::storing::{store_index, store_leaf};
use crate::taking::take_in;
use arrayvec::ArrayVec;
use bw_types::{Dated, Tree};
use page_layout::{LifeEntry, LifeNode, make_page};
use ports::{Stage, StageFault, blank_page};

/// Enters an object in a table by lives, at its place by id and life.
///
/// Where the table stood it stands with the object; at most 8 pages are given out then. After a refusal
/// the table value is as it was, and the stage is to be abandoned. `Disk` comes only where the count of
/// faults rose; `PageLimit` only where as many pages are given out as the limit allows; `Damaged`
/// carries a page on the way down as for `find`, or the leaf there where it has this id and life
/// already, or the root where the table has `2^28` objects or would have to split a root of level 16, or
/// a page of the stage where its free pages are not in order.
pub fn enter<S: Stage>(stage: &mut S, table: &mut Tree, dated: &Dated) -> Result<(), StageFault>
    // A leaf can spell the object.
    requires { IsTrue (by_life_fits dated.now) }
    ensures stands { OnOk result (IsTrue (S.tells stage.old) → (lives : List Dated) → TableStands ByLives (S.map stage.old) table.old lives
        → TableStands ByLives (S.map stage.new) table.new (with_object dated.now lives)) }
    // The map changes exactly by the table's pages.
    ensures change { OnOk result (IsTrue (S.tells stage.old) → (lives : List Dated) → TableStands ByLives (S.map stage.old) table.old lives
        → Replaces (table_pages ByLives (S.map stage.old) table.old) (table_pages ByLives (S.map stage.new) table.new) (S.map stage.old) (S.map stage.new)) }
    // Whatever the pages hold, those outside the table stay as they are.
    ensures apart { OnOk result (IsTrue (S.tells stage.old) → OthersStay (table_pages ByLives (S.map stage.old) table.old) (S.map stage.old) (S.map stage.new)) }
    ensures count { OnOk result (table.new.count ≡ table.old.count + 1) }
    // What a page may spell before, it may spell afterwards, whatever the pages hold.
    ensures rules { OnOk result (IsTrue (plain_tree_fits table.old) → IsTrue (plain_tree_fits table.new)) }
    ensures typed { IsTreeTyped table.new }
    ensures beside { (table.new.changes ≡ table.old.changes) × (table.new.last ≡ table.old.last) }
    ensures unchanged { OnErr result (table.new ≡ table.old) }
    ensures damaged { (page : ℕ) → result ≡ Err (StageFault.Damaged page) → IsTrue (S.tells stage.old)
        → IsDamagedForEnter (S.map stage.old) (S.free_in_order stage.old) table.old dated.now page }
    ensures sound { (lives : List Dated) (page : ℕ) → IsTrue (S.tells stage.old) → TableStands ByLives (S.map stage.old) table.old lives
        → IsNewLife lives dated.now → length lives < 2 ^ 28 → S.free_in_order stage.old → result ≢ Err (StageFault.Damaged page) }
    // One page a level and a new root at most. A table that stands has at most 5 levels (`table_laws`).
    ensures grows { Grows S.Pages (table.old.levels + 1) stage.old stage.new result }
{
    if table.count >= 1 << 28 {
        return Err(StageFault::Damaged(table.root));
    }
    let dated = &copied_dated(dated);
    if table.levels == 0 {
        let root = first_leaf(stage, dated)?;
        *table = grown(table, root, 1);
        return Ok(());
    }
    let place = root_place(key(dated));
    match enter_below(stage, table.root, table.levels, place, dated)? {
        None => *table = grown(table, table.root, table.levels),
        Some(second) => {
            // No page of a stage is below 3; it is tested for a stage that does not tell its map.
            if table.levels >= 16 || table.root < 3 {
                return Err(StageFault::Damaged(table.root));
            }
            let root = new_root(stage, table.root, table.levels, second)?;
            *table = grown(table, root, table.levels + 1);
        }
    }
    Ok(())
}

// The table with an object more.
fn grown(table: &Tree, root: u64, levels: u8) -> Tree
    requires { table.now.count < 2 ^ 28 }
    ensures root { result.root ≡ root }
    ensures levels { result.levels ≡ levels }
    ensures count { result.count ≡ table.now.count + 1 }
    ensures changes { result.changes ≡ table.now.changes }
    ensures last { result.last ≡ table.now.last }
{
    Tree {
        root,
        levels,
        count: table.count + 1,
        changes: table.changes,
        last: table.last,
    }
}

// Enters the object below the page, which is split if it is too full for that.
fn enter_below<S: Stage>(
    stage: &mut S,
    page: u64,
    level: u8,
    place: Place,
    dated: &Dated,
) -> Result<Option<LifeEntry>, StageFault>
    requires level { 1 ≤ level }
    requires rules { IsTrue (by_life_fits dated.now) }
    requires typed { IsDatedTyped dated.now }
    requires place { (place.low ≤ place.sought) × (place.sought < place.high) × (place.sought ≡ spec_key dated.now) }
    ensures entered { IfOk result (λ second. IsTrue (S.tells stage.old) → (least : ℕ)
        → StandsBelow ByLives level (S.map stage.old) page place.low place.high least → NamesNoneTwice (pages_below ByLives level (S.map stage.old) page)
        → IsEntered level (S.map stage.old) (S.map stage.new) page place.low place.high least dated.now second) }
    ensures apart { IfOk result (λ second. IsTrue (S.tells stage.old) → OthersStay (pages_below ByLives level (S.map stage.old) page) (S.map stage.old) (S.map stage.new)) }
    ensures second { IfOk result (λ second. SecondFits place.low place.high second) }
    ensures full { IfOk result (λ second. IsTrue (S.tells stage.old) → WasFull second (IsFullBelow level (S.map stage.old) page place.sought)) }
    ensures level { OnOk result (level ≤ 16) }
    ensures damaged { (damaged : ℕ) → result ≡ Err (StageFault.Damaged damaged) → IsTrue (S.tells stage.old)
        → IsDamagedBelow (FitsAsked (HaveNot (spec_key dated.now)) ByLives) LeadsTo NothingBeside (S.map stage.old) level place page damaged ⊎ (¬ S.free_in_order stage.old) }
    ensures grows { Grows S.Pages level stage.old stage.new result }
{
    let mut bytes = blank_page();
    let node = view_node(stage, Form::ByLives, page, level, place, &mut bytes)?;
    if level == 1 {
        return enter_leaf(stage, page, node.objects(), dated);
    }
    let begun = begun_count(&node, place.sought);
    let step = step_to(&node, begun - 1, place, place.sought);
    match enter_below(stage, step.child, level - 1, step.place, dated)? {
        None => Ok(None),
        Some(second) => enter_entry(stage, page, level, node.entries(), begun, second),
    }
}

// Enters the object in the leaf that the page holds.
fn enter_leaf<S: Stage>(
    stage: &mut S,
    page: u64,
    objects: ArrayVec<Dated, 15>,
    dated: &Dated,
) -> Result<Option<LifeEntry>, StageFault>
    requires leaf { IsLifeLeaf 14 objects.items }
    requires typed { All IsDatedTyped objects.items × IsDatedTyped dated.now }
    requires rules { IsTrue (by_life_fits dated.now) }
    requires in_map { IsTrue (S.tells stage.old) → IsSome (S.map stage.old page) }
    ensures stored { IfOk result (λ second. IsPutInLeaf objects.items dated.now (S.tells stage.old) (S.map stage.old) (S.map stage.new) page second) }
    ensures damaged { (p : ℕ) → result ≡ Err (StageFault.Damaged p) → IsTrue (S.tells stage.old)
        → ((p ≡ page) × (¬ HaveNot (spec_key dated.now) objects.items)) ⊎ (¬ S.free_in_order stage.old) }
    ensures grows { Grows S.Pages 1 stage.old stage.new result }
{
    let mut objects = objects;
    if !take_in(&mut objects, dated) {
        return Err(StageFault::Damaged(page));
    }
    store_leaf(stage, page, objects)
}

// Enters the second page of a child that was split in the index node that the page holds.
fn enter_entry<S: Stage>(
    stage: &mut S,
    page: u64,
    level: u8,
    entries: ArrayVec<LifeEntry, 201>,
    begun: usize,
    second: LifeEntry,
) -> Result<Option<LifeEntry>, StageFault>
    requires begun { begun ≤ length entries.items }
    requires rules { IsLifeIndex 201 level (take begun entries.items ++ (second ∷ drop begun entries.items)) }
    requires in_map { IsTrue (S.tells stage.old) → IsSome (S.map stage.old page) }
    ensures stored { IfOk result (λ second_page. IsTrue (S.tells stage.old)
        → IsStored (index_of level) entry_name 200 100 (take begun entries.items ++ (second ∷ drop begun entries.items)) (S.map stage.old) (S.map stage.new) page second_page) }
    ensures second { IfOk result (λ second_page. IsSecondOf entry_name 200 100 (take begun entries.items ++ (second ∷ drop begun entries.items)) second_page) }
    ensures damaged { (p : ℕ) → result ≡ Err (StageFault.Damaged p) → IsTrue (S.tells stage.old) → ¬ S.free_in_order stage.old }
    ensures grows { Grows S.Pages 1 stage.old stage.new result }
{
    let mut entries = entries;
    entries.insert(begun, second);
    store_index(stage, page, level, entries)
}

// A leaf of one object.
fn first_leaf<S: Stage>(stage: &mut S, dated: &Dated) -> Result<u64, StageFault>
    requires { IsTrue (by_life_fits dated.now) }
    ensures number { IfOk result (λ page. 3 ≤ page) }
    ensures made { IfOk result (λ page. IsTrue (S.tells stage.old) → (S.map stage.old page ≡ None)
        × (S.map stage.new page ≡ Some (life_node_page (leaf_of (dated.now ∷ []))))
        × ((p : ℕ) → (page == p) ≡ false → S.map stage.new p ≡ S.map stage.old p)) }
    ensures damaged { (p : ℕ) → result ≡ Err (StageFault.Damaged p) → IsTrue (S.tells stage.old) → ¬ S.free_in_order stage.old }
    ensures grows { Grows S.Pages 1 stage.old stage.new result }
{
    let mut objects = ArrayVec::new();
    objects.push(*dated);
    make_page(stage, &LifeNode::Leaf { objects })
}

// A root above the two pages into which the old one was split.
fn new_root<S: Stage>(
    stage: &mut S,
    first: u64,
    levels: u8,
    second: LifeEntry,
) -> Result<u64, StageFault>
    requires levels { (1 ≤ levels) × (levels < 16) }
    requires pages { (3 ≤ first) × (3 ≤ second.child) }
    requires low { 0 < low_key second }
    ensures number { IfOk result (λ page. 3 ≤ page) }
    ensures made { IfOk result (λ page. IsTrue (S.tells stage.old) → (S.map stage.old page ≡ None)
        × (S.map stage.new page ≡ Some (life_node_page (index_of (levels + 1) (root_entries first second))))
        × ((p : ℕ) → (page == p) ≡ false → S.map stage.new p ≡ S.map stage.old p)) }
    ensures damaged { (p : ℕ) → result ≡ Err (StageFault.Damaged p) → IsTrue (S.tells stage.old) → ¬ S.free_in_order stage.old }
    ensures grows { Grows S.Pages 1 stage.old stage.new result }
{
    let mut entries = ArrayVec::new();
    entries.push(LifeEntry {
        low_id: 0,
        low_life: 0,
        child: first,
    });
    entries.push(second);
    let level = levels + 1;
    make_page(stage, &LifeNode::Index { level, entries })
}
