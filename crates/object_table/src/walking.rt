//! Walking through a table in order.
ghost use Rattle.std.specs.Prelude.{◌≡◌, ◌≢◌, ◌+◌, ◌-◌, ◌*◌, ◌≤◌, ℕ, List, [], ◌++◌, length, Option, Ok, Err, IsTrue, IfOk, IfSome, OnOk};
ghost use Rattle.std.specs.List.{All};
ghost use Rattle.bw_types.specs.declared.dated.Dated.{Dated};
ghost use Rattle.page_layout.specs.Damage.{IsDamagedBelow, NothingBeside};
ghost use Rattle.page_layout.specs.Dated.{by_life_fits};
ghost use Rattle.ports.specs.Calls.{OnlyReads};
ghost use Rattle.object_table.specs.declared.form.Form.TheVariants.{ByLives, ByIds};
ghost use Rattle.object_table.specs.Damage.{FitsPlace, LeadsTo, LeadsOn, IsDamagedOnWalk};
ghost use Rattle.object_table.specs.Keys.{key as spec_key};
ghost use Rattle.object_table.specs.Lives.{AreNext, first_from, lives_below, from_life, from_id};
ghost use Rattle.object_table.specs.Nodes.{objects_in};
ghost use Rattle.object_table.specs.Stands.{StandsBelow, TableStands};

use crate::form::Form;
use crate::key::key_of;
use crate::path::{begun_count, step_past, step_to};
use crate::place::{Place, root_place};
use crate::placed::view_node;
use crate::view::NodeView;
use arrayvec::ArrayVec;
use bw_types::{Dated, Tree};
use ports::{Page, PageFault, Pages, blank_page};

/// The object after this id and life in a table by lives, or the first of all; `None` exactly where there
/// is none. It gets at most twice as many pages as the table has levels, less one.
///
/// `Disk` comes only where the count of faults rose. `Damaged` carries the first page on the way that is
/// missing, is no node of its level, or does not keep to the keys for which it is reached.
pub fn walk<P: Pages>(
    pages: &mut P,
    table: &Tree,
    after: Option<(u64, u32)>,
) -> Result<Option<Dated>, PageFault>
    ensures next { IfOk result (λ found. IsTrue (P.tells pages.old) → (lives : List Dated)
        → TableStands ByLives (P.map pages.old) table.now lives → found ≡ first_from (from_life after) lives) }
    // Whatever the pages hold, a walk gets on, and what is found may be entered.
    ensures above { IfOk result (λ found. IfSome found (λ d. from_life after ≤ spec_key d)) }
    ensures fits { IfOk result (λ found. IfSome found (λ d. IsTrue (by_life_fits d))) }
    ensures damaged { (page : ℕ) → result ≡ Err (PageFault.Damaged page) → IsTrue (P.tells pages.old)
        → IsDamagedOnWalk ByLives (P.map pages.old) table.now (from_life after) page }
    ensures sound { (lives : List Dated) (page : ℕ) → IsTrue (P.tells pages.old)
        → TableStands ByLives (P.map pages.old) table.now lives → result ≢ Err (PageFault.Damaged page) }
    ensures reads { OnlyReads P.Pages (2 * table.now.levels - 1) pages.old pages.new result }
{
    walk_one(pages, Form::ByLives, table, first_after(after))
}

/// The object after this id and life in a table by lives, or the first of all, and those behind it in its
/// leaf; none exactly where there is none. It gets as many pages as `walk`, and is refused as that is.
pub fn walk_leaf<P: Pages>(
    pages: &mut P,
    table: &Tree,
    after: Option<(u64, u32)>,
) -> Result<ArrayVec<Dated, 14>, PageFault>
    ensures next { IfOk result (λ found. IsTrue (P.tells pages.old) → (lives : List Dated)
        → TableStands ByLives (P.map pages.old) table.now lives → AreNext found.items (from_life after) lives) }
    // Whatever the pages hold, a walk gets on, and what is found may be entered.
    ensures above { IfOk result (λ found. All (λ d. from_life after ≤ spec_key d) found.items) }
    ensures fits { IfOk result (λ found. All (λ d. IsTrue (by_life_fits d)) found.items) }
    ensures damaged { (page : ℕ) → result ≡ Err (PageFault.Damaged page) → IsTrue (P.tells pages.old)
        → IsDamagedOnWalk ByLives (P.map pages.old) table.now (from_life after) page }
    ensures sound { (lives : List Dated) (page : ℕ) → IsTrue (P.tells pages.old)
        → TableStands ByLives (P.map pages.old) table.now lives → result ≢ Err (PageFault.Damaged page) }
    ensures reads { OnlyReads P.Pages (2 * table.now.levels - 1) pages.old pages.new result }
{
    let mut found: ArrayVec<Dated, 14> = ArrayVec::new();
    match walk_in(pages, Form::ByLives, table, first_after(after), &mut found) {
        Ok(()) => Ok(found),
        Err(fault) => Err(fault),
    }
}

/// The object after this id in a table by ids, or the first of all; `None` exactly where there is none. It
/// gets at most twice as many pages as the table has levels, less one, and is refused as `walk` is.
pub fn walk_old<P: Pages>(
    pages: &mut P,
    table: &Tree,
    after: Option<u64>,
) -> Result<Option<Dated>, PageFault>
    ensures next { IfOk result (λ found. IsTrue (P.tells pages.old) → (lives : List Dated)
        → TableStands ByIds (P.map pages.old) table.now lives → found ≡ first_from (from_id after) lives) }
    // Whatever the pages hold, a walk gets on, and what is found may be entered in a table by lives.
    ensures above { IfOk result (λ found. IfSome found (λ d. from_id after ≤ spec_key d)) }
    ensures fits { IfOk result (λ found. IfSome found (λ d. IsTrue (by_life_fits d))) }
    ensures damaged { (page : ℕ) → result ≡ Err (PageFault.Damaged page) → IsTrue (P.tells pages.old)
        → IsDamagedOnWalk ByIds (P.map pages.old) table.now (from_id after) page }
    ensures sound { (lives : List Dated) (page : ℕ) → IsTrue (P.tells pages.old)
        → TableStands ByIds (P.map pages.old) table.now lives → result ≢ Err (PageFault.Damaged page) }
    ensures reads { OnlyReads P.Pages (2 * table.now.levels - 1) pages.old pages.new result }
{
    let sought = match after {
        Some(id) => key_of(id, u32::MAX) + 1,
        None => 0,
    };
    walk_one(pages, Form::ByIds, table, sought)
}

// The least key that comes after this id and life, or the least of all.
fn first_after(after: Option<(u64, u32)>) -> u128
    ensures { result ≡ from_life after }
{
    match after {
        Some((id, life)) => key_of(id, life) + 1,
        None => 0,
    }
}

// The first object from the key sought on.
fn walk_one<P: Pages>(
    pages: &mut P,
    form: Form,
    table: &Tree,
    sought: u128,
) -> Result<Option<Dated>, PageFault>
    ensures next { IfOk result (λ found. IsTrue (P.tells pages.old) → (lives : List Dated)
        → TableStands form (P.map pages.old) table.now lives → found ≡ first_from sought lives) }
    ensures above { IfOk result (λ found. IfSome found (λ d. sought ≤ spec_key d)) }
    ensures fits { IfOk result (λ found. IfSome found (λ d. IsTrue (by_life_fits d))) }
    ensures damaged { (page : ℕ) → result ≡ Err (PageFault.Damaged page) → IsTrue (P.tells pages.old)
        → IsDamagedOnWalk form (P.map pages.old) table.now sought page }
    ensures sound { (lives : List Dated) (page : ℕ) → IsTrue (P.tells pages.old)
        → TableStands form (P.map pages.old) table.now lives → result ≢ Err (PageFault.Damaged page) }
    ensures reads { OnlyReads P.Pages (2 * table.now.levels - 1) pages.old pages.new result }
{
    let mut found: ArrayVec<Dated, 1> = ArrayVec::new();
    match walk_in(pages, form, table, sought, &mut found) {
        Ok(()) => Ok(found.as_slice().first().copied()),
        Err(fault) => Err(fault),
    }
}

// Takes the objects from the key sought on in the first leaf that has such, as many as there is room for.
fn walk_in<P: Pages, const N: usize>(
    pages: &mut P,
    form: Form,
    table: &Tree,
    sought: u128,
    found: &mut ArrayVec<Dated, N>,
) -> Result<(), PageFault>
    requires none { found.old.items ≡ [] }
    requires room { 1 ≤ N }
    requires few { N ≤ 14 }
    ensures next { OnOk result (IsTrue (P.tells pages.old) → (lives : List Dated)
        → TableStands form (P.map pages.old) table.now lives → AreNext found.new.items sought lives) }
    ensures above { OnOk result (All (λ d. sought ≤ spec_key d) found.new.items) }
    ensures fits { OnOk result (All (λ d. IsTrue (by_life_fits d)) found.new.items) }
    ensures damaged { (page : ℕ) → result ≡ Err (PageFault.Damaged page) → IsTrue (P.tells pages.old)
        → IsDamagedOnWalk form (P.map pages.old) table.now sought page }
    ensures sound { (lives : List Dated) (page : ℕ) → IsTrue (P.tells pages.old)
        → TableStands form (P.map pages.old) table.now lives → result ≢ Err (PageFault.Damaged page) }
    ensures reads { OnlyReads P.Pages (2 * table.now.levels - 1) pages.old pages.new result }
{
    if table.levels == 0 {
        return Ok(());
    }
    let place = root_place(sought);
    let mut bytes = blank_page();
    walk_below(
        pages,
        form,
        table.root,
        table.levels,
        place,
        &mut bytes,
        found,
    )?;
    Ok(())
}

// Takes the objects from the key sought on in the first leaf that has such, of those from the page down,
// as many as there is room for. Each page is read in place in these bytes.
fn walk_below<P: Pages, const N: usize>(
    pages: &mut P,
    form: Form,
    page: u64,
    level: u8,
    place: Place,
    bytes: &mut Page,
    found: &mut ArrayVec<Dated, N>,
) -> Result<(), PageFault>
    requires none { found.old.items ≡ [] }
    requires room { 1 ≤ N }
    requires few { N ≤ 14 }
    ensures next { OnOk result (IsTrue (P.tells pages.old) → (least : ℕ)
        → StandsBelow form level (P.map pages.old) page place.low place.high least
        → AreNext found.new.items place.sought (lives_below form level (P.map pages.old) page)) }
    ensures above { OnOk result (All (λ d. place.sought ≤ spec_key d) found.new.items) }
    ensures fits { OnOk result (All (λ d. IsTrue (by_life_fits d)) found.new.items) }
    ensures damaged { (damaged : ℕ) → result ≡ Err (PageFault.Damaged damaged) → IsTrue (P.tells pages.old)
        → IsDamagedBelow (FitsPlace form) LeadsOn NothingBeside (P.map pages.old) level place page damaged }
    // Where nothing was found, only the path was read.
    ensures path { OnOk result (found.new.items ≡ [] → P.gets pages.new ≤ P.gets pages.old + level) }
    ensures reads { OnlyReads P.Pages (2 * level - 1) pages.old pages.new result }
{
    if level == 0 {
        return Ok(());
    }
    let node = view_node(pages, form, page, level, place, bytes)?;
    if level == 1 {
        take_from(&node, place.sought, found);
        return Ok(());
    }
    let begun = begun_count(&node, place.sought);
    let step = step_to(&node, begun - 1, place, place.sought);
    let past = step_past(&node, begun, place);
    walk_below(pages, form, step.child, level - 1, step.place, bytes, found)?;
    if !found.is_empty() {
        return Ok(());
    }
    let Some(next) = past else {
        return Ok(());
    };
    first_below(pages, form, next.child, level - 1, next.place, bytes, found)?;
    Ok(())
}

// Takes the first objects in the leaves from the page down, which is reached for the keys from the least on:
// those of one leaf, as many as there is room for.
fn first_below<P: Pages, const N: usize>(
    pages: &mut P,
    form: Form,
    page: u64,
    level: u8,
    place: Place,
    bytes: &mut Page,
    found: &mut ArrayVec<Dated, N>,
) -> Result<(), PageFault>
    requires level { 1 ≤ level }
    requires none { found.old.items ≡ [] }
    requires room { 1 ≤ N }
    requires few { N ≤ 14 }
    ensures first { OnOk result (IsTrue (P.tells pages.old) → (least : ℕ) → place.sought ≡ place.low
        → StandsBelow form level (P.map pages.old) page place.low place.high least
        → (rest : List Dated) × (lives_below form level (P.map pages.old) page ≡ found.new.items ++ rest)) }
    ensures some { OnOk result (1 ≤ length found.new.items) }
    ensures above { OnOk result (All (λ d. place.low ≤ spec_key d) found.new.items) }
    ensures fits { OnOk result (All (λ d. IsTrue (by_life_fits d)) found.new.items) }
    ensures damaged { (damaged : ℕ) → result ≡ Err (PageFault.Damaged damaged) → IsTrue (P.tells pages.old)
        → IsDamagedBelow (FitsPlace form) LeadsOn NothingBeside (P.map pages.old) level place page damaged }
    ensures reads { OnlyReads P.Pages level pages.old pages.new result }
{
    let node = view_node(pages, form, page, level, place, bytes)?;
    if level == 1 {
        take_from(&node, place.low, found);
        return Ok(());
    }
    let begun = begun_count(&node, place.sought);
    let step = step_to(&node, begun - 1, place, place.sought);
    first_below(pages, form, step.child, level - 1, step.place, bytes, found)?;
    Ok(())
}

// Takes the objects of a leaf from the key sought on, as many as there is room for.
fn take_from<const N: usize>(node: &NodeView, sought: u128, found: &mut ArrayVec<Dated, N>)
    requires keep { All (λ d. IsTrue (by_life_fits d)) (objects_in node.now) }
    requires none { found.old.items ≡ [] }
    requires room { 1 ≤ N }
    requires few { N ≤ 14 }
    ensures next { AreNext found.new.items sought (objects_in node.now) }
    ensures above { All (λ d. sought ≤ spec_key d) found.new.items }
    ensures fits { All (λ d. IsTrue (by_life_fits d)) found.new.items }
{
    for index in 0..node.object_count() {
        if node.object_key(index) >= sought {
            found.push(node.object(index));
            if found.is_full() {
                return;
            }
        }
    }
}
