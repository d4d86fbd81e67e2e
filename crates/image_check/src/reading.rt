//! Reading a whole table.
ghost use Rattle.std.specs.Prelude.{◌≡◌, ◌↔◌, List, length, IsTrue, IfOk, IfSome, Ok, Err, None, true, false};
ghost use Rattle.bw_types.specs.declared.dated.Dated.{Dated};
ghost use Rattle.ports.specs.Count.{Rose};
ghost use Rattle.object_table.specs.Lives.{lives_below, pages_below};
ghost use Rattle.object_table.specs.Stands.{RootStands, StandsBelow, TableStands};
ghost use Rattle.image_check.specs.Passing.{CanPass, Passed, ReadsSeen, SeesOwn};
ghost use Rattle.image_check.specs.Reading.{AreItsPages, EntriesStand, ReadsEachOnce, entry_lives, entry_pages};

use crate::keeping::{begin_of, fewest, from_place, index_keeps, keeps_its_low, leaf_keeps};
use crate::key::low_key;
use crate::node::{entries_of, objects_of, read_node};
use crate::seen::add_page;
use bw_types::{Dated, Tree};
use object_table::Form;
use page_checks::CheckFault;
use page_layout::LifeEntry;
use ports::{PageFault, Pages};
use std::alloc::{AllocError, Global};
use std::collections::BTreeSet;

/// A table that was found: its objects in order, and its pages in order.
#[derive(Drop)]
pub struct FoundTable {
    pub lives: Vec<Dated>,
    pub pages: Vec<u64>,
}

/// The objects and the pages of a table, or none where the pages hold no table.
///
/// The pages are only read, each of them once. It takes memory for the list of the objects and for the numbers
/// of the pages. `Disk` comes only where the count of faults rose.
pub fn read_table<P: Pages>(
    alloc: Global,
    pages: &mut P,
    form: Form,
    table: &Tree,
) -> Result<Option<FoundTable>, CheckFault>
    ensures some { IfOk result (λ found. IfSome found (λ it. IsTrue (P.tells pages.old)
        → TableStands form (P.map pages.old) table.now it.lives.items)) }
    ensures pages { IfOk result (λ found. IfSome found (λ it. IsTrue (P.tells pages.old)
        → AreItsPages form (P.map pages.old) table.now it.pages.items)) }
    ensures none { result ≡ Ok None → IsTrue (P.tells pages.old) → (kept : List Dated)
        → TableStands form (P.map pages.old) table.now kept → ⊥ }
    ensures reads { ReadsEachOnce P.Pages form table.now pages.old pages.new }
    ensures disk { result ≡ Err CheckFault.Disk → Rose (P.faults pages.old) (P.faults pages.new) }
{
    let mut lives = Vec::new(alloc);
    let mut seen = BTreeSet::new(alloc);
    let stands = read_root(pages, form, table, &mut lives, &mut seen);
    // The pages that were seen are told in order, so that none is told twice.
    let _ = seen.len();
    if !stands? || !counts(table, lives.len()) {
        return Ok(None);
    }
    let pages = listed(alloc, &seen)?;
    Ok(Some(FoundTable { lives, pages }))
}

// The pages that were seen, in order.
fn listed(alloc: Global, seen: &BTreeSet<u64>) -> Result<Vec<u64>, AllocError>
    ensures { IfOk result (λ pages. pages.items ≡ seen.now.keys) }
{
    let pages: Vec<u64> = seen.iter().copied().collect(alloc)?;
    Ok(pages)
}

// Whether the table tells so many objects, and nothing that belongs to other trees.
fn counts(table: &Tree, count: usize) -> bool
    ensures { IsTrue result ↔ ((table.now.count ≡ count) × (table.now.changes ≡ 0) × (table.now.last ≡ 0)) }
{
    table.count as usize == count && table.changes == 0 && table.last == 0
}

// Puts the objects of the table behind the others, and says whether its nodes stand.
fn read_root<P: Pages>(
    pages: &mut P,
    form: Form,
    table: &Tree,
    lives: &mut Vec<Dated>,
    seen: &mut BTreeSet<u64>,
) -> Result<bool, CheckFault>
    ensures yes { result ≡ Ok true → IsTrue (P.tells pages.old) → Passed (RootStands form table.now.levels (P.map pages.old) table.now.root)
        (pages_below form table.now.levels (P.map pages.old) table.now.root) (lives_below form table.now.levels (P.map pages.old) table.now.root)
        lives.old.items lives.new.items seen.old.keys seen.new.keys }
    ensures no { result ≡ Ok false → IsTrue (P.tells pages.old)
        → CanPass (RootStands form table.now.levels (P.map pages.old) table.now.root) (pages_below form table.now.levels (P.map pages.old) table.now.root) seen.old.keys → ⊥ }
    ensures sees { IsTrue (P.tells pages.old) → SeesOwn (pages_below form table.now.levels (P.map pages.old) table.now.root) seen.old.keys seen.new.keys }
    ensures reads { ReadsSeen P.Pages (length seen.old.keys) (length seen.new.keys) pages.old pages.new }
    ensures disk { result ≡ Err CheckFault.Disk → Rose (P.faults pages.old) (P.faults pages.new) }
{
    if table.levels == 0 {
        return Ok(table.root == 0);
    }
    read_below(
        pages,
        form,
        table.root,
        table.levels,
        0,
        1 << 96,
        1,
        lives,
        seen,
    )
}

// Puts the objects in the leaves from the page down behind the others, and says whether the page stands for the
// keys from `low` to before `high`.
#[cycle(reads)]
fn read_below<P: Pages>(
    pages: &mut P,
    form: Form,
    page: u64,
    level: u8,
    low: u128,
    high: u128,
    least: usize,
    lives: &mut Vec<Dated>,
    seen: &mut BTreeSet<u64>,
) -> Result<bool, CheckFault>
    ensures yes { result ≡ Ok true → IsTrue (P.tells pages.old) → Passed (StandsBelow form level (P.map pages.old) page low high least)
        (pages_below form level (P.map pages.old) page) (lives_below form level (P.map pages.old) page)
        lives.old.items lives.new.items seen.old.keys seen.new.keys }
    ensures no { result ≡ Ok false → IsTrue (P.tells pages.old)
        → CanPass (StandsBelow form level (P.map pages.old) page low high least) (pages_below form level (P.map pages.old) page) seen.old.keys → ⊥ }
    ensures sees { IsTrue (P.tells pages.old) → SeesOwn (pages_below form level (P.map pages.old) page) seen.old.keys seen.new.keys }
    ensures reads { ReadsSeen P.Pages (length seen.old.keys) (length seen.new.keys) pages.old pages.new }
    ensures disk { result ≡ Err CheckFault.Disk → Rose (P.faults pages.old) (P.faults pages.new) }
{
    if level == 0 {
        return Ok(false);
    }
    if !add_page(seen, page)? {
        return Ok(false);
    }
    let node = match read_node(pages, form, page, level) {
        Ok(node) => node,
        Err(PageFault::Disk) => return Err(CheckFault::Disk),
        Err(PageFault::Damaged(_)) => return Ok(false),
    };
    if level == 1 {
        let objects = objects_of(&node);
        if !leaf_keeps(objects, low, high, least) {
            return Ok(false);
        }
        lives.extend_from_slice(objects)?;
        return Ok(true);
    }
    let entries = entries_of(&node);
    if !index_keeps(entries, low, high, least) {
        return Ok(false);
    }
    read_entries(pages, form, entries, level - 1, high, lives, seen)
}

// Puts the objects in the leaves from the children of the entries down behind the others, and says whether each
// child stands up to where the next entry begins.
#[cycle(reads)]
fn read_entries<P: Pages>(
    pages: &mut P,
    form: Form,
    entries: &[LifeEntry],
    level: u8,
    high: u128,
    lives: &mut Vec<Dated>,
    seen: &mut BTreeSet<u64>,
) -> Result<bool, CheckFault>
    ensures yes { result ≡ Ok true → IsTrue (P.tells pages.old) → Passed (EntriesStand form level (P.map pages.old) entries.now high)
        (entry_pages form level (P.map pages.old) entries.now) (entry_lives form level (P.map pages.old) entries.now)
        lives.old.items lives.new.items seen.old.keys seen.new.keys }
    ensures no { result ≡ Ok false → IsTrue (P.tells pages.old)
        → CanPass (EntriesStand form level (P.map pages.old) entries.now high) (entry_pages form level (P.map pages.old) entries.now) seen.old.keys → ⊥ }
    ensures sees { IsTrue (P.tells pages.old) → SeesOwn (entry_pages form level (P.map pages.old) entries.now) seen.old.keys seen.new.keys }
    ensures reads { ReadsSeen P.Pages (length seen.old.keys) (length seen.new.keys) pages.old pages.new }
    ensures disk { result ≡ Err CheckFault.Disk → Rose (P.faults pages.old) (P.faults pages.new) }
{
    for index in 0..entries.len() {
        let entry = &entries[index];
        let to = begin_of(&entries[index + 1..], high);
        let before = lives.len();
        let stands = read_below(
            pages,
            form,
            entry.child,
            level,
            low_key(entry),
            to,
            fewest(form, level),
            lives,
            seen,
        )?;
        if !stands {
            return Ok(false);
        }
        if !keeps_its_low(entry, from_place(lives.as_slice(), before)) {
            return Ok(false);
        }
    }
    Ok(true)
}
