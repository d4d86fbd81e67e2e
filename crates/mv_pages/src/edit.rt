//! How a change of a node changes its entries.
ghost use Rattle.std.specs.Prelude.{◌≡◌, ◌+◌, ◌%◌, ◌^◌, ◌<◌, ◌≤◌, ◌∷◌, ◌++◌, List, length, slice_set};
ghost use Rattle.page_layout.specs.declared.mv_node.MvEntry.{MvEntry};
ghost use Rattle.mv_pages.specs.Edits.{closed, new_entry, put_in, raised, IsChanged};

use crate::find::{OPEN, place_for};
use arrayvec::ArrayVec;
use page_layout::MvEntry;

/// The entries of a node in memory.
pub(crate) type Entries = ArrayVec<MvEntry, 100>;

/// Puts an entry in, before the first of a greater low.
pub(crate) fn put_in(entries: &mut Entries, entry: MvEntry)
    requires { length entries.old.items ≤ 99 }
    ensures items { entries.new.items ≡ put_in entry entries.old.items }
    ensures len { length entries.new.items ≡ length entries.old.items + 1 }
{
    let place = place_for(entries.as_slice(), entry.low);
    entries.insert(place, entry);
}

/// An entry that begins at the low, starts at the version and is not closed.
pub(crate) fn new_entry(low: u64, version: u32, value: u128, child: u64) -> MvEntry
    ensures { result ≡ new_entry low version value child }
{
    MvEntry {
        low,
        start: version,
        end: OPEN,
        value,
        child,
    }
}

// Replaces the entry at the index.
fn replace(entries: &mut Entries, index: usize, changed: MvEntry)
    requires { index < length entries.old.items }
    ensures items { entries.new.items ≡ slice_set entries.old.items index changed }
    ensures len { length entries.new.items ≡ length entries.old.items }
{
    if let Some(entry) = entries.get_mut(index) {
        *entry = changed;
    }
}

// The entry, closed at the version.
fn closed(e: &MvEntry, version: u32) -> MvEntry
    ensures { result ≡ closed e.now version }
{
    MvEntry {
        low: e.low,
        start: e.start,
        end: version,
        value: e.value,
        child: e.child,
    }
}

/// What the entry becomes from the version on, where so much is added to it.
pub(crate) fn raised(e: &MvEntry, version: u32, more: u128) -> MvEntry
    ensures { result ≡ raised e.now version more }
{
    MvEntry {
        low: e.low,
        start: version,
        end: OPEN,
        value: e.value.wrapping_add(more),
        child: e.child,
    }
}

/// Changes the entry at the index at the version: where it starts there it is replaced, else it is
/// closed there and what it becomes is put in.
pub(crate) fn change(entries: &mut Entries, index: usize, version: u32, changed: MvEntry)
    requires index { index < length entries.old.items }
    requires room { length entries.old.items ≤ 99 }
    ensures changed { (before after : List MvEntry) (e : MvEntry) → entries.old.items ≡ before ++ (e ∷ after) → length before ≡ index → IsChanged before e after version changed entries.new.items }
    ensures few { length entries.new.items ≤ length entries.old.items + 1 }
{
    let e = entries.as_slice()[index];
    if e.start == version {
        replace(entries, index, changed);
        return;
    }
    replace(entries, index, closed(&e, version));
    put_in(entries, changed);
}

/// Changes the entry at the index by adding to its value from the version on.
pub(crate) fn raise(entries: &mut Entries, index: usize, version: u32, more: u128)
    requires index { index < length entries.old.items }
    requires room { length entries.old.items ≤ 99 }
    ensures changed { (before after : List MvEntry) (e : MvEntry) → entries.old.items ≡ before ++ (e ∷ after) → length before ≡ index → IsChanged before e after version (raised e version more) entries.new.items }
    ensures few { length entries.new.items ≤ length entries.old.items + 1 }
{
    let changed = raised(&entries.as_slice()[index], version, more);
    change(entries, index, version, changed);
}
