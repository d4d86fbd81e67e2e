//! A child of a node that is replaced.
ghost use Rattle.std.specs.Prelude.{◌≡◌, ◌+◌, ◌<◌, ◌≤◌, ℕ, Bool, IsTrue, IsSome, Some, length};
ghost use Rattle.std.specs.List.{All};
ghost use Rattle.page_layout.specs.MvNode.{IsMvEntryTyped};
ghost use Rattle.mv_pages.specs.Alive.{AreEntriesOf, IsChangeable, alive_count, child_of, next_entry, node_value, path_child, path_entry};
ghost use Rattle.mv_pages.specs.Edits.{BeginsBy, CutsWithin, EndsAfter, LeadsAnew, LeadsOn, OfCut, count_with, new_entry, page_for, put_in, with_second};
ghost use Rattle.mv_pages.specs.Lows.{alive_lows, with_cut};

use crate::edit::{Entries, change, new_entry, put_in};
use crate::find::path_index;
use page_layout::MvNode;

// Lets the entry that a key leads to at the version lead to a child from then on.
fn lead(entries: &mut Entries, key: u64, version: u32, child: u64)
    requires path { IsSome (path_child entries.old.items key version) }
    requires room { length entries.old.items ≤ 98 }
    ensures led { LeadsAnew entries.old.items entries.new.items key version child }
    ensures few { length entries.new.items ≤ length entries.old.items + 1 }
{
    match path_index(entries.as_slice(), key, version) {
        Some(index) => {
            let e = entries.as_slice()[index];
            let changed = new_entry(e.low, version, e.value, child);
            change(entries, index, version, changed);
        }
        None => {}
    }
}

// Puts an entry in for the second page.
fn put_cut(entries: &mut Entries, version: u32, cut: u64, page: u64)
    requires { length entries.old.items ≤ 99 }
    ensures items { entries.new.items ≡ put_in (new_entry cut version 0 page) entries.old.items }
    ensures typed { All IsMvEntryTyped entries.old.items → All IsMvEntryTyped entries.new.items }
    ensures few { length entries.new.items ≤ length entries.old.items + 1 }
{
    put_in(entries, new_entry(cut, version, 0, page));
}

// Puts an entry in for the second page, where there is one.
fn put_second(entries: &mut Entries, version: u32, second: Option<(u64, u64)>)
    requires { length entries.old.items ≤ 99 }
    ensures items { entries.new.items ≡ with_second version second entries.old.items }
    ensures typed { All IsMvEntryTyped entries.old.items → All IsMvEntryTyped entries.new.items }
    ensures few { length entries.new.items ≤ length entries.old.items + 1 }
{
    if let Some((cut, page)) = second {
        put_cut(entries, version, cut, page);
    }
}

/// Replaces the child that a key leads to at a version, from the version on: by one page, or by that page
/// below a cut and a second one from there on. `second` is the cut's key and that page.
pub fn new_child(node: &mut MvNode, key: u64, version: u32, child: u64, second: Option<(u64, u64)>)
    requires level { 2 ≤ node.old.level }
    requires entries { AreEntriesOf node.old.level node.old.entries.items }
    requires changeable { IsChangeable version node.old.entries.items }
    requires room { length node.old.entries.items ≤ 98 }
    requires path { IsSome (child_of node.old key version) }
    requires child { 3 ≤ child }
    requires second { CutsWithin (path_entry node.old.entries.items key version) (next_entry node.old.entries.items key version) second }
    ensures leads { LeadsOn node.old.entries.items node.new.entries.items key version child second }
    ensures value { (q v : ℕ) → node_value node.new q v ≡ node_value node.old q v }
    // The past stays, and from the version on the keys from the path's entry to before the next one lead to
    // the new pages, and the others to where they did.
    ensures past { (q v : ℕ) → v < version → child_of node.new q v ≡ child_of node.old q v }
    ensures led { (q v : ℕ) → version ≤ v → BeginsBy (path_entry node.old.entries.items key version) q → EndsAfter (next_entry node.old.entries.items key version) q
        → child_of node.new q v ≡ Some (page_for child second q) }
    ensures others { (q v : ℕ) → version ≤ v → (BeginsBy (path_entry node.old.entries.items key version) q → EndsAfter (next_entry node.old.entries.items key version) q → ⊥)
        → child_of node.new q v ≡ child_of node.old q v }
    ensures entries { AreEntriesOf node.new.level node.new.entries.items }
    ensures changeable { IsChangeable version node.new.entries.items }
    // At the version one entry is alive at the cut, and at the other lows those that were.
    ensures alive { (low : ℕ) → alive_count node.new.entries.items version low ≡ count_with second low (alive_count node.old.entries.items version low) }
    // Before the version the same lows are alive, and from the version on those and the cut.
    ensures lows_before { (v : ℕ) → v < version → alive_lows node.new.entries.items v ≡ alive_lows node.old.entries.items v }
    ensures lows_from { (v : ℕ) → version ≤ v → alive_lows node.new.entries.items v ≡ with_cut second (alive_lows node.old.entries.items v) }
    ensures lows { (test : ℕ → Bool) → All (λ e. IsTrue (test e.low)) node.old.entries.items → OfCut second (λ cut. IsTrue (test cut)) → All (λ e. IsTrue (test e.low)) node.new.entries.items }
    // The numbers stay those of their types.
    ensures typed { All IsMvEntryTyped node.old.entries.items → All IsMvEntryTyped node.new.entries.items }
    ensures few { length node.new.entries.items ≤ length node.old.entries.items + 2 }
    ensures level { node.new.level ≡ node.old.level }
    ensures place { node.new.place ≡ node.old.place }
    ensures before { node.new.before ≡ node.old.before }
{
    lead(&mut node.entries, key, version, child);
    put_second(&mut node.entries, version, second);
}
