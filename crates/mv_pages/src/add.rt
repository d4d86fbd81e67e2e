//! Additions to a node.
ghost use Rattle.std.specs.Prelude.{◌≡◌, ◌+◌, ◌%◌, ◌^◌, ◌<◌, ◌≤◌, ◌==◌, ℕ, Bool, IsTrue, if◌then◌else◌, length};
ghost use Rattle.std.specs.List.{All};
ghost use Rattle.page_layout.specs.MvNode.{IsMvEntryTyped};
ghost use Rattle.mv_pages.specs.Alive.{AreEntriesOf, IsChangeable, added, alive_count, child_of, next_entry, node_value, value_above};
ghost use Rattle.mv_pages.specs.Edits.{TakesIn, TakesAbove};
ghost use Rattle.mv_pages.specs.Lows.{alive_lows, with_low};

use crate::edit::{Entries, new_entry, put_in, raise};
use crate::find::{alive_index, next_index};
use page_layout::MvNode;

// Takes an addition at the low into the entries.
fn take_in(entries: &mut Entries, low: u64, version: u32, value: u128)
    requires { length entries.old.items ≤ 99 }
    ensures taken { TakesIn entries.old.items entries.new.items low version value }
    ensures few { length entries.new.items ≤ length entries.old.items + 1 }
{
    match alive_index(entries.as_slice(), low, version) {
        Some(index) => raise(entries, index, version, value),
        None => put_in(entries, new_entry(low, version, value, 0)),
    }
}

/// Takes an addition at a key and a version into a leaf: from the version on, the value at each key from
/// there on rises by so much, modulo `2^128`, and the past stays.
pub fn add_at(node: &mut MvNode, key: u64, version: u32, value: u128)
    requires leaf { node.old.level ≡ 1 }
    requires entries { AreEntriesOf node.old.level node.old.entries.items }
    requires changeable { IsChangeable version node.old.entries.items }
    requires room { length node.old.entries.items ≤ 99 }
    ensures taken { TakesIn node.old.entries.items node.new.entries.items key version value }
    // From the version on the value at each key from there on has so much more, and nothing else changes.
    ensures value { (q v : ℕ) → node_value node.new q v ≡ (node_value node.old q v + added key version value q v) % 2 ^ 128 }
    ensures entries { AreEntriesOf node.new.level node.new.entries.items }
    ensures changeable { IsChangeable version node.new.entries.items }
    // At the version one entry is alive at the key, and at the other lows those that were.
    ensures alive { (low : ℕ) → alive_count node.new.entries.items version low ≡ (if low == key then 1 else alive_count node.old.entries.items version low) }
    // Before the version the same lows are alive, and from the version on those and the key.
    ensures lows_before { (v : ℕ) → v < version → alive_lows node.new.entries.items v ≡ alive_lows node.old.entries.items v }
    ensures lows_from { (v : ℕ) → version ≤ v → alive_lows node.new.entries.items v ≡ with_low key (alive_lows node.old.entries.items v) }
    // What is true of the key and each low from before is true of each low.
    ensures lows { (test : ℕ → Bool) → All (λ e. IsTrue (test e.low)) node.old.entries.items → IsTrue (test key) → All (λ e. IsTrue (test e.low)) node.new.entries.items }
    // The numbers stay those of their types.
    ensures typed { All IsMvEntryTyped node.old.entries.items → All IsMvEntryTyped node.new.entries.items }
    ensures few { length node.new.entries.items ≤ length node.old.entries.items + 1 }
    ensures level { node.new.level ≡ node.old.level }
    ensures place { node.new.place ≡ node.old.place }
    ensures before { node.new.before ≡ node.old.before }
{
    take_in(&mut node.entries, key, version, value);
}

// Takes an addition into the first entry that is alive at the version and begins above the key.
fn take_above(entries: &mut Entries, key: u64, version: u32, value: u128)
    requires { length entries.old.items ≤ 99 }
    ensures taken { TakesAbove entries.old.items entries.new.items key version value }
    ensures few { length entries.new.items ≤ length entries.old.items + 1 }
{
    match next_index(entries.as_slice(), key, version) {
        Some(index) => raise(entries, index, version, value),
        None => {}
    }
}

/// Takes an addition at a key and a version into an index node, beside the child that the key leads to:
/// the entry after the path's rises by so much from the version on, where there is one.
pub fn add_beside(node: &mut MvNode, key: u64, version: u32, value: u128)
    requires entries { AreEntriesOf node.old.level node.old.entries.items }
    requires changeable { IsChangeable version node.old.entries.items }
    requires room { length node.old.entries.items ≤ 99 }
    ensures taken { TakesAbove node.old.entries.items node.new.entries.items key version value }
    // From the version on the value at each key from the next entry on has so much more.
    ensures value { (q v : ℕ) → node_value node.new q v ≡ (node_value node.old q v + value_above (next_entry node.old.entries.items key version) version value q v) % 2 ^ 128 }
    // Every key leads to the same child at every version.
    ensures child { (q v : ℕ) → child_of node.new q v ≡ child_of node.old q v }
    ensures entries { AreEntriesOf node.new.level node.new.entries.items }
    ensures changeable { IsChangeable version node.new.entries.items }
    ensures alive { (low : ℕ) → alive_count node.new.entries.items version low ≡ alive_count node.old.entries.items version low }
    // At every version the same lows are alive.
    ensures lows_stay { (v : ℕ) → alive_lows node.new.entries.items v ≡ alive_lows node.old.entries.items v }
    ensures lows { (test : ℕ → Bool) → All (λ e. IsTrue (test e.low)) node.old.entries.items → All (λ e. IsTrue (test e.low)) node.new.entries.items }
    // The numbers stay those of their types.
    ensures typed { All IsMvEntryTyped node.old.entries.items → All IsMvEntryTyped node.new.entries.items }
    ensures few { length node.new.entries.items ≤ length node.old.entries.items + 1 }
    ensures level { node.new.level ≡ node.old.level }
    ensures place { node.new.place ≡ node.old.place }
    ensures before { node.new.before ≡ node.old.before }
{
    take_above(&mut node.entries, key, version, value);
}
