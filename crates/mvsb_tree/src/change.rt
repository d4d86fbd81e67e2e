//! How an index node changes for an addition below it.
ghost use Rattle.std.specs.Prelude.{◌≡◌, ◌+◌, ◌%◌, ◌^◌, ◌<◌, ◌≤◌, ℕ, Bool, IsTrue, IsSome, Option, Some, length};
ghost use Rattle.std.specs.List.{All};
ghost use Rattle.page_layout.specs.MvNode.{IsMvEntryTyped, IsMvNode, IsTyped};
ghost use Rattle.mv_pages.specs.Alive.{AreEntriesOf, IsChangeable, child_of, node_value};
ghost use Rattle.mv_pages.specs.Edits.{OfCut, TakesIn};
ghost use Rattle.mv_pages.specs.Lows.{alive_lows, low_above, low_at, with_cut, with_low};
ghost use Rattle.mvsb_tree.specs.Becoming.{IsLedOn, TakesBelow};
ghost use Rattle.mvsb_tree.specs.Changed.{IsFrom, ReplacedFits, beside_value, cut_of, part_page, LowsPut};
ghost use Rattle.mvsb_tree.specs.Stored.{IsStorable};
ghost use Rattle.mvsb_tree.specs.Ways.{LowsCut, added_at};
ghost use Rattle.mvsb_tree.specs.Grown.{PastStays};
ghost use Rattle.mvsb_tree.specs.Stands.{ends_after};

use crate::replaced::Replaced;
use mv_pages::{add_at, add_beside, low_laws, new_child, path_laws};
use page_layout::MvNode;

/// Takes an addition into a leaf.
pub fn add_to_leaf(node: &mut MvNode, key: u64, version: u32, value: u128)
    requires leaf { node.old.level ≡ 1 }
    requires rules { IsMvNode node.old }
    requires typed { IsTyped node.old }
    requires changeable { IsChangeable version node.old.entries.items }
    ensures taken { TakesIn node.old.entries.items node.new.entries.items key version value }
    ensures storable { IsStorable version node.new }
    ensures past { PastStays version node.old node.new }
    ensures value { (q : ℕ) → node_value node.new q version ≡ (node_value node.old q version + added_at key value q) % 2 ^ 128 }
    ensures lows { alive_lows node.new.entries.items version ≡ with_low key (alive_lows node.old.entries.items version) }
    ensures tests { (test : ℕ → Bool) → All (λ e. IsTrue (test e.low)) node.old.entries.items → IsTrue (test key) → All (λ e. IsTrue (test e.low)) node.new.entries.items }
    ensures each { (test : ℕ → Bool) → IsTrue (test key) → All (λ l. IsTrue (test l)) (alive_lows node.old.entries.items version) → All (λ l. IsTrue (test l)) (alive_lows node.new.entries.items version) }
    ensures cut { (low least : ℕ) (high : Option ℕ) → LowsCut (alive_lows node.old.entries.items version) low high least → low ≤ key → IsTrue (ends_after high key)
        → LowsCut (alive_lows node.new.entries.items version) low high least }
    ensures few { length node.new.entries.items ≤ length node.old.entries.items + 1 }
{
    low_laws();
    add_at(node, key, version, value);
}

/// Changes an index node for an addition at a key and a version below it, where these pages, if any,
/// took the part of the child to which the key leads.
pub fn change(node: &mut MvNode, key: u64, version: u32, value: u128, replaced: Option<Replaced>)
    requires level { 2 ≤ node.old.level }
    requires rules { IsMvNode node.old }
    requires typed { IsTyped node.old }
    requires changeable { IsChangeable version node.old.entries.items }
    requires path { IsSome (child_of node.old key version) }
    requires replaced { ReplacedFits (low_at (alive_lows node.old.entries.items version) key) (low_above (alive_lows node.old.entries.items version) key) replaced }
    ensures taken { TakesBelow node.old.entries.items node.new.entries.items key version value replaced }
    ensures storable { IsStorable version node.new }
    ensures past { PastStays version node.old node.new }
    ensures value { (q : ℕ) → node_value node.new q version
        ≡ (node_value node.old q version + beside_value (low_above (alive_lows node.old.entries.items version) key) value q) % 2 ^ 128 }
    // The child's keys lead to what took its part, and all others to where they did.
    ensures led { (q child : ℕ) → IsFrom (low_at (alive_lows node.old.entries.items version) key) q → IsTrue (ends_after (low_above (alive_lows node.old.entries.items version) key) q)
        → child_of node.old q version ≡ Some child → child_of node.new q version ≡ Some (part_page child replaced q) }
    ensures others { (q : ℕ) → (IsFrom (low_at (alive_lows node.old.entries.items version) key) q → IsTrue (ends_after (low_above (alive_lows node.old.entries.items version) key) q) → ⊥)
        → child_of node.new q version ≡ child_of node.old q version }
    ensures lows { alive_lows node.new.entries.items version ≡ with_cut (cut_of replaced) (alive_lows node.old.entries.items version) }
    ensures around { (cut q : ℕ) → LowsPut cut (alive_lows node.old.entries.items version) q }
    ensures each { (test : ℕ → Bool) → OfCut (cut_of replaced) (λ cut. IsTrue (test cut)) → All (λ l. IsTrue (test l)) (alive_lows node.old.entries.items version)
        → All (λ l. IsTrue (test l)) (alive_lows node.new.entries.items version) }
    ensures cut { (low least : ℕ) (high : Option ℕ) → LowsCut (alive_lows node.old.entries.items version) low high least
        → OfCut (cut_of replaced) (λ cut. (low ≤ cut) × IsTrue (ends_after high cut)) → LowsCut (alive_lows node.new.entries.items version) low high least }
    ensures few { length node.new.entries.items ≤ length node.old.entries.items + 3 }
{
    low_laws();
    path_laws();
    add_beside(node, key, version, value);
    lead_on(node, key, version, replaced);
}

// Lets the keys of the path's entry lead to what took its child's part, if anything did.
fn lead_on(node: &mut MvNode, key: u64, version: u32, replaced: Option<Replaced>)
    requires level { 2 ≤ node.old.level }
    requires entries { AreEntriesOf node.old.level node.old.entries.items }
    requires changeable { IsChangeable version node.old.entries.items }
    requires room { length node.old.entries.items ≤ 97 }
    requires path { IsSome (child_of node.old key version) }
    requires replaced { ReplacedFits (low_at (alive_lows node.old.entries.items version) key) (low_above (alive_lows node.old.entries.items version) key) replaced }
    ensures led_on { IsLedOn node.old.entries.items node.new.entries.items key version replaced }
    ensures past { PastStays version node.old node.new }
    ensures value { (q : ℕ) → node_value node.new q version ≡ node_value node.old q version }
    ensures led { (q child : ℕ) → IsFrom (low_at (alive_lows node.old.entries.items version) key) q → IsTrue (ends_after (low_above (alive_lows node.old.entries.items version) key) q)
        → child_of node.old q version ≡ Some child → child_of node.new q version ≡ Some (part_page child replaced q) }
    ensures others { (q : ℕ) → (IsFrom (low_at (alive_lows node.old.entries.items version) key) q → IsTrue (ends_after (low_above (alive_lows node.old.entries.items version) key) q) → ⊥)
        → child_of node.new q version ≡ child_of node.old q version }
    ensures lows { alive_lows node.new.entries.items version ≡ with_cut (cut_of replaced) (alive_lows node.old.entries.items version) }
    ensures entries { AreEntriesOf node.new.level node.new.entries.items }
    ensures changeable { IsChangeable version node.new.entries.items }
    ensures typed { All IsMvEntryTyped node.old.entries.items → All IsMvEntryTyped node.new.entries.items }
    ensures few { length node.new.entries.items ≤ length node.old.entries.items + 2 }
{
    path_laws();
    if let Some(replaced) = replaced {
        new_child(node, key, version, replaced.first, replaced.second);
    }
}
