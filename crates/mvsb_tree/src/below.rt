//! Additions to a node and below it.
ghost use Rattle.std.specs.Prelude.{◌≡◌, ◌≢◌, ◌⊎◌, ◌+◌, ◌^◌, ◌<◌, ◌≤◌, ℕ, Bool, Err, IsTrue, IfOk, Some};
ghost use Rattle.page_layout.specs.MvNode.{IsMvNode, IsTyped, mv_node_page};
ghost use Rattle.ports.specs.Calls.{Grows};
ghost use Rattle.mv_pages.specs.Alive.{IsChangeable};
ghost use Rattle.sb_tree.specs.Stored.{OthersStay};
ghost use Rattle.mvsb_tree.specs.AddDamage.{EndsOnWay, IsDamagedPastForAdd, IsMade, IsWholePast, KeepsDirectories};
ghost use Rattle.mvsb_tree.specs.Changed.{ReplacedFits};
ghost use Rattle.mvsb_tree.specs.Damage.{IsInPlace};
ghost use Rattle.mvsb_tree.specs.Grown.{NodesHold};
ghost use Rattle.mvsb_tree.specs.Stands.{ChainStands, ends_after};
ghost use Rattle.mvsb_tree.specs.Steps.{chain_from};
ghost use Rattle.mvsb_tree.specs.Ways.{IsAdded, WaysStand, way_pages};

use crate::change::{add_to_leaf, change};
use crate::node::{no_node, read_node};
use crate::place::Place;
use crate::replaced::Replaced;
use crate::step::step_from;
use crate::store::store;
use mv_pages::is_changeable;
use page_layout::{MvNode, View, view_in_place};
use ports::{Page, Stage, StageFault};

/// Adds a value from a key and a version on to the node of the page and below it. Where the node is
/// closed, the result is what takes its part. The node is changed in place, and `bytes` is the buffer
/// for the pages on the way, so only references are handed down the levels. What the two hold afterwards
/// is not said.
pub fn add_on<S: Stage>(
    stage: &mut S,
    page: u64,
    node: &mut MvNode,
    place: Place,
    value: u128,
    last: &mut u64,
    bytes: &mut Page,
) -> Result<Option<Replaced>, StageFault>
    requires number { 3 ≤ page }
    requires rules { IsMvNode node.old }
    requires typed { IsTyped node.old }
    requires changeable { IsChangeable place.version node.old.entries.items }
    requires placed { IsInPlace node.old.level place node.old }
    requires key { (place.low ≤ place.key) × IsTrue (ends_after place.high place.key) }
    requires key_fits { place.key < 2 ^ 64 }
    requires there { IsTrue (S.tells stage.old) → S.map stage.old page ≡ Some (mv_node_page node.old) }
    ensures fits { IfOk result (λ replaced. ReplacedFits (Some place.low) place.high replaced) }
    ensures added { IfOk result (λ replaced. IsTrue (S.tells stage.old) → (test : ℕ → Bool) (places least : ℕ) → IsTrue (test place.key)
        → ChainStands places (S.map stage.old) last.old → NodesHold place.version test (S.map stage.old) (chain_from places (S.map stage.old) last.old)
        → WaysStand node.old.level (S.map stage.old) (chain_from places (S.map stage.old) last.old) page place.version place.low place.high least
        → IsAdded node.old.level test (S.map stage.old) (S.map stage.new) page place.version place.key value place.low place.high least places last.old last.new replaced) }
    ensures apart { IfOk result (λ replaced. IsTrue (S.tells stage.old)
        → OthersStay (way_pages node.old.level (S.map stage.old) page place.key place.version) (S.map stage.old) (S.map stage.new)) }
    // What the node becomes, the pages that take its part, and how many new ones that takes.
    ensures made { IfOk result (λ replaced. IsTrue (S.tells stage.old)
        → IsMade node.old.level (S.map stage.old) (S.map stage.new) node.old place.key place.version value last.old last.new replaced) }
    // Pages that hold nodes of a directory stay, whatever leads to them.
    ensures directories { IfOk result (λ replaced. IsTrue (S.tells stage.old) → KeepsDirectories (S.map stage.old) (S.map stage.new)) }
    ensures damaged { (p : ℕ) → result ≡ Err (StageFault.Damaged p) → IsTrue (S.tells stage.old)
        → IsDamagedPastForAdd (S.map stage.old) place node.old p
        ⊎ (IsWholePast (S.map stage.old) place node.old × EndsOnWay node.old.level (S.map stage.old) node.old place.key place.version value last.old p)
        ⊎ (¬ S.free_in_order stage.old) }
    ensures whole { IfOk result (λ replaced. IsTrue (S.tells stage.old) → IsWholePast (S.map stage.old) place node.old) }
    // On ways that stand no page is found damaged.
    ensures sound { (test : ℕ → Bool) (places least p : ℕ) → IsTrue (S.tells stage.old) → IsTrue (test place.key)
        → ChainStands places (S.map stage.old) last.old → NodesHold place.version test (S.map stage.old) (chain_from places (S.map stage.old) last.old)
        → WaysStand node.old.level (S.map stage.old) (chain_from places (S.map stage.old) last.old) page place.version place.low place.high least
        → S.free_in_order stage.old → result ≢ Err (StageFault.Damaged p) }
    ensures grows { Grows S.Pages (node.old.level + node.old.level) stage.old stage.new result }
{
    let Some(step) = step_from(node, place) else {
        add_to_leaf(node, place.key, place.version, value);
        return store(stage, page, node, place.version, last, bytes);
    };
    let view: View<MvNode> = view_in_place(stage, step.child, node.level - 1, step.place, bytes)?;
    let mut child = no_node();
    read_node(&view, &mut child);
    if !is_changeable(&child, place.version) {
        return Err(StageFault::Damaged(step.child));
    }
    let replaced = add_on(
        stage, step.child, &mut child, step.place, value, last, bytes,
    )?;
    change(node, place.key, place.version, value, replaced);
    store(stage, page, node, place.version, last, bytes)
}
