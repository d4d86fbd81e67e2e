//! Additions to a whole tree below its directory.
ghost use Rattle.std.specs.Prelude.{◌≡◌, ◌≢◌, ◌⊎◌, ◌+◌, ◌^◌, ◌<◌, ◌≤◌, ℕ, Bool, Err, IsTrue, IfOk, None};
ghost use Rattle.ports.specs.Calls.{Grows};
ghost use Rattle.sb_tree.specs.Stored.{OthersStay};
ghost use Rattle.mvsb_tree.specs.AddDamage.{IsDamagedAtRoot, IsRootClosed, IsWholeFromRoot, KeepsDirectories};
ghost use Rattle.mvsb_tree.specs.Grown.{NodesHold};
ghost use Rattle.mvsb_tree.specs.Stands.{ChainStands, StandsOnWay};
ghost use Rattle.mvsb_tree.specs.Steps.{chain_from, root_level};
ghost use Rattle.mvsb_tree.specs.Tops.{RootAdded};
ghost use Rattle.mvsb_tree.specs.Ways.{way_pages};

use crate::below::add_on;
use crate::node::{no_node, read_node};
use crate::place::root_place;
use crate::top::top_of;
use mv_pages::is_changeable;
use page_layout::{MvNode, PlaceFor, View, view_page};
use ports::{Stage, StageFault, blank_page};

/// Adds a value from a key and a version on to the nodes from the root down, and gives the page of the
/// root from the version on.
///
/// `directory` is the page that `Damaged` carries where a root of level 16 would have to be split.
pub fn add_at_root<S: Stage>(
    stage: &mut S,
    root: u64,
    key: u64,
    version: u32,
    value: u128,
    last: &mut u64,
    directory: u64,
) -> Result<u64, StageFault>
    requires version { version < 4294967295 }
    ensures number { IfOk result (λ top. 3 ≤ top) }
    ensures added { IfOk result (λ top. IsTrue (S.tells stage.old) → (test : ℕ → Bool) (places : ℕ) → IsTrue (test key)
        → ChainStands places (S.map stage.old) last.old → NodesHold version test (S.map stage.old) (chain_from places (S.map stage.old) last.old)
        → ((q : ℕ) → q < 2 ^ 64 → StandsOnWay (root_level (S.map stage.old) root) (S.map stage.old) (chain_from places (S.map stage.old) last.old) root version q 0 None 1)
        → RootAdded test (S.map stage.old) (S.map stage.new) root top version key value places last.old last.new) }
    // The pages that are not on the way of the key stay, whatever they hold.
    ensures apart { IfOk result (λ top. IsTrue (S.tells stage.old)
        → OthersStay (way_pages (root_level (S.map stage.old) root) (S.map stage.old) root key version) (S.map stage.old) (S.map stage.new)) }
    // The last page of the chain is the one of before, or one that was given out.
    ensures ends { IfOk result (λ top. IsTrue (S.tells stage.old) → (last.new ≡ last.old) ⊎ (S.map stage.old last.new ≡ None)) }
    // The root stays, where its page has room for what it becomes.
    ensures closed { IfOk result (λ top. IsTrue (S.tells stage.old) → (top ≡ root) ⊎ IsRootClosed (S.map stage.old) root key version value) }
    // Where it answers, no page on the way of the key was damaged.
    ensures whole { IfOk result (λ top. IsTrue (S.tells stage.old) → IsWholeFromRoot (S.map stage.old) root key version) }
    ensures directories { IfOk result (λ top. IsTrue (S.tells stage.old) → KeepsDirectories (S.map stage.old) (S.map stage.new)) }
    ensures damaged { (p : ℕ) → result ≡ Err (StageFault.Damaged p) → IsTrue (S.tells stage.old)
        → IsDamagedAtRoot (S.map stage.old) root key version value last.old directory p ⊎ (¬ S.free_in_order stage.old) }
    ensures sound { (test : ℕ → Bool) (places p : ℕ) → IsTrue (S.tells stage.old) → IsTrue (test key)
        → ChainStands places (S.map stage.old) last.old → NodesHold version test (S.map stage.old) (chain_from places (S.map stage.old) last.old)
        → ((q : ℕ) → q < 2 ^ 64 → StandsOnWay (root_level (S.map stage.old) root) (S.map stage.old) (chain_from places (S.map stage.old) last.old) root version q 0 None 1)
        → root_level (S.map stage.old) root ≤ 15 → S.free_in_order stage.old → result ≢ Err (StageFault.Damaged p) }
    ensures grows { Grows S.Pages 33 stage.old stage.new result }
    // Two pages a level and a new root at most.
    ensures few { (most : ℕ) → IsTrue (S.tells stage.old) → root_level (S.map stage.old) root ≤ most
        → Grows S.Pages (most + most + 1) stage.old stage.new result }
{
    // No page of a stage is below 3; it is tested for a stage that does not tell its map.
    if root < 3 {
        return Err(StageFault::Damaged(root));
    }
    let mut bytes = blank_page();
    let view: View<MvNode> = view_page(stage, root, &mut bytes)?;
    let mut node = no_node();
    read_node(&view, &mut node);
    let level = node.level;
    let place = root_place(key, version);
    if !place.admits(level, &node) || !is_changeable(&node, version) {
        return Err(StageFault::Damaged(root));
    }
    let replaced = add_on(stage, root, &mut node, place, value, last, &mut bytes)?;
    top_of(stage, root, level, version, replaced, last, directory)
}
