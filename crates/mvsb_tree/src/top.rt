//! The root above what an addition leaves of the one before.
ghost use Rattle.std.specs.Prelude.{◌≡◌, ◌≢◌, ◌⊎◌, ◌+◌, ◌<◌, ◌≤◌, ◌^◌, ℕ, Err, IsTrue, IsSome, IfOk, Some, None};
ghost use Rattle.ports.specs.Calls.{Grows};
ghost use Rattle.mv_pages.specs.Alive.{AreEntriesOf};
ghost use Rattle.mv_pages.specs.Edits.{new_entry};
ghost use Rattle.mvsb_tree.specs.Changed.{ReplacedFits, cut_of};
ghost use Rattle.mvsb_tree.specs.Stands.{ChainStands};
ghost use Rattle.mvsb_tree.specs.Stored.{IsLastDamaged};
ghost use Rattle.mvsb_tree.specs.Tops.{IsReplacedTyped, IsTop, root_node};

use crate::chain::make_next;
use crate::replaced::Replaced;
use arrayvec::ArrayVec;
use page_layout::{MvEntry, MvNode};
use ports::{Stage, StageFault};

/// The root from a version on, where these pages, if any, took the part of a root of the level: two
/// pages get a new root above them.
///
/// `Damaged` carries the directory's root where the root that would be split has level 16, and else a
/// page as for `make_next`.
pub fn top_of<S: Stage>(
    stage: &mut S,
    root: u64,
    level: u8,
    version: u32,
    replaced: Option<Replaced>,
    last: &mut u64,
    directory: u64,
) -> Result<u64, StageFault>
    requires number { 3 ≤ root }
    requires level { 1 ≤ level }
    requires version { version < 4294967295 }
    requires fits { ReplacedFits (Some 0) None replaced }
    ensures number { IfOk result (λ top. 3 ≤ top) }
    ensures top { IfOk result (λ top. IsTrue (S.tells stage.old) → IsTop (S.map stage.old) (S.map stage.new) root level version replaced last.old last.new top) }
    ensures typed { IfOk result (λ top. IsReplacedTyped replaced) }
    ensures damaged { (p : ℕ) → result ≡ Err (StageFault.Damaged p) → IsTrue (S.tells stage.old)
        → (IsSome (cut_of replaced) × (((p ≡ directory) × (16 ≤ level)) ⊎ ((level ≤ 15) × IsLastDamaged (S.map stage.old) last.old p))) ⊎ (¬ S.free_in_order stage.old) }
    ensures sound { (places p : ℕ) → IsTrue (S.tells stage.old) → ChainStands places (S.map stage.old) last.old → 1 ≤ places → level ≤ 15 → S.free_in_order stage.old
        → result ≢ Err (StageFault.Damaged p) }
    ensures grows { Grows S.Pages 1 stage.old stage.new result }
{
    let Some(replaced) = replaced else {
        return Ok(root);
    };
    let Some((cut, second)) = replaced.second else {
        return Ok(replaced.first);
    };
    if level >= 16 {
        return Err(StageFault::Damaged(directory));
    }
    let top = new_root(level + 1, version, replaced.first, cut, second);
    make_next(stage, top, last)
}

// A root above two pages.
fn new_root(level: u8, version: u32, first: u64, cut: u64, second: u64) -> MvNode
    requires level { 2 ≤ level }
    requires version { version < 4294967295 }
    requires pages { (3 ≤ first) × (3 ≤ second) }
    requires cut { 0 < cut }
    ensures typed { (first < 2 ^ 64) × (cut < 2 ^ 64) × (second < 2 ^ 64) }
    ensures node { result ≡ root_node level version first cut second }
    ensures entries { AreEntriesOf level result.entries.items }
{
    let mut entries = ArrayVec::new();
    entries.push(open_entry(0, version, first));
    entries.push(open_entry(cut, version, second));
    MvNode {
        level,
        place: 1,
        before: 0,
        entries,
    }
}

// An entry of value 0 that starts at the version and is not closed.
fn open_entry(low: u64, start: u32, child: u64) -> MvEntry
    ensures { result ≡ new_entry low start 0 child }
{
    MvEntry {
        low,
        start,
        end: 4294967295,
        value: 0,
        child,
    }
}
