//! Storing a node in its page, or in those that take its part.
ghost use Rattle.std.specs.Prelude.{◌≡◌, ◌≢◌, ◌⊎◌, ◌<◌, ◌≤◌, true, ℕ, length, Err, IsTrue, IsSome, IfOk};
ghost use Rattle.ports.specs.Calls.{Grows};
ghost use Rattle.page_layout.specs.MvNode.{before_fits};
ghost use Rattle.mv_pages.specs.Alive.{AreEntriesOf};
ghost use Rattle.ports.specs.Frame.{names_page};
ghost use Rattle.mvsb_tree.specs.AddDamage.{IsEndDamaged, IsPlacedAs};
ghost use Rattle.mvsb_tree.specs.Becoming.{new_pages};
ghost use Rattle.mvsb_tree.specs.Stands.{ChainStands};
ghost use Rattle.mvsb_tree.specs.Steps.{chain_from, node_on};
ghost use Rattle.mvsb_tree.specs.Stored.{IsClosed, IsFirstStored, IsLastDamaged, IsSplitOf, IsStorable, IsStored, SplitCut, all_start_at as spec_all_start_at};

use crate::chain::make_next;
use crate::node::put_node;
use crate::replaced::Replaced;
use mv_pages::{Copied, close_and_copy};
use page_layout::{MvEntry, MvNode, put_page};
use ports::{Page, Stage, StageFault};

/// Stores a node that was changed at the version in its page. Where it has more than 96 entries, one
/// new page takes its part from the version on, or two do, and the page stays as it was for the past;
/// only where all its entries start at the version it has no past, and is the first of the two. A node
/// of at most 96 entries is put by way of `bytes`, whatever they hold.
pub fn store<S: Stage>(
    stage: &mut S,
    page: u64,
    node: &MvNode,
    version: u32,
    last: &mut u64,
    bytes: &mut Page,
) -> Result<Option<Replaced>, StageFault>
    requires rules { IsStorable version node.now }
    requires number { 3 ≤ page }
    requires in_map { IsTrue (S.tells stage.old) → IsSome (S.map stage.old page) }
    ensures split { IfOk result (λ replaced. IsSplitOf node.now version replaced) }
    ensures stored { IfOk result (λ replaced. IsTrue (S.tells stage.old)
        → IsStored (S.map stage.old) (S.map stage.new) page node.now version last.old last.new replaced) }
    ensures damaged { (p : ℕ) → result ≡ Err (StageFault.Damaged p) → IsTrue (S.tells stage.old) → IsPlacedAs (S.map stage.old) page node.now
        → IsEndDamaged (new_pages node.now version) (S.map stage.old) last.old p ⊎ (¬ S.free_in_order stage.old) }
    ensures sound { (places p : ℕ) → IsTrue (S.tells stage.old) → ChainStands places (S.map stage.old) last.old → names_page (chain_from places (S.map stage.old) last.old) page ≡ true
        → node.now.place ≡ (node_on (S.map stage.old) page).place → node.now.before ≡ (node_on (S.map stage.old) page).before → S.free_in_order stage.old → result ≢ Err (StageFault.Damaged p) }
    ensures grows { Grows S.Pages 2 stage.old stage.new result }
{
    if node.entries.len() <= 96 {
        put_node(stage, page, node, bytes)?;
        return Ok(None);
    }
    let replaced = close(stage, page, node, version, last)?;
    Ok(Some(replaced))
}

// Closes a node of more than 96 entries. Stands by itself, so that a node that fits does not pay for the room of the copies.
#[inline(never)]
fn close<S: Stage>(
    stage: &mut S,
    page: u64,
    node: &MvNode,
    version: u32,
    last: &mut u64,
) -> Result<Replaced, StageFault>
    requires rules { IsStorable version node.now }
    requires full { 96 < length node.now.entries.items }
    requires number { 3 ≤ page }
    requires in_map { IsTrue (S.tells stage.old) → IsSome (S.map stage.old page) }
    ensures number { IfOk result (λ replaced. 3 ≤ replaced.first) }
    ensures split { IfOk result (λ replaced. SplitCut node.now version replaced.second) }
    ensures closed { IfOk result (λ replaced. IsTrue (S.tells stage.old)
        → IsClosed (S.map stage.old) (S.map stage.new) page node.now version last.old last.new replaced) }
    ensures damaged { (p : ℕ) → result ≡ Err (StageFault.Damaged p) → IsTrue (S.tells stage.old) → IsPlacedAs (S.map stage.old) page node.now
        → IsEndDamaged (new_pages node.now version) (S.map stage.old) last.old p ⊎ (¬ S.free_in_order stage.old) }
    ensures sound { (places p : ℕ) → IsTrue (S.tells stage.old) → ChainStands places (S.map stage.old) last.old → names_page (chain_from places (S.map stage.old) last.old) page ≡ true
        → node.now.place ≡ (node_on (S.map stage.old) page).place → node.now.before ≡ (node_on (S.map stage.old) page).before → S.free_in_order stage.old → result ≢ Err (StageFault.Damaged p) }
    ensures grows { Grows S.Pages 2 stage.old stage.new result }
{
    match close_and_copy(node, version) {
        Copied::One(one) => {
            let first = make_next(stage, one, last)?;
            Ok(Replaced {
                first,
                second: None,
            })
        }
        Copied::Two(first, cut, second) => {
            let starts = all_start_at(node.entries.as_slice(), version);
            let first = store_first(stage, page, starts, first, last)?;
            let second = make_next(stage, second, last)?;
            Ok(Replaced {
                first,
                second: Some((cut, second)),
            })
        }
    }
}

// Stores the first of two copies: in the node's own page, where that has no past.
fn store_first<S: Stage>(
    stage: &mut S,
    page: u64,
    starts: bool,
    first: MvNode,
    last: &mut u64,
) -> Result<u64, StageFault>
    requires place { (1 ≤ first.place) × IsTrue (before_fits first.place first.before) }
    requires level { (1 ≤ first.level) × (first.level ≤ 16) }
    requires count { (1 ≤ length first.entries.items) × (length first.entries.items ≤ 96) }
    requires entries { AreEntriesOf first.level first.entries.items }
    requires number { 3 ≤ page }
    requires in_map { IsTrue (S.tells stage.old) → IsSome (S.map stage.old page) }
    ensures number { IfOk result (λ number. 3 ≤ number) }
    ensures stored { IfOk result (λ number. IsTrue (S.tells stage.old)
        → IsFirstStored starts (S.map stage.old) (S.map stage.new) page last.old last.new first number) }
    ensures damaged { (p : ℕ) → result ≡ Err (StageFault.Damaged p) → IsTrue (S.tells stage.old)
        → IsLastDamaged (S.map stage.old) last.old p ⊎ (¬ S.free_in_order stage.old) }
    ensures sound { (places p : ℕ) → IsTrue (S.tells stage.old) → ChainStands places (S.map stage.old) last.old → 1 ≤ places → S.free_in_order stage.old → result ≢ Err (StageFault.Damaged p) }
    ensures grows { Grows S.Pages 1 stage.old stage.new result }
{
    if starts {
        put_page(stage, page, &first)?;
        return Ok(page);
    }
    make_next(stage, first, last)
}

fn all_start_at(entries: &[MvEntry], version: u32) -> bool
    ensures { result ≡ spec_all_start_at version entries.now }
{
    entries.iter().all(|e| e.start == version)
}
