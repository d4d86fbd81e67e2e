//! The chain of places.
ghost use Rattle.std.specs.Prelude.{◌≡◌, ◌≢◌, ◌⊎◌, ◌≤◌, ℕ, length, Err, IsTrue, IfOk};
ghost use Rattle.ports.specs.Calls.{Grows};
ghost use Rattle.mv_pages.specs.Alive.{AreEntriesOf};
ghost use Rattle.mvsb_tree.specs.Stands.{ChainStands};
ghost use Rattle.mvsb_tree.specs.Stored.{IsLastDamaged, IsNext};

use page_layout::{MvNode, make_page, read_page};
use ports::{Stage, StageFault};

/// Makes a page for the node, at the place after that of the last page of the chain, which it then is.
///
/// `Damaged` carries the last page where it is no node or has the last place that there is, or a page
/// of the stage where its free pages are not in order.
pub fn make_next<S: Stage>(stage: &mut S, node: MvNode, last: &mut u64) -> Result<u64, StageFault>
    requires level { (1 ≤ node.level) × (node.level ≤ 16) }
    requires count { (1 ≤ length node.entries.items) × (length node.entries.items ≤ 96) }
    requires entries { AreEntriesOf node.level node.entries.items }
    ensures number { IfOk result (λ page. (3 ≤ page) × (last.new ≡ page)) }
    ensures made { IfOk result (λ page. IsTrue (S.tells stage.old) → IsNext (S.map stage.old) (S.map stage.new) last.old node page) }
    ensures damaged { (p : ℕ) → result ≡ Err (StageFault.Damaged p) → IsTrue (S.tells stage.old)
        → IsLastDamaged (S.map stage.old) last.old p ⊎ (¬ S.free_in_order stage.old) }
    // A chain that stands never comes to the last place, since its pages differ.
    ensures sound { (places p : ℕ) → IsTrue (S.tells stage.old) → ChainStands places (S.map stage.old) last.old → 1 ≤ places
        → S.free_in_order stage.old → result ≢ Err (StageFault.Damaged p) }
    ensures grows { Grows S.Pages 1 stage.old stage.new result }
{
    let before: MvNode = read_page(stage, *last)?;
    // No page of a stage is 0; it is tested for a stage that does not tell its map.
    if before.place == u32::MAX || *last == 0 {
        return Err(StageFault::Damaged(*last));
    }
    let node = next_node(node, before.place + 1, *last);
    let page = make_page(stage, &node)?;
    *last = page;
    Ok(page)
}

// The node at a place, behind another.
fn next_node(node: MvNode, place: u32, before: u64) -> MvNode
    ensures level { result.level ≡ node.level }
    ensures place { result.place ≡ place }
    ensures before { result.before ≡ before }
    ensures entries { result.entries ≡ node.entries }
{
    MvNode {
        level: node.level,
        place,
        before,
        entries: node.entries,
    }
}
