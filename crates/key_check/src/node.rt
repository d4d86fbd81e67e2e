//! Nodes of trees over versions, and whether they stand where a walk reaches them.
ghost use Rattle.std.specs.Prelude.{◌≡◌, ◌≤◌, ◌<◌, ◌↔◌, Ok, Err, Some, None, IsTrue, length, drop};
ghost use Rattle.std.specs.List.{All};
ghost use Rattle.sb_tree.specs.Stands.{NodeStands, first_low};
ghost use Rattle.sb_tree.specs.Steps.{entries_on};
ghost use Rattle.page_checks.specs.Reads.{OnlyChecks};
ghost use Rattle.page_layout.specs.declared.sb_node.SbNode.{SbNode};

use crate::reached::Reached;
use page_checks::CheckFault;
use page_layout::{SbEntry, SbNode, read_level};
use ports::{PageFault, Pages};

/// The node of the level that the page spells, where it stands as it is reached.
pub(crate) fn node_at<P: Pages>(
    pages: &mut P,
    reached: Reached,
    level: u8,
) -> Result<Option<SbNode>, CheckFault>
    ensures some { (node : SbNode) → result ≡ Ok (Some node) → IsTrue (P.tells pages.old)
        → NodeStands (P.map pages.old) level reached.page reached.low reached.high reached.least × (entries_on (P.map pages.old) reached.page ≡ node.entries.items) }
    ensures none { result ≡ Ok None → IsTrue (P.tells pages.old)
        → NodeStands (P.map pages.old) level reached.page reached.low reached.high reached.least → ⊥ }
    ensures reads { OnlyChecks P.Pages pages.old pages.new result }
{
    match read_level::<SbNode, P>(pages, reached.page, level) {
        Ok(node) => {
            if is_in_place(node.entries.as_slice(), reached) {
                Ok(Some(node))
            } else {
                Ok(None)
            }
        }
        Err(PageFault::Damaged(_)) => Ok(None),
        Err(PageFault::Disk) => Err(CheckFault::Disk),
    }
}

// Whether the entries begin where their node is reached, end before it does, and are as many as it asks.
fn is_in_place(entries: &[SbEntry], reached: Reached) -> bool
    ensures { IsTrue result ↔ ((first_low entries.now reached.high ≡ reached.low) × All (λ e. e.low < reached.high) entries.now
        × (reached.least ≤ length entries.now)) }
{
    low_at(entries, 0, reached.high) == reached.low
        && entries.iter().all(|e| u64::from(e.low) < reached.high)
        && reached.least <= entries.len()
}

/// Where the entry at a place begins, or `high` where there is none.
pub(crate) fn low_at(entries: &[SbEntry], place: usize, high: u64) -> u64
    ensures { result ≡ first_low (drop place entries.now) high }
{
    match entries.get(place) {
        Some(entry) => u64::from(entry.low),
        None => high,
    }
}
