//! The node at the head of a piece.
ghost use Rattle.std.specs.Prelude.{◌≡◌, ◌^◌, ◌<◌, ◌≤◌, Ok, Some, None, IsTrue};
ghost use Rattle.std.specs.List.Sorted.{IsNonDecreasing};
ghost use Rattle.ports.specs.Frame.{names_page};
ghost use Rattle.page_layout.specs.declared.mv_node.MvNode.{MvNode};
ghost use Rattle.mvsb_tree.specs.Steps.{node_on};
ghost use Rattle.key_check.specs.Cells.{NodeStandsThroughout};
ghost use Rattle.key_check.specs.Pieces.{StandsThroughout};
ghost use Rattle.page_checks.specs.Reads.{OnlyChecks};

use crate::chain::mv_node_at;
use crate::piece::Piece;
use crate::throughout::stands_throughout;
use page_checks::CheckFault;
use page_layout::MvNode;
use ports::Pages;

/// The node that the piece's page spells, where it is one of these, is of this level, and stands at each of the piece's versions.
pub(crate) fn node_of<P: Pages>(
    pages: &mut P,
    nodes: &[u64],
    piece: Piece,
    level: u8,
    lows: &mut Vec<u64>,
) -> Result<Option<MvNode>, CheckFault>
    requires order { IsNonDecreasing nodes.now }
    requires versions { piece.from < piece.to }
    ensures some { (node : MvNode) → result ≡ Ok (Some node) → IsTrue (P.tells pages.old)
        → NodeStandsThroughout level (P.map pages.old) nodes.now piece × (node_on (P.map pages.old) piece.page ≡ node) }
    ensures cut { (node : MvNode) → result ≡ Ok (Some node) → StandsThroughout node.entries.items piece }
    ensures none { result ≡ Ok None → IsTrue (P.tells pages.old) → NodeStandsThroughout level (P.map pages.old) nodes.now piece → ⊥ }
    ensures typed { piece.low < 2 ^ 64 }
    ensures reads { OnlyChecks P.Pages pages.old pages.new result }
{
    if !is_listed(nodes, piece.page) {
        return Ok(None);
    }
    let Some(node) = mv_node_at(pages, piece.page)? else {
        return Ok(None);
    };
    if node.level != level {
        return Ok(None);
    }
    if !stands_throughout(lows, node.entries.as_slice(), piece)? {
        return Ok(None);
    }
    Ok(Some(node))
}

// Whether the page is one of these.
fn is_listed(nodes: &[u64], page: u64) -> bool
    requires { IsNonDecreasing nodes.now }
    ensures { result ≡ names_page nodes.now page }
{
    nodes.binary_search(&page).is_ok()
}
