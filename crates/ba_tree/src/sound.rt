//! The nodes at a place of a page.
ghost use Rattle.std.specs.Prelude.{◌≡◌, ◌+◌, ◌-◌, ◌≤◌, ◌<◌, ◌++◌, None, List, length, drop, get_or, IfSome, IsTrue};
ghost use Rattle.page_layout.specs.CutPage.{IsNodeTyped, node_fits};
ghost use Rattle.page_layout.specs.declared.cut_page.CutNode.{CutNode};
ghost use Rattle.cut_parts.specs.Damage.{after_parts};
ghost use Rattle.cut_parts.specs.Parts.{Part};
ghost use Rattle.cut_parts.specs.Reach.{first_entry};
ghost use Rattle.cut_parts.specs.Spelling.{first_page, nodes_of};
ghost use Rattle.cut_parts.specs.Nodes.{AreNodes};

use cut_parts::part_length;
use page_layout::{CutNode, CutPage};

/// The node at a place.
pub(crate) fn node_at(cuts: &CutPage, place: usize) -> Option<CutNode>
    ensures node { IfSome result (λ node. (place < length cuts.now.nodes.items) × ((d : CutNode) → node ≡ get_or cuts.now.nodes.items place d)) }
    ensures fits { AreNodes cuts.now.nodes.items → IfSome result (λ node. IsTrue (node_fits node) × IsNodeTyped node) }
    ensures none { result ≡ None → length cuts.now.nodes.items ≤ place }
{
    match cuts.nodes.as_slice().get(place) {
        Some(node) => Some(*node),
        None => None,
    }
}

/// The page of the entry at a place, where one is there.
pub(crate) fn entry_at(cuts: &CutPage, place: usize) -> Option<u64>
    ensures page { (part : Part) (front rest : List CutNode) → cuts.now.nodes.items ≡ front ++ (nodes_of part ++ rest) → place ≡ length front → result ≡ first_page part }
    ensures entry { result ≡ first_entry (drop place cuts.now.nodes.items) }
{
    match cuts.nodes.as_slice().get(place) {
        Some(CutNode::Entry { child }) => Some(*child),
        _ => None,
    }
}

/// Where the nodes of the high side of the cut at a place begin.
pub(crate) fn high_place(cuts: &CutPage, place: usize) -> usize
    requires { place < length cuts.now.nodes.items }
    ensures place { result ≡ length cuts.now.nodes.items - length (after_parts 1 (drop (place + 1) cuts.now.nodes.items)) }
    ensures rest { drop result cuts.now.nodes.items ≡ after_parts 1 (drop (place + 1) cuts.now.nodes.items) }
{
    let sides = &cuts.nodes.as_slice()[place + 1..];
    place + 1 + part_length(sides)
}
