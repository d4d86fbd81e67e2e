//! The two sides of a cut, among the nodes of a page.
ghost use Rattle.std.specs.Prelude.{◌≡◌, ◌≤◌, ◌++◌, List, length};
ghost use Rattle.page_layout.specs.declared.cut_page.CutNode.{CutNode};
ghost use Rattle.cut_parts.specs.Borders.{HoldForTrees};
ghost use Rattle.cut_parts.specs.Damage.{after_parts};
ghost use Rattle.cut_parts.specs.Parts.{Part};
ghost use Rattle.cut_parts.specs.Spelling.{nodes_of};

use cut_parts::BorderTree;
use page_layout::CutNode;

/// The nodes after the first part: those of the high side, where these are the nodes of a cut's sides.
pub(crate) fn after_part(nodes: &[CutNode]) -> &[CutNode]
    ensures part { (part : Part) (rest : List CutNode) → nodes.now ≡ nodes_of part ++ rest → result.now ≡ rest }
    ensures after { result.now ≡ after_parts 1 nodes.now }
    ensures fewer { length result.now ≤ length nodes.now }
{
    let Some((first, rest)) = nodes.split_first() else {
        return nodes;
    };
    match first {
        CutNode::Entry { child: _ } => rest,
        CutNode::Cut {
            dimension: _,
            key: _,
            low: _,
            border: _,
        } => after_part(after_part(rest)),
    }
}

/// The laws of borders; it does nothing when it runs.
pub(crate) fn laws_of_borders<B: BorderTree>()
    ensures { HoldForTrees B.stands B.footprint B.balanced B.cost B.growth B.share }
{
    B::border_laws();
}
