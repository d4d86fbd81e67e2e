//! A page's nodes, split at the first cut.
ghost use Rattle.std.specs.Prelude.{◌≡◌, ◌++◌, ◌≤◌, ◌∷◌, ℕ, None, IfSome, IsSome, IsTrue, length};
ghost use Rattle.cut_parts.specs.Parts.{Part, Split};
ghost use Rattle.cut_parts.specs.Spelling.{nodes_of};
ghost use Rattle.page_layout.specs.CutPage.{IsNodeTyped, cut_one, node_fits};
ghost use Rattle.page_layout.specs.declared.cut_page.CutNode.TheVariants.{Cut};
ghost use Rattle.bw_types.specs.declared.tree.Tree.{Tree};
ghost use Rattle.cut_parts.specs.Nodes.{AreNodes};

use crate::parts::{page_of, split_part};
use page_layout::{CutNode, CutPage};

/// The first cut, and the nodes of its sides.
#[derive(Debug, Drop)]
pub struct Sides {
    pub cut: CutNode,
    pub low: CutPage,
    pub high: CutPage,
}

/// The first cut of the nodes of a page, with its border, and the nodes of its two sides; none where they do not begin with a cut.
pub fn split_first_cut(page: &CutPage) -> Option<Sides>
    ensures split { (dimension key low : ℕ) (border : Tree) (low_side high_side : Part)
        → page.now.nodes.items ≡ nodes_of (Split None dimension key low border low_side high_side)
        → IfSome result (λ sides. (sides.cut ≡ Cut dimension key low border) × (sides.low.nodes.items ≡ nodes_of low_side) × (sides.high.nodes.items ≡ nodes_of high_side)) × IsSome result }
    // Of a page's nodes the sides are parts', and all of them are there.
    ensures nodes { AreNodes page.now.nodes.items → IfSome result (λ sides. AreNodes sides.low.nodes.items × AreNodes sides.high.nodes.items
        × IsTrue (node_fits sides.cut) × IsNodeTyped sides.cut × (cut_one sides.cut ≡ 1)) }
    ensures all { IfSome result (λ sides. page.now.nodes.items ≡ sides.cut ∷ (sides.low.nodes.items ++ sides.high.nodes.items)) }
    ensures cut { AreNodes page.now.nodes.items → 3 ≤ length page.now.nodes.items → IsSome result }
{
    let (first, rest) = page.nodes.as_slice().split_first()?;
    match first {
        CutNode::Entry { child: _ } => None,
        CutNode::Cut {
            dimension: _,
            key: _,
            low: _,
            border: _,
        } => {
            let (low, high) = split_part(rest);
            Some(Sides {
                cut: *first,
                low: page_of(low),
                high: page_of(high),
            })
        }
    }
}
