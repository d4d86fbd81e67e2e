//! Nodes of a page changed in memory.
ghost use Rattle.std.specs.Prelude.{◌≡◌, ◌<◌, ◌≤◌, ◌++◌, ◌∷◌, length, get_or, take, drop, slice_set, insert, IsTrue};
ghost use Rattle.page_layout.specs.CutPage.{IsNodeTyped, cut_one, node_fits};
ghost use Rattle.page_layout.specs.declared.cut_page.CutNode.{CutNode};
ghost use Rattle.page_layout.specs.declared.cut_page.CutNode.TheVariants.{Entry};
ghost use Rattle.cut_parts.specs.Damage.{after_parts};
ghost use Rattle.cut_parts.specs.Nodes.{AreNodes};

use crate::parts::{append, page_of, split_part};
use page_layout::{CutNode, CutPage};

// Puts another node in the place of a node.
fn set_node(page: &mut CutPage, place: usize, node: CutNode)
    requires { place < length page.old.nodes.items }
    ensures { page.new.nodes.items ≡ slice_set page.old.nodes.items place node }
{
    if let Some(held) = page.nodes.get_mut(place) {
        *held = node;
    }
}

/// Puts another cut in the place of a cut.
pub fn set_cut(page: &mut CutPage, place: usize, cut: CutNode)
    requires { place < length page.old.nodes.items }
    ensures set { page.new.nodes.items ≡ slice_set page.old.nodes.items place cut }
    // Other nodes stay a page's where both are cuts.
    ensures nodes { AreNodes page.old.nodes.items → ((d : CutNode) → cut_one (get_or page.old.nodes.items place d) ≡ 1) → cut_one cut ≡ 1
        → IsTrue (node_fits cut) → IsNodeTyped cut → AreNodes page.new.nodes.items }
{
    set_node(page, place, cut);
}

/// Puts a cut and the entries of its two sides, whose pages are `low` and `high`, in the place of an entry.
pub fn replace_by_cut(page: &mut CutPage, place: usize, cut: CutNode, low: u64, high: u64)
    requires place { place < length page.old.nodes.items }
    requires room { length page.old.nodes.items ≤ 127 }
    ensures set { page.new.nodes.items ≡ insert (insert (slice_set page.old.nodes.items place (Entry high)) place (Entry low)) place cut }
    ensures nodes { AreNodes page.old.nodes.items → ((d : CutNode) → cut_one (get_or page.old.nodes.items place d) ≡ 0) → cut_one cut ≡ 1
        → IsTrue (node_fits cut) → IsNodeTyped cut → 3 ≤ low → 3 ≤ high → AreNodes page.new.nodes.items }
{
    set_node(page, place, CutNode::Entry { child: high });
    page.nodes.insert(place, CutNode::Entry { child: low });
    page.nodes.insert(place, cut);
}

/// Puts the entry of a page in the place of the nodes of the part that begins there.
pub fn replace_part(page: &mut CutPage, place: usize, child: u64)
    requires { place < length page.old.nodes.items }
    ensures set { page.new.nodes.items ≡ take place page.old.nodes.items ++ (Entry child ∷ after_parts 1 (drop place page.old.nodes.items)) }
    ensures nodes { AreNodes page.old.nodes.items → 3 ≤ child → AreNodes page.new.nodes.items }
{
    let (front, tail) = page.nodes.as_slice().split_at(place);
    let (_, after) = split_part(tail);
    let mut changed = page_of(front);
    changed.nodes.push(CutNode::Entry { child });
    append(&mut changed.nodes, after);
    *page = changed;
}
