//! The first part of some nodes.
ghost use Rattle.std.specs.Prelude.{◌≡◌, ◌+◌, ◌≤◌, ◌++◌, drop, length};
ghost use Rattle.cut_parts.specs.Damage.{after_parts};

use arrayvec::ArrayVec;
use page_layout::{CutNode, CutPage};

/// How many nodes the first part has; all, where they end before it does. It counts the places that are to be filled: at first
/// one, for the whole part.
pub fn part_length(nodes: &[CutNode]) -> usize
    ensures rest { drop result nodes.now ≡ after_parts 1 nodes.now }
    ensures few { result ≤ length nodes.now }
{
    let mut places: usize = 1;
    for (i, node) in nodes.iter().enumerate() {
        if places == 0 {
            return i;
        }
        match node {
            CutNode::Entry { child: _ } => places -= 1,
            CutNode::Cut {
                dimension: _,
                key: _,
                low: _,
                border: _,
            } => places += 1,
        }
    }
    nodes.len()
}

/// The nodes of the first part, and those after it.
pub(crate) fn split_part(nodes: &[CutNode]) -> (&[CutNode], &[CutNode])
    ensures whole { nodes.now ≡ result.0.now ++ result.1.now }
    ensures after { result.1.now ≡ after_parts 1 nodes.now }
{
    nodes.split_at(part_length(nodes))
}

/// The nodes after the first part: those of the high side, where these are the nodes of a cut's sides.
pub fn after_part(nodes: &[CutNode]) -> &[CutNode]
    ensures { result.now ≡ after_parts 1 nodes.now }
{
    let (_, after) = split_part(nodes);
    after
}

/// Puts copies of the nodes behind others.
pub(crate) fn append(nodes: &mut ArrayVec<CutNode, 129>, more: &[CutNode])
    requires { length nodes.old.items + length more.now ≤ 129 }
    ensures { nodes.new.items ≡ nodes.old.items ++ more.now }
{
    for node in more {
        nodes.push(*node);
    }
}

/// The nodes in a page of their own.
pub(crate) fn page_of(nodes: &[CutNode]) -> CutPage
    requires { length nodes.now ≤ 129 }
    ensures { result.nodes.items ≡ nodes.now }
{
    let mut copy = ArrayVec::new();
    append(&mut copy, nodes);
    CutPage { nodes: copy }
}
