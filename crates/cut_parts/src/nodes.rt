//! The nodes of a page of cuts, walked where they stand.
ghost use Rattle.std.specs.Prelude.{◌≡◌, ◌+◌, ◌∷◌, ◌<◌, [], IfSome, List, length, drop};
ghost use Rattle.page_layout.specs.declared.cut_page.CutNode.{CutNode};
ghost use Rattle.cut_parts.specs.Damage.{after_parts};
ghost use Rattle.cut_parts.specs.Places.{IsPlace};

use page_layout::{CutNode, CutPage, CutStep, View};
use std::marker::Model;

/// Nodes of a page of cuts, from a place on, read where they stand.
///
/// In contracts these are the list of the nodes from that place on.
#[derive(Drop)]
pub struct Nodes<'a> {
    cuts: &'a View<'a, CutPage>,
    at: Place,
}

/// A place among the nodes of a page, and how many cuts stand before it. The borders stand behind the nodes, in the order of
/// their cuts.
#[derive(Clone, Copy)]
struct Place {
    place: usize,
    before: usize,
}

impl<'a> Model for Nodes<'a> {
    ghost Value = { List CutNode };

    ghost view = { λ n. drop n.at.place n.cuts.now.nodes.items };

    ghost invariant = { λ n. IsPlace n.cuts.now.nodes.items n.at.place n.at.before };
}

// The node at a place, and the place behind it.
#[inline]
fn node_at(cuts: &View<CutPage>, at: Place) -> (CutNode, Place)
    requires place { IsPlace cuts.now.nodes.items at.place at.before }
    requires within { at.place < length cuts.now.nodes.items }
    ensures node { drop at.place cuts.now.nodes.items ≡ result.0 ∷ drop result.1.place cuts.now.nodes.items }
    ensures place { IsPlace cuts.now.nodes.items result.1.place result.1.before }
    ensures next { result.1.place ≡ at.place + 1 }
{
    cuts.keeps_rules();
    let next = at.place + 1;
    match cuts.step(at.place) {
        CutStep::Leads { child } => (
            CutNode::Entry { child },
            Place {
                place: next,
                before: at.before,
            },
        ),
        CutStep::Parts {
            dimension,
            key,
            low,
        } => (
            CutNode::Cut {
                dimension,
                key,
                low,
                border: cuts.border(at.place, at.before),
            },
            Place {
                place: next,
                before: at.before + 1,
            },
        ),
    }
}

/// Makes the page's nodes those that the view shows, whatever they were.
pub(crate) fn fill(page: &mut CutPage, cuts: &View<CutPage>)
    ensures { page.new.nodes.items ≡ cuts.now.nodes.items }
{
    cuts.keeps_rules();
    page.nodes.clear();
    let mut before: usize = 0;
    for place in 0..cuts.node_count() {
        let (node, next) = node_at(cuts, Place { place, before });
        page.nodes.push(node);
        before = next.before;
    }
}

// The place behind the part whose nodes begin at a place. Borders are not read.
fn behind_part(cuts: &View<CutPage>, at: Place) -> Place
    requires { IsPlace cuts.now.nodes.items at.place at.before }
    ensures place { IsPlace cuts.now.nodes.items result.place result.before }
    ensures after { drop result.place cuts.now.nodes.items ≡ after_parts 1 (drop at.place cuts.now.nodes.items) }
{
    cuts.keeps_rules();
    let count = cuts.node_count();
    let mut parts: usize = 1;
    let mut place = at.place;
    let mut before = at.before;
    while parts > 0 && place < count {
        match cuts.step(place) {
            CutStep::Leads { child: _ } => parts -= 1,
            CutStep::Parts {
                dimension: _,
                key: _,
                low: _,
            } => {
                parts += 1;
                before += 1;
            }
        }
        place += 1;
    }
    Place { place, before }
}

impl<'a> Nodes<'a> {
    /// All nodes of the page.
    pub fn on(cuts: &'a View<'a, CutPage>) -> Nodes<'a>
        ensures { result ≡ cuts.now.nodes.items }
    {
        Nodes {
            cuts,
            at: Place {
                place: 0,
                before: 0,
            },
        }
    }

    /// The first node, and the others; none where there are none.
    pub fn split_first(&self) -> Option<(CutNode, Nodes<'a>)>
        ensures first { IfSome result (λ split. self.now ≡ split.0 ∷ split.1) }
        ensures none { result ≡ None → self.now ≡ [] }
    {
        if self.at.place >= self.cuts.node_count() {
            return None;
        }
        let (node, at) = node_at(self.cuts, self.at);
        Some((
            node,
            Nodes {
                cuts: self.cuts,
                at,
            },
        ))
    }

    /// The nodes after the first part.
    pub fn after_part(&self) -> Nodes<'a>
        ensures { result ≡ after_parts 1 self.now }
    {
        Nodes {
            cuts: self.cuts,
            at: behind_part(self.cuts, self.at),
        }
    }
}
