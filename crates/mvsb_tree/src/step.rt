//! The step from a node to its child on the way of a key.
ghost use Rattle.std.specs.Prelude.{◌≡◌, ◌≤◌, ℕ, IsTrue, IfSome, Some, None};
ghost use Rattle.page_layout.specs.MvNode.{IsMvNode};
ghost use Rattle.mv_pages.specs.Alive.{child_of};
ghost use Rattle.mv_pages.specs.Lows.{alive_lows, low_at};
ghost use Rattle.mvsb_tree.specs.Damage.{LeadsTo};
ghost use Rattle.mvsb_tree.specs.Stands.{ends_after};

use crate::place::{Place, inner_place};
use mv_pages::{path_laws, reached_at};
use page_layout::MvNode;

/// A child of an index node, and the place by which it is reached.
#[derive(Clone, Copy)]
pub struct Step {
    pub child: u64,
    pub place: Place,
}

/// The step on from a node in a place, if it leads on.
pub fn step_from(node: &MvNode, place: Place) -> Option<Step>
    requires rules { IsMvNode node.now }
    requires key { (place.low ≤ place.key) × IsTrue (ends_after place.high place.key) }
    ensures none { result ≡ None → child_of node.now place.key place.version ≡ None }
    ensures leads { IfSome result (λ step. LeadsTo place node.now step.child step.place) }
    ensures low { IfSome result (λ step. low_at (alive_lows node.now.entries.items place.version) place.key ≡ Some step.place.low) }
    ensures number { IfSome result (λ step. 3 ≤ step.child) }
    ensures level { IfSome result (λ step. 2 ≤ node.now.level) }
    ensures key { IfSome result (λ step. (step.place.low ≤ step.place.key) × IsTrue (ends_after step.place.high step.place.key)) }
    // Keys of the same low lead to the same child.
    ensures same { (q : ℕ) → low_at (alive_lows node.now.entries.items place.version) q ≡ low_at (alive_lows node.now.entries.items place.version) place.key
        → child_of node.now q place.version ≡ child_of node.now place.key place.version }
{
    path_laws();
    let Some(reached) = reached_at(node, place.key, place.version) else {
        return None;
    };
    Some(Step {
        child: reached.child,
        place: inner_place(reached, place),
    })
}
