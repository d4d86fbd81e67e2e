//! What a node tells where it stands.
ghost use Rattle.std.specs.Prelude.{◌≡◌, IfSome, None};
ghost use Rattle.mvsb_tree.specs.Damage.{IsInPlace};
ghost use Rattle.mvsb_tree.specs.Telling.{TellsOf};

use crate::place::{Place, all_begin_within, inner_place};
use crate::step::Step;
use mv_pages::said_on;
use page_layout::{MvNode, View};

/// What a node tells at a key and a version: its own value there, and the step on to its child, if it
/// leads on.
#[derive(Clone, Copy)]
pub struct Told {
    pub value: u128,
    pub step: Option<Step>,
}

/// What a node tells in a place, or `None` exactly where it does not keep to the place.
pub fn told_on(view: &View<MvNode>, place: Place) -> Option<Told>
    ensures none { result ≡ None → IsInPlace view.now.level place view.now → ⊥ }
    ensures fits { IfSome result (λ told. IsInPlace view.now.level place view.now) }
    ensures told { IfSome result (λ told. TellsOf view.now place told) }
{
    if !all_begin_within(view, place) {
        return None;
    }
    let said = said_on(view, place.key, place.version);
    let Some(reached) = said.reached else {
        // A leaf leads nowhere; an index node has to lead on.
        if view.level() != 1 {
            return None;
        }
        return Some(Told {
            value: said.value,
            step: None,
        });
    };
    Some(Told {
        value: said.value,
        step: Some(Step {
            child: reached.child,
            place: inner_place(reached, place),
        }),
    })
}
