//! The adds and withdrawals that lives name, in order.
ghost use Rattle.std.specs.Prelude.{◌≡◌, ◌++◌, map, Ok, None, IfOk, IfSome, OnOk};
ghost use Rattle.bw_types.specs.History.{History};
ghost use Rattle.bw_types.specs.declared.params.Params.{Params};
ghost use Rattle.history_laws.specs.Told.{named_by};
ghost use Rattle.page_warehouse.specs.Events.{AreEventsOf, numbered_in};
ghost use Rattle.image_check.specs.Telling.{HasLives, IsToldBy};

use bw_types::Dated;
use history_laws::lives_name_changes;
use page_warehouse::{Event, make_history};
use std::alloc::{AllocError, Global};

/// The adds and withdrawals that these lives name, in order of their event numbers; or none where they are not those of
/// a history with this last version: where they are not numbered from 0 on, each once and without a gap, or their
/// versions fall, or are not from 1 to the last.
pub fn told_events(
    alloc: Global,
    lives: &[Dated],
    last: u32,
) -> Result<Option<Vec<Event>>, AllocError>
    ensures some { IfOk result (λ found. IfSome found (λ events. (h : History) × IsToldBy h lives.now last × AreEventsOf events.items h
        × ((other : History) → IsToldBy other lives.now last → other ≡ h))) }
    ensures none { result ≡ Ok None → (h : History) → IsToldBy h lives.now last → ⊥ }
    // The lives of a lawful history tell it.
    ensures lawful { IfOk result (λ found. IfSome found (λ events. (params : Params) (h : History) → HasLives params h lives.now last → AreEventsOf events.items h)) }
    ensures unlawful { result ≡ Ok None → (params : Params) (h : History) → HasLives params h lives.now last → ⊥ }
{
    lives_name_changes();
    let mut events = Vec::new(alloc);
    for dated in lives {
        push_named(&mut events, dated)?;
    }
    events.sort_unstable_by_key(|event| event.event);
    if !make_history(events.as_slice(), last) {
        return Ok(None);
    }
    Ok(Some(events))
}

// Puts the changes that a life names behind the others.
fn push_named(events: &mut Vec<Event>, dated: &Dated) -> Result<(), AllocError>
    ensures { OnOk result (map numbered_in events.new.items ≡ map numbered_in events.old.items ++ named_by dated.now) }
{
    events.push(Event {
        event: dated.add_event,
        version: dated.added,
        add: true,
        object: dated.object,
    })?;
    if dated.withdrawn != 0 {
        events.push(Event {
            event: dated.withdraw_event,
            version: dated.withdrawn,
            add: false,
            object: dated.object,
        })?;
    }
    Ok(())
}
