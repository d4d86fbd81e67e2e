//! The numbers of the meta page.
ghost use Rattle.std.specs.Prelude.{◌≡◌, ◌+◌, ◌^◌, ◌<◌, ◌↔◌, true, map, None, IsTrue, IfSome};
ghost use Rattle.std.specs.List.{list_all};
ghost use Rattle.bw_types.specs.Fits.{IsInRange, object_fits as spec_fits};
ghost use Rattle.bw_types.specs.History.{History, last_version};
ghost use Rattle.bw_types.specs.Lawful.{IsLawful};
ghost use Rattle.bw_types.specs.Mass.{mass as spec_mass, mass_limit};
ghost use Rattle.bw_types.specs.Refusals.{added_mass, total_mass};
ghost use Rattle.page_warehouse.specs.Events.{AreEventsOf, change_in};
ghost use Rattle.page_warehouse.specs.Holds.{TellsOf};
ghost use Rattle.image_check.specs.Fitting.{change_fits};

use bw_types::{Object, Params, object_fits};
use corner_weights::mass;
use history_laws::lawful_histories_have_room;
use page_layout::Meta;
use page_warehouse::Event;

/// Whether the numbers of the meta page are those of the lawful history whose events these are, in order, up to the
/// version that the page tells: its events, its adds and withdrawals, and the mass of all objects that were added.
pub fn numbers_hold(params: &Params, meta: &Meta, events: &[Event]) -> bool
    requires { IsInRange params.now }
    ensures { (h : History) → AreEventsOf events.now h → last_version h ≡ meta.now.version → IsLawful params.now h
        → IsTrue result ↔ TellsOf params.now meta.now h }
{
    lawful_histories_have_room();
    let count = events.len();
    if meta.rows as usize != count {
        return false;
    }
    if meta.events as usize != count + meta.version as usize {
        return false;
    }
    match mass_in(params, events) {
        Some(total) => total == meta.mass,
        None => false,
    }
}

// The mass of all objects that the events add, or `None` where one of them does not fit, or it is too much.
fn mass_in(params: &Params, events: &[Event]) -> Option<u128>
    requires { IsInRange params.now }
    ensures some { IfSome result (λ total. total ≡ total_mass params.now (map change_in events.now)) }
    ensures none { result ≡ None → list_all (change_fits params.now) (map change_in events.now) ≡ true
        → total_mass params.now (map change_in events.now) < mass_limit → ⊥ }
{
    let mut total = 0;
    for event in events {
        total = with_mass(total, params, event)?;
    }
    Some(total)
}

// The mass with that of the object that the event adds, or `None` where that does not fit, or it is too much.
fn with_mass(total: u128, params: &Params, event: &Event) -> Option<u128>
    requires range { IsInRange params.now }
    requires low { total < 2 ^ 126 }
    ensures some { IfSome result (λ now. now ≡ total + added_mass params.now (change_in event.now)) }
    ensures low { IfSome result (λ now. now < 2 ^ 126) }
    ensures none { result ≡ None → change_fits params.now (change_in event.now) ≡ true
        → total + added_mass params.now (change_in event.now) < mass_limit → ⊥ }
{
    if !event.add {
        return Some(total);
    }
    let now = total + fitting_mass(params, &event.object)?;
    if now < Params::MASS_LIMIT {
        Some(now)
    } else {
        None
    }
}

// The mass of the object, or `None` where it does not fit, or is too much.
fn fitting_mass(params: &Params, object: &Object) -> Option<u128>
    requires { IsInRange params.now }
    ensures some { IfSome result (λ own. (own ≡ spec_mass params.now object.now) × (own < 2 ^ 126)) }
    ensures none { result ≡ None → spec_fits params.now object.now ≡ true → spec_mass params.now object.now < mass_limit → ⊥ }
{
    if !object_fits(object, params) {
        return None;
    }
    mass(object, params)
}
