//! What the lives of a table tell.
ghost use Rattle.std.specs.Prelude.{◌≡◌, ◌^◌, ◌≤◌, Ok, nat_abs, true, false};
ghost use Rattle.std.specs.List.{All};
ghost use Rattle.bw_types.specs.Fits.{IsInRange};
ghost use Rattle.bw_types.specs.History.{History, last_version};
ghost use Rattle.bw_types.specs.Lawful.{IsLawful};
ghost use Rattle.page_warehouse.specs.Events.{AreEventsOf};
ghost use Rattle.image_check.specs.Judging.{IsKept};
ghost use Rattle.image_check.specs.Telling.{IsToldBy};

use crate::lawful::is_lawful;
use crate::lives::are_lives;
use crate::numbers::numbers_hold;
use crate::telling::told_events;
use bw_types::{Dated, Params};
use history_laws::lawful_histories_have_room;
use page_layout::Meta;
use page_warehouse::Event;
use std::alloc::{AllocError, Global};

/// What the lives of a table are found to tell.
#[derive(Clone, Copy, PartialEq, Eq, Debug)]
pub enum Told {
    /// No history that has the last version of the meta page.
    Nothing,
    /// A history that is not lawful, or has other lives, or of which the meta page does not tell.
    Unlawful,
    /// The lawful history of which the meta page tells, and which has these lives.
    Lawful,
}

/// What the lives of a table, in any order, tell beside the meta page.
///
/// It takes memory for the events and for a warehouse that holds the history.
pub fn judge(
    alloc: Global,
    params: &Params,
    meta: &Meta,
    lives: &[Dated],
) -> Result<Told, AllocError>
    requires { IsInRange params.now }
    ensures lawful { result ≡ Ok Told.Lawful → (h : History) × IsKept params.now meta.now lives.now h }
    ensures unlawful { result ≡ Ok Told.Unlawful → (h : History) × IsToldBy h lives.now meta.now.version }
    ensures unkept { result ≡ Ok Told.Unlawful → (h : History) → IsKept params.now meta.now lives.now h → ⊥ }
    ensures nothing { result ≡ Ok Told.Nothing → (h : History) → IsToldBy h lives.now meta.now.version → ⊥ }
    ensures untold { result ≡ Ok Told.Nothing → (h : History) → IsKept params.now meta.now lives.now h → ⊥ }
{
    let Some(events) = told_events(alloc, lives, meta.version)? else {
        return Ok(Told::Nothing);
    };
    if is_kept(alloc, params, meta, lives, events.as_slice())? {
        Ok(Told::Lawful)
    } else {
        Ok(Told::Unlawful)
    }
}

// Whether the history whose events these are is lawful, has these lives, and is the one of which the meta page tells.
fn is_kept(
    alloc: Global,
    params: &Params,
    meta: &Meta,
    lives: &[Dated],
    events: &[Event],
) -> Result<bool, AllocError>
    requires range { IsInRange params.now }
    requires told { (h : History) × (AreEventsOf events.now h) × (last_version h ≡ meta.now.version) }
    ensures yes { result ≡ Ok true → (h : History) → AreEventsOf events.now h → last_version h ≡ meta.now.version → IsKept params.now meta.now lives.now h }
    ensures no { result ≡ Ok false → (h : History) → AreEventsOf events.now h → last_version h ≡ meta.now.version → IsKept params.now meta.now lives.now h → ⊥ }
{
    weights_are_small(events);
    if !is_lawful(alloc, params, events, meta.version)? {
        return Ok(false);
    }
    if !numbers_hold(params, meta, events) {
        return Ok(false);
    }
    lawful_histories_have_room();
    are_lives(alloc, lives, events)
}

// Proves that the weights of the objects have 64 bits; it does nothing when it runs.
fn weights_are_small(events: &[Event])
    ensures { All (λ e. nat_abs e.object.weight ≤ 2 ^ 63) events.now }
{
    for event in events {
        weight_is_small(event);
    }
}

fn weight_is_small(event: &Event)
    ensures { nat_abs event.now.object.weight ≤ 2 ^ 63 }
{
    is_small(event.object.weight);
}

// Proves that a weight has 64 bits; it does nothing when it runs.
fn is_small(weight: i64)
    ensures { nat_abs weight ≤ 2 ^ 63 }
{}
