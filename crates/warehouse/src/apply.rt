//! A batch that may be committed is entered into the lives, the states of ids and the history, in place.
ghost use Rattle.std.specs.Prelude.{◌≡◌, ℕ, ◌+◌, ◌<◌, ◌≤◌, ◌==◌, true, List, [], ◌∷◌, ◌++◌, Some, is_some, length, vec_len, vec_capacity, slice_set, if◌then◌else◌};
ghost use Rattle.std.specs.List.{slice_get};
ghost use Rattle.std.specs.Ordering.{nat_cmp};
ghost use Rattle.std.specs.BTreeMap.{get};
ghost use Rattle.bw_types.specs.History.{History, changes, flat, flat_row};
ghost use Rattle.bw_types.specs.declared.change.Change.{Change as TheChange};
ghost use Rattle.warehouse.specs.declared.life.Life.{Life as TheLife};
ghost use Rattle.warehouse.specs.Events.{changes_of, have_lives, KeepsObjects};
ghost use Rattle.warehouse.specs.Kept.{state_in, Knows, KnowsAll, IsLedger, may_all_follow};

use crate::event::Event;
use crate::life::{Life, State};
use bw_types::{Object, Row};
use std::collections::BTreeMap;

/// Enters the rows of a batch as the ones of this version, and puts their changes last among the events.
/// The room and the ids are there already, so it takes no memory.
pub fn enter_all(
    lives: &mut Vec<Life>,
    states: &mut BTreeMap<u64, State>,
    events: &mut Vec<Event>,
    rows: &[Row],
    version: u32,
)
    requires room { vec_len lives.old + length rows.now ≤ vec_capacity lives.old }
    requires events_room { vec_len events.old + length (flat rows.now) ≤ vec_capacity events.old }
    requires known { KnowsAll states.old rows.now }
    requires version { 0 < version }
    ensures ledger { (h : History) → IsLedger h (changes h) version lives.old.items (state_in states.old) → may_all_follow (changes h) (flat rows.now) ≡ true
        → IsLedger h (changes h ++ flat rows.now) version lives.new.items (state_in states.new) }
    ensures objects { KeepsObjects lives.old.items lives.new.items }
    ensures events { have_lives lives.old.items events.old.items ≡ true
        → (changes_of lives.new.items events.new.items ≡ changes_of lives.old.items events.old.items ++ flat rows.now)
        × (have_lives lives.new.items events.new.items ≡ true) }
{
    for row in rows {
        enter(lives, states, events, row, version);
    }
}

fn enter(
    lives: &mut Vec<Life>,
    states: &mut BTreeMap<u64, State>,
    events: &mut Vec<Event>,
    row: &Row,
    version: u32,
)
    requires room { vec_len lives.old < vec_capacity lives.old }
    requires events_room { vec_len events.old + length (flat_row row.now) ≤ vec_capacity events.old }
    requires known { Knows states.old row.now }
    requires version { 0 < version }
    ensures ledger { (h : History) (cs : List TheChange) → IsLedger h cs version lives.old.items (state_in states.old) → may_all_follow cs (flat_row row.now) ≡ true
        → IsLedger h (cs ++ flat_row row.now) version lives.new.items (state_in states.new) }
    ensures capacity { vec_capacity lives.old ≤ vec_capacity lives.new }
    ensures len { vec_len lives.new ≤ vec_len lives.old + 1 }
    ensures known { (q : ℕ) → is_some (get nat_cmp states.old q) ≡ true → is_some (get nat_cmp states.new q) ≡ true }
    ensures objects { KeepsObjects lives.old.items lives.new.items }
    ensures events { changes_of lives.new.items events.new.items ≡ changes_of lives.new.items events.old.items ++ flat_row row.now }
    ensures named { have_lives lives.new.items events.old.items ≡ true → have_lives lives.new.items events.new.items ≡ true }
    ensures events_capacity { vec_capacity events.old ≤ vec_capacity events.new }
    ensures events_len { vec_len events.new ≤ vec_len events.old + length (flat_row row.now) }
{
    match row {
        Row::Add(object) => add(lives, states, events, object, version),
        Row::Withdraw(id) => withdraw(lives, states, events, *id, version),
        Row::Move(object) => {
            withdraw(lives, states, events, object.id, version);
            add(lives, states, events, object, version);
        }
    }
}

// Begins a life of an object whose id is in the map.
fn add(
    lives: &mut Vec<Life>,
    states: &mut BTreeMap<u64, State>,
    events: &mut Vec<Event>,
    object: &Object,
    version: u32,
)
    requires room { vec_len lives.old < vec_capacity lives.old }
    requires events_room { vec_len events.old < vec_capacity events.old }
    requires known { is_some (get nat_cmp states.old object.now.id) ≡ true }
    ensures lives { lives.new.items ≡ lives.old.items ++ record { object = object.now; added = version; ended = 0 } ∷ [] }
    ensures states { (q : ℕ) → get nat_cmp states.new q ≡ (if object.now.id == q then Some (State.Live (length lives.old.items)) else get nat_cmp states.old q) }
    ensures capacity { vec_capacity lives.old ≤ vec_capacity lives.new }
    ensures len { vec_len lives.new ≡ vec_len lives.old + 1 }
    ensures known { (q : ℕ) → is_some (get nat_cmp states.old q) ≡ true → is_some (get nat_cmp states.new q) ≡ true }
    ensures objects { KeepsObjects lives.old.items lives.new.items }
    ensures events { events.new.items ≡ events.old.items ++ Event.Add (length lives.old.items) ∷ [] }
    ensures events_capacity { vec_capacity events.old ≤ vec_capacity events.new }
    ensures events_len { vec_len events.new ≡ vec_len events.old + 1 }
{
    let place = lives.len();
    let _ = lives.push(Life {
        object: *object,
        added: version,
        ended: 0,
    });
    set_state(states, object.id, State::Live(place));
    let _ = events.push(Event::Add(place));
}

// Ends the life of a live id.
fn withdraw(
    lives: &mut Vec<Life>,
    states: &mut BTreeMap<u64, State>,
    events: &mut Vec<Event>,
    id: u64,
    version: u32,
)
    requires events_room { vec_len events.old < vec_capacity events.old }
    ensures lives { (place : ℕ) (l : TheLife) → state_in states.old id ≡ State.Live place → slice_get lives.old.items place ≡ Some l
        → lives.new.items ≡ slice_set lives.old.items place (record l { ended = version }) }
    ensures states { (place : ℕ) → state_in states.old id ≡ State.Live place
        → (q : ℕ) → get nat_cmp states.new q ≡ (if id == q then Some State.Withdrawn else get nat_cmp states.old q) }
    ensures capacity { vec_capacity lives.new ≡ vec_capacity lives.old }
    ensures len { vec_len lives.new ≡ vec_len lives.old }
    ensures known { (q : ℕ) → is_some (get nat_cmp states.old q) ≡ true → is_some (get nat_cmp states.new q) ≡ true }
    ensures objects { KeepsObjects lives.old.items lives.new.items }
    ensures events { events.new.items ≡ events.old.items ++ Event.Withdraw id ∷ [] }
    ensures events_capacity { vec_capacity events.old ≤ vec_capacity events.new }
    ensures events_len { vec_len events.new ≡ vec_len events.old + 1 }
{
    if let Some(State::Live(place)) = states.get(&id).copied() {
        end_life(lives, place, version);
        set_state(states, id, State::Withdrawn);
    }
    let _ = events.push(Event::Withdraw(id));
}

fn end_life(lives: &mut Vec<Life>, place: usize, version: u32)
    ensures lives { (l : TheLife) → slice_get lives.old.items place ≡ Some l → lives.new.items ≡ slice_set lives.old.items place (record l { ended = version }) }
    ensures capacity { vec_capacity lives.new ≡ vec_capacity lives.old }
    ensures len { vec_len lives.new ≡ vec_len lives.old }
    ensures objects { KeepsObjects lives.old.items lives.new.items }
{
    if place < lives.len() {
        let life = lives[place];
        lives[place] = Life {
            object: life.object,
            added: life.added,
            ended: version,
        };
    }
}

// Writes the state of an id that is in the map.
fn set_state(states: &mut BTreeMap<u64, State>, id: u64, state: State)
    requires { is_some (get nat_cmp states.old id) ≡ true }
    ensures { (q : ℕ) → get nat_cmp states.new q ≡ (if id == q then Some state else get nat_cmp states.old q) }
{
    let _ = states.insert(id, state);
}
