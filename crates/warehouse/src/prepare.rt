//! Before a batch is entered all memory is taken that this needs; what the warehouse means stays.
ghost use Rattle.std.specs.Prelude.{◌≡◌, ℕ, ◌+◌, ◌^◌, ◌<◌, ◌≤◌, true, is_some, length, vec_len, vec_capacity, OnOk};
ghost use Rattle.std.specs.Ordering.{nat_cmp};
ghost use Rattle.std.specs.BTreeMap.{get};
ghost use Rattle.bw_types.specs.History.{flat, flat_row};
ghost use Rattle.warehouse.specs.Kept.{state_in, KnowsAll};

use crate::event::Event;
use crate::life::{Life, State};
use bw_types::Row;
use std::alloc::AllocError;
use std::collections::BTreeMap;

/// How many changes the rows are in a history: a move is two of them.
pub fn change_count(rows: &[Row]) -> usize
    requires { length (flat rows.now) < 2 ^ 32 }
    ensures { result ≡ length (flat rows.now) }
{
    let mut count = 0;
    for row in rows {
        count += changes_in(row);
    }
    count
}

fn changes_in(row: &Row) -> usize
    ensures { result ≡ length (flat_row row.now) }
{
    match row {
        Row::Add(_) | Row::Withdraw(_) => 1,
        Row::Move(_) => 2,
    }
}

/// Makes room for one batch more, for a life for each of its rows, and for the id of each object that it
/// adds.
pub fn prepare(
    batches: &mut Vec<Vec<Event>>,
    lives: &mut Vec<Life>,
    states: &mut BTreeMap<u64, State>,
    rows: &[Row],
) -> Result<(), AllocError>
    ensures batches { batches.new.items ≡ batches.old.items }
    ensures lives { lives.new.items ≡ lives.old.items }
    ensures states { (q : ℕ) → state_in states.new q ≡ state_in states.old q }
    ensures batches_room { OnOk result (vec_len batches.new < vec_capacity batches.new) }
    ensures lives_room { OnOk result (vec_len lives.new + length rows.now ≤ vec_capacity lives.new) }
    ensures known { OnOk result (KnowsAll states.new rows.now) }
{
    batches.reserve(1)?;
    lives.reserve(rows.len())?;
    name_added(states, rows)
}

fn name_added(states: &mut BTreeMap<u64, State>, rows: &[Row]) -> Result<(), AllocError>
    ensures states { (q : ℕ) → state_in states.new q ≡ state_in states.old q }
    ensures known { OnOk result (KnowsAll states.new rows.now) }
{
    for row in rows {
        if let Row::Add(object) | Row::Move(object) = row {
            name(states, object.id)?;
        }
    }
    Ok(())
}

// Puts an id into the map that it lacks, as one that was never added.
fn name(states: &mut BTreeMap<u64, State>, id: u64) -> Result<(), AllocError>
    ensures states { (q : ℕ) → state_in states.new q ≡ state_in states.old q }
    ensures kept { (q : ℕ) → is_some (get nat_cmp states.old q) ≡ true → is_some (get nat_cmp states.new q) ≡ true }
    ensures known { OnOk result (is_some (get nat_cmp states.new id) ≡ true) }
{
    if !states.contains_key(&id) {
        states.insert(id, State::Never)?;
    }
    Ok(())
}
