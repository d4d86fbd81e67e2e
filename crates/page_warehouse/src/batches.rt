//! The events of a history, cut into batches, and those of a batch into rows.
ghost use Rattle.std.specs.Prelude.{◌≡◌, ◌∷◌, ◌<◌, ◌≤◌, length, map, drop};
ghost use Rattle.bw_types.specs.Lawful.{staged_rows};
ghost use Rattle.page_warehouse.specs.Batches.{count_of};
ghost use Rattle.page_warehouse.specs.Events.{change_in};

use crate::event::Event;
use bw_types::Row;

/// How many events from the first on are of this version.
pub fn count_of(version: u32, events: &[Event]) -> usize
    ensures count { result ≡ count_of version events.now }
    ensures within { result ≤ length events.now }
{
    events
        .iter()
        .take_while(|event| event.version == version)
        .count()
}

/// The row that stages the first event of a batch, and how many events it has: a withdrawal and an add of its id
/// directly behind it are a move.
pub fn first_row(events: &[Event]) -> (Row, usize)
    requires { 0 < length events.now }
    ensures row { staged_rows (map change_in events.now) ≡ result.0 ∷ staged_rows (map change_in (drop result.1 events.now)) }
    ensures some { 0 < result.1 }
    ensures few { result.1 ≤ 2 }
    ensures within { result.1 ≤ length events.now }
{
    let first = &events[0];
    if first.add {
        return (Row::Add(first.object), 1);
    }
    match events.get(1) {
        Some(next) if next.add && next.object.id == first.object.id => (Row::Move(next.object), 2),
        _ => (Row::Withdraw(first.object.id), 1),
    }
}
