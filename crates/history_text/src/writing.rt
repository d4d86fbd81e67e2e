//! The rows of a history, put one after the other.
ghost use Rattle.std.specs.Prelude.{◌≡◌, ◌++◌, IsTrue, OnOk, OnErr, map};
ghost use Rattle.std.specs.List.{All};
ghost use Rattle.ports.specs.Written.{WritesPart};
ghost use Rattle.ports.specs.Count.{Rose};
ghost use Rattle.bw_types.specs.Fits.{IsInRange};
ghost use Rattle.bw_types.specs.History.{History, changes, last_version};
ghost use Rattle.page_warehouse.specs.Batches.{batches_from};
ghost use Rattle.page_warehouse.specs.Events.{AreEventsOf, change_in};
ghost use Rattle.history_text.specs.Given.{Gives, standing};
ghost use Rattle.history_text.specs.Rebuilt.{ChangeHasSizes};
ghost use Rattle.history_text.specs.Rows.{batch_text, rows_of};

use crate::gathering::{Room, put_gathered, put_piece};
use crate::printing::put_row;
use crate::sizes::events_have_sizes;
use bw_types::Params;
use page_warehouse::{Event, count_of, first_row};
use ports::{Failed, Sink};

/// Puts the rows that rebuild a history, whose adds and withdrawals these events are, up to the last version.
///
/// Each batch is the rows of session 1 that staged it, in their order, and then its commit; a withdrawal that is directly
/// followed by an add of its id is a move. It takes no memory. `Failed` comes only where the sink's faults rose, and then a
/// front of the rows was put.
pub fn write_history<K: Sink>(
    params: &Params,
    events: &[Event],
    last: u32,
    sink: &mut K,
) -> Result<(), Failed>
    requires { IsInRange params.now }
    ensures wrote { OnOk result ((h : History) → AreEventsOf events.now h → last ≡ last_version h → IsTrue (K.tells sink.old)
        → IsTrue (K.tells sink.new) × (K.written sink.new ≡ K.written sink.old ++ rows_of params.now h)) }
    ensures part { OnErr result ((h : History) → AreEventsOf events.now h → last ≡ last_version h → IsTrue (K.tells sink.old) → IsTrue (K.tells sink.new)
        → WritesPart (K.written sink.old) (K.written sink.new) (rows_of params.now h)) }
    ensures calm { OnOk result (K.faults sink.new ≡ K.faults sink.old) }
    ensures failed { OnErr result (Rose (K.faults sink.old) (K.faults sink.new)) }
    // The numbers of events have the sizes of their fields.
    ensures sizes { (h : History) → AreEventsOf events.now h → All ChangeHasSizes (changes h) }
{
    events_have_sizes(events);
    let mut room = Room::new();
    put_batches(params, events, last, sink, &mut room)?;
    put_gathered(sink, &mut room)?;
    Ok(())
}

// Puts the batches of the versions from 1 to the last, each of the events that follow those of the batch before it.
fn put_batches<K: Sink>(
    params: &Params,
    events: &[Event],
    last: u32,
    sink: &mut K,
    room: &mut Room,
) -> Result<(), Failed>
    requires { IsInRange params.now }
    ensures { Gives result
        (standing (K.tells sink.old) (K.written sink.old) (K.faults sink.old) room.old.items)
        (standing (K.tells sink.new) (K.written sink.new) (K.faults sink.new) room.new.items)
        (rows_of params.now (batches_from 1 last events.now)) }
{
    let mut later = events;
    for before in 0..last {
        let count = count_of(before + 1, later);
        let (batch, rest) = later.split_at(count);
        put_batch(params, batch, sink, room)?;
        later = rest;
    }
    Ok(())
}

// Puts the rows of the events of a batch, and the commit.
fn put_batch<K: Sink>(
    params: &Params,
    events: &[Event],
    sink: &mut K,
    room: &mut Room,
) -> Result<(), Failed>
    requires { IsInRange params.now }
    ensures { Gives result
        (standing (K.tells sink.old) (K.written sink.old) (K.faults sink.old) room.old.items)
        (standing (K.tells sink.new) (K.written sink.new) (K.faults sink.new) room.new.items)
        (batch_text params.now (map change_in events.now)) }
{
    let mut later = events;
    while !later.is_empty() {
        let (row, count) = first_row(later);
        put_row(params, &row, sink, room)?;
        later = &later[count..];
    }
    put_piece(b"commit,1\n", sink, room)
}
