//! Whether events make a history.
ghost use Rattle.std.specs.Prelude.{◌≡◌, ◌≤◌, ◌↔◌, IsTrue};
ghost use Rattle.bw_types.specs.History.{History, last_version};
ghost use Rattle.page_warehouse.specs.Events.{AreEventsOf};
ghost use Rattle.page_warehouse.specs.Numbering.{AreNumbered};

use crate::event::Event;

/// Whether the events, in this order, are all adds and withdrawals of a history with this last version: whether they are numbered from
/// 0 on, each once and without a gap, and their versions, from 1 to the last, never fall.
pub fn make_history(events: &[Event], last: u32) -> bool
    ensures { IsTrue result ↔ ((h : History) × (AreEventsOf events.now h) × (last_version h ≡ last)) }
{
    are_numbered(events, last)
}

// Whether the event numbers are 0 and so on, and the versions from 1 on never fall and are at most the last.
fn are_numbered(events: &[Event], last: u32) -> bool
    ensures { IsTrue result ↔ AreNumbered last events.now }
{
    let mut version = 1;
    for index in 0..events.len() {
        let event = &events[index];
        if !goes_on(event, index, version, last) {
            return false;
        }
        version = event.version;
    }
    true
}

// Whether the event has this number, and a version from this one to the last.
fn goes_on(event: &Event, number: usize, version: u32, last: u32) -> bool
    ensures { IsTrue result ↔ ((event.now.event ≡ number) × (version ≤ event.now.version) × (event.now.version ≤ last)) }
{
    event.event as usize == number && version <= event.version && event.version <= last
}
