//! The sizes of the numbers of events, which the reader of their rows counts on.
//!
//! A number is known to be one of its type where it is read. So these functions read each number, and do nothing more.
ghost use Rattle.std.specs.List.{All};
ghost use Rattle.history_text.specs.Rebuilt.{HasSizes};

use bw_types::Object;
use page_warehouse::Event;

/// Shows that the numbers of the events have the sizes of their fields.
pub fn events_have_sizes(events: &[Event])
    ensures { All (λ event. HasSizes event.object) events.now }
{
    for event in events {
        object_has_sizes(&event.object);
    }
}

// Shows it of the numbers of an object.
fn object_has_sizes(object: &Object)
    ensures { HasSizes object.now }
{
    let _id = object.id;
    let _weight = object.weight;
    for coefficient in &object.coeffs {
        let _coefficient = *coefficient;
    }
}
