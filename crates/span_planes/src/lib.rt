//! Spans: the sum of the answers of all versions from one to another.
//!
//! An object counts in each version from the one that added it to the one before it was withdrawn. So the sum of the answers up to a version
//! is that version's answer as many times as there are versions, less the weights of the objects times the versions from which they count.
//! [`Spans`] keeps both in trees of its own, on a disk of its own, and a span is the difference of two such sums.
#![tactic(auto)]

mod asked;
mod asking;
mod creating;
mod desk;
mod filling;
mod laws;
mod looking;
mod making;
mod opening;
mod readying;
mod rows;
mod spans;
mod writing;

pub use asked::SpanRow;
pub use creating::{new_spans_hold, no_version_holds_nothing};
pub use desk::SpanDesk;
pub use laws::{spans_are_differences, spans_are_held_by_pages};
pub use making::{Derived, derive};
pub use rows::read_span;
pub use spans::Spans;
