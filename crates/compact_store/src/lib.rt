//! A warehouse without what was withdrawn before one of its versions.
//!
//! [`compact`] writes the history of a warehouse from a version on to a second disk. [`kept_laws`] proves that from that version on it
//! answers alike.
#![tactic(auto)]

mod compacting;
mod filling;
mod keeping;
mod laws;
mod putting;
mod staging;

pub use compacting::{Compacted, compact};
pub use laws::kept_laws;
