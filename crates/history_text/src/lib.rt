//! A history as rows that rebuild it.
//!
//! [`write_history`] puts the rows of a history: read by a new warehouse with the same params they make the same history, as
//! [`rows_rebuild`] proves.
#![tactic(auto)]

mod gathering;
mod laws;
mod printing;
mod sizes;
mod writing;

pub use laws::rows_rebuild;
pub use writing::write_history;
