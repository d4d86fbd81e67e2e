//! What follows from the definitions of histories: a function here does nothing, and its contract is the law.
//!
//! A batch that a session staged and that has no refusal leaves a lawful history; whether a batch is lawful
//! can be asked of its adds and withdrawals one by one, or of the rows that stage them. And the lives of a
//! history tell which objects are live at each version, and which ids are live at its end.
//!
//! A history enters each life of an object into the trees where it was added, and once more with the opposite sign where it was
//! withdrawn. At each version these entries, each with its sign, add up to the answers of the history.
//!
//! The rows of an object table are lives with the event numbers and versions of their adds and withdrawals. Ordered by event number
//! and cut into batches by version they are the history that the table was made from, whatever the order of its rows.
#![tactic(auto)]

mod alone;
mod answers;
mod bounds;
mod entering;
mod growing;
mod lawful;
mod living;
mod telling;
pub mod worked;

pub use alone::lives_are_alone;
pub use answers::entries_give_answers;
pub use bounds::{answers_are_bounded, lawful_histories_have_room};
pub use entering::{entries_are_changes, entries_grow};
pub use growing::lives_grow_by_changes;
pub use lawful::{
    accepted_batches_are_lawful, histories_grow_by_lawful_batches, staging_changes_no_refusal,
};
pub use living::{last_lives_tell, lives_tell_live_objects};
pub use telling::{lives_name_changes, table_tells_history};
