//! Trees over versions: a step function of the version, kept in pages.
//!
//! A tree stands for a list of weighted points: its value at a version is the sum of the weights of
//! the points at or below that version, modulo `2^128`. It is read down one path of nodes, so a value
//! costs as many pages as the tree has levels, and an addition makes at most one page more a level and
//! a new root. Every version stays readable. (Yang and Widom, "Incremental Computation and
//! Maintenance of Temporal Aggregates", 2001.)
//!
//! The calls work over any `Pages` and `Stage`, on any content: what they find broken they name.
#![tactic(auto)]

mod add;
mod edit;
mod entries;
mod free;
mod laws;
mod place;
mod second;
mod store;
mod value;
mod view;

pub use add::sb_add;
pub use free::sb_free;
pub use laws::tree_laws;
pub use value::sb_value;
