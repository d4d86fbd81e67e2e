//! Changes of a disk that a crash at any moment leaves whole or not at all.
//!
//! Page 0 of each area is a gate, which is open exactly where its first byte is 1. `create` writes
//! all else behind a closed creation gate and syncs it before it opens that gate in a write of its
//! own, so a crash at any moment leaves an empty disk or the whole new warehouse. `commit` does the
//! same with images of pages and the journal's gate, and then writes the images home: a disk whose
//! journal gate is open stands for its pages with the images of its journal in their places. `replay`
//! finishes a commit that was cut off.
#![tactic(auto)]

mod committing;
mod creation;
mod gate;
mod images;
mod in_order;
mod laws;
mod replaying;
mod writes;

pub use committing::commit;
pub use creation::create;
pub use gate::{Gate, ready};
pub use images::{Images, NoMemory};
pub use in_order::InOrder;
pub use laws::settling_laws;
pub use replaying::{JournalFault, replay};
