//! The committed map of pages on a disk, and the stage on which it is changed.
//!
//! A `Space` reads the pages that are in use through a cache. A `Staged` stands on a space, keeps the
//! image of each page that is changed, and either commits all of them through the journal, so that a
//! crash at any moment leaves the old map or the new one, or gives the space back as it was.
#![tactic(auto)]

mod committing;
mod copying;
mod free_pages;
mod laws;
mod opening;
mod refusal;
mod settling;
mod space;
mod stage;
mod staged;

pub use laws::{chain_is_free, created_holds, held_opens, holds_one};
pub use refusal::{OpenFault, OpenRefused};
pub use space::Space;
pub use staged::Staged;
