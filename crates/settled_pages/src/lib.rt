//! The pages that a disk stands for, read through its journal while nothing is written.
//!
//! A warehouse stands for the pages of its Pages area, and where the journal's gate is open for these
//! with the journal's images in their places. An opening writes those images home. `SettledPages` keeps
//! in memory where each of them stands instead, so that a disk can be looked at without a write or a
//! sync. `SettledSpace` reads the pages in use of the space that such pages are.
#![tactic(auto)]

mod fault;
mod free_pages;
mod gates;
mod heads;
mod places;
mod reading;
mod roots;
mod settled;
mod space;

pub use fault::{LookFault, SettleFault};
pub use settled::SettledPages;
pub use space::SettledSpace;
