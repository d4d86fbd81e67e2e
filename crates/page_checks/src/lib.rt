//! What the checks of pages have in common.
//!
//! A check reads pages on which nothing is known, and decides whether they hold what they are to hold. It
//! changes no page, has no answer where the device failed or memory was wanting (`CheckFault`), and names
//! the pages that it has found, so that none is found in two places.
#![tactic(auto)]

mod fault;
mod named;

pub use fault::CheckFault;
pub use named::{name_none_twice, push_page};
