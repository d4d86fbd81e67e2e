//! A cache of pages of a disk, so that a page which is read often is read from the disk once.
//!
//! A get answers what a read of the disk's Pages area would answer. Where the page is kept it makes no
//! call on the disk, and else one read. This rests on the cache's agreement with the disk: each page
//! that it keeps is as the area has it. A new cache keeps none and agrees with every disk, a get keeps
//! the agreement, and whoever writes a page to the disk renews it here. The cache may forget any page,
//! so a want of memory is no answer of a get or a renewal; only a new cache may find none.
#![tactic(auto)]

mod cache;

pub use cache::{Cache, NoMemory};
