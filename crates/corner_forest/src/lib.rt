//! Sums, counts and integrals over boxes, by the signed corners of a forest of indexes.
//!
//! An object is entered as one point at each of its corners, in a tree for each corner; a query adds up the
//! dominance sums at its own corners with their signs. A point's weight tells the object's weight and that it
//! counts 1, so that one total tells the sum and the count. What an entry with `minus` takes out counts with the
//! opposite sign from its version on, so every past version stays as it was. The calls are generic over the
//! index, and their contracts speak of objects and queries alone.
#![tactic(auto)]

mod batch;
mod entry;
mod forest;
pub mod laws;
mod meet;
mod planes;
mod points;

pub use batch::enter;
pub use entry::Entry;
pub use forest::{Forest, corner_count, root_count};
pub use meet::{count, met, sum};
pub use planes::{below, integral};
pub use points::entry_point;
