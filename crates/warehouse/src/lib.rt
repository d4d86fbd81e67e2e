//! A warehouse of boxes: it takes batches of adds, withdrawals and moves, and answers sums, counts
//! and integrals at every version that it ever had.
//!
//! `ListHouse` is the plain program of these definitions, in memory. To its callers it is its params
//! and its history, a list of batches: a commit puts the batch last or gives the first refusal, and a
//! query is the answer that the definitions give on the history at that version. What it keeps beside
//! the history, so that a commit does not walk it, is inside its invariant. Each object is kept once, in
//! a list of lives, and the history names it by its place there.
#![tactic(auto)]

mod apply;
mod committed;
mod event;
mod fault;
mod house;
mod integral;
mod life;
mod list_house;
mod masses;
mod meets;
mod prepare;
mod seen;
mod totals;

pub use committed::{Committed, QueryFault};
pub use fault::{ListFault, NoVersion};
pub use house::House;
pub use list_house::ListHouse;
