// What sixteen sessions have staged, and which batch is refused and why.
//
// `Sessions` keeps the rows of sessions 1 to 16, at most 4096 each. `first_refusal` gives the first
// refusal of a batch on a history that it does not see: it asks a `Seen` for the lives of the ids,
// and is told the number of events and the total mass. Where these are the history's own, its answer
// is the one that `bw_types` defines on the whole history.
#![tactic(auto)]

mod batch;
mod refusals;
mod seen;
mod sessions;
mod standing;

pub use refusals::{BookFault, first_refusal};
pub use seen::{Life, Seen};
pub use sessions::{Sessions, StageRow};
