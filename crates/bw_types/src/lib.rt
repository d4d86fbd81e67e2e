// The values that the whole product speaks of, and, in specs/, what they mean: which boxes meet, what
// a history of batches holds at a version, which batch is refused and why, and what a query answers.
//
// Everything above rests on these definitions. What a warehouse answers is said by rows, lists and sums
// alone: no page, no tree, no corner and no residue. Apart from that stand the words of the trees below it:
// residues modulo 2^128, the keys of points, regions of keys, points without a dimension, how deep the cuts over points
// may lie, and how many pages a query reads and an addition takes. Residues, digits and depths have their laws beside them.
// Each definition can be computed; the laws in `worked.rt` compute them on whole examples, so that a wrong definition
// shows before anything stands on it.
#![tactic(auto)]

mod change;
mod dated;
pub mod depths;
mod fits;
mod key;
mod object;
mod params;
mod point;
mod query;
mod refusal;
mod region;
mod residue;
pub mod residue_laws;
mod row;
mod tree;
pub mod worked;

pub use change::Change;
pub use dated::Dated;
pub use fits::{coefficient_count, object_fits, query_fits};
pub use key::{keys_are_ordered, point_key, query_key};
pub use object::Object;
pub use params::Params;
pub use point::Point;
pub use query::{Kind, Query};
pub use refusal::{Reason, Refusal};
pub use region::Region;
pub use residue::{res_add, res_mul, res_neg, res_of, res_signed};
pub use row::Row;
pub use tree::Tree;
