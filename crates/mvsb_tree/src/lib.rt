//! Multiversion trees over keys: each version of a step function of the key, kept in pages.
//!
//! A tree stands for a list of weighted points: its value at a key and a version is the sum of the
//! weights of the points at or below both, modulo `2^128`. Points are added in order of version, and
//! every version stays readable. A directory of roots, a tree over versions, names the root of each
//! version; from there a value is read down one path. (Yang and Widom, "Incremental Computation and
//! Maintenance of Temporal Aggregates", 2001; Zhang, Markowetz, Tsotras, Gunopulos and Seeger,
//! "Efficient Computation of Temporal Aggregates with Range Predicates", 2001.)
//!
//! The calls work over any `Pages` and `Stage`, on any content: where they come to a page that is damaged
//! they name it. As an index over one dimension a tree is `MvIndex`.
#![tactic(auto)]

mod add;
mod below;
mod build;
mod chain;
mod change;
mod directory;
mod first;
mod free;
mod laws;
mod lead;
mod mv_index;
mod node;
mod place;
mod replaced;
mod root;
mod step;
mod store;
mod told;
mod top;
mod value;

pub use add::mv_add;
pub use build::mv_build;
pub use free::mv_free;
pub use laws::{freed_laws, mv_laws};
pub use mv_index::MvIndex;
pub use value::mv_value;
