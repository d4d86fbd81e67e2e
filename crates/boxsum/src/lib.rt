//! `boxsum`: keeps boxes with weights and answers, at any past version, how much weight touches a
//! box, how many boxes do, or how much of a quantity lies inside it.
//!
//! `run` carries out a command; its contract says all that the program promises, one record a command. The program
//! `boxsum_cli` hands it words, files, standard input and standard output.
//!
//! A program that keeps a warehouse of its own, without words and rows, stands on `page_warehouse`, and takes from here the
//! `Index`: the crate `parcels` makes one, opens it, commits rows, asks and closes it.
#![tactic(auto)]

mod checking;
mod compaction;
mod derivation;
mod export;
mod index;
mod printing;
mod report;
mod running;
mod sample;
mod span_run;
mod status;

pub use index::Index;
pub use running::{run, run_two};
pub use status::{Ran, RanTwo, Status};
