//! The lines of an input, cut from what a source gives.
//!
//! [`LineReader`] takes bytes from a [`Source`](ports::Source) in whatever pieces they come, and answers line
//! after line. Its contract says that the answers are the lines of the definition `lines` in specs/, in their order, that a
//! line of more than 4096 bytes is told as such, and when the end, a fault or the limit comes.
#![tactic(auto)]

mod line_laws;
mod lines;

pub use crate::line_laws::{
    lines_join, lines_of_nothing, lines_of_short_inputs, whole_joins, whole_part_of_passed,
};
pub use crate::lines::{LONGEST_LINE, Line, LineReader};
