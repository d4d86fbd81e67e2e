//! The sample: rows that are drawn from a number to start with, and the summary of what they are answered.
//!
//! [`sample_text`] makes the rows, byte by byte as `Generator` in specs/ defines them. [`answers_in`] adds up the answers in
//! a text of replies modulo `2^128`, which [`sample_laws`] proves to be their total where they answer a sample, and
//! [`sample_summary`] is the text that is printed.
#![tactic(auto)]

mod draws;
mod laws;
mod rows;
mod summary;

pub use laws::sample_laws;
pub use rows::{NoMemory, sample_text};
pub use summary::{answers_in, sample_params, sample_summary};
