//! The words of the command line.
//!
//! [`read_words`] reads them as a [`Command`], or says that they are none: exactly by the grammar that
//! specs/Command.antt defines. The words that follow the command's own are read by `clap`.
#![tactic(auto)]

mod command;
mod words;

pub use command::Command;
pub use words::{WordsFault, read_words};
