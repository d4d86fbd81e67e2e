//! The machine of rows and replies, over any house.
//!
//! A [`Desk`] is a house that keeps a history, and what the sixteen sessions have staged. It takes one
//! line at a time, as one step, and [`serve`] takes a whole input: after every end, an early one too,
//! what was written, which history is there, and what a crash may leave of it are said.
//!
//! Where no line changes anything, [`answer_lines`] does the same over any [`Responder`].
#![tactic(auto)]

mod answering;
mod desk;
mod ending;
mod laws;
mod outbox;
mod serving;

pub use answering::{RespondFault, Responder, answer_lines};
pub use desk::{Desk, LineTaken, Taken};
pub use ending::{Ending, RunEnd};
pub use laws::{ends_laws, machine_laws};
pub use serving::{INPUT_LIMIT, serve};
