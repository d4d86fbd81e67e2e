//! The rows that lines of input spell, and the replies to them.
//!
//! [`RowReader`] reads a line: an add, a move or a withdrawal to stage in a session, a commit or a drop of a session, or a
//! query. [`Reply`] is what a line is answered, as it prints. Rows of other commands are made of the same [`Fields`].
//!
//! The contracts say each by one definition in specs/: what a line spells and that a line that spells
//! nothing is bad, and how a reply reads. `Machine` there puts them together with the lines of an input: what is written
//! for a whole input.
#![tactic(auto)]

mod fields;
mod input;
mod numbers;
mod parts;
mod reply;
mod row_reader;
mod rows;
pub mod worked;
pub mod worked_lines;

pub use crate::fields::{Fields, NoMemory};
pub use crate::input::Input;
pub use crate::numbers::number;
pub use crate::parts::{stored, version};
pub use crate::reply::Reply;
pub use crate::row_reader::RowReader;
