//! One node of a multiversion tree in memory: what it says at a key and a version, and its changes.
//!
//! An entry counts at each key from its low on, at the versions at which it is alive. A change at a
//! version keeps what the node says at every earlier one: an entry that started earlier is closed,
//! and a copy that starts at the version takes its part.
//!
//! No call takes memory, and none refuses.
#![tactic(auto)]

mod add;
mod changeable;
mod child;
mod copy;
mod edit;
mod find;
mod laws;
mod path;
mod value;
mod view;

pub use add::{add_at, add_beside};
pub use changeable::is_changeable;
pub use child::new_child;
pub use copy::{Copied, close_and_copy};
pub use find::is_alive;
pub use laws::{later_laws, low_laws, path_laws};
pub use path::{Reached, reached_at};
pub use value::{child_at, value_at};
pub use view::{Said, said_on};
