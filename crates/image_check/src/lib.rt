//! Whether a disk holds the history that its object table tells.
//!
//! A check reads a disk on whose content nothing is known, writes nothing and makes no sync. It goes through the parts of a
//! warehouse in a fixed order and names the first one that is broken; where none is, the disk holds a history, and every promise
//! about such a disk holds of it, however it came about.
//!
//! - **The object table** is read whole, each page once, and every rule of its form is tested (`read_table`). A yes gives the objects
//!   that the table stands for, and a no says that it stands for none. `judge` finds whether they tell a lawful history.
//! - **The forest** is compared with the lives that the table tells: their corner points are computed anew, tree by tree, and each tree
//!   is compared with its list of points by the check of the index ([`CheckedIndex`]).
//! - **A tree of cuts** (`cut_tree_stands`) is walked once, and the points of its leaves are gathered on the way. At a cut the points of
//!   the low side are compared with the cut's key and handed to the check of its border, without the cut's dimension; at the end all
//!   points are compared with those that the tree is to stand for.
#![tactic(auto)]

mod borders;
mod checked_index;
mod checked_tree;
mod checking;
mod cut_tree;
mod forest;
mod judging;
mod keeping;
mod key;
mod lawful;
mod laws;
mod lives;
mod node;
mod numbers;
mod points;
mod product_index;
mod reading;
mod rules;
mod same;
mod seen;
mod sides;
mod staging;
mod telling;
mod trees;
mod verdict;
mod walking;

pub use checked_index::CheckedIndex;
pub use checking::check;
pub use judging::{Told, judge};
pub use lawful::is_lawful;
pub use laws::verdicts_are_right;
pub use lives::are_lives;
pub use numbers::numbers_hold;
pub use reading::read_table;
pub use telling::told_events;
pub use verdict::Verdict;
