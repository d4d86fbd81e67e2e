//! Whether a tree in pages stands for a list of points, decided from what the pages hold.
//!
//! The calls work over any `Pages`, on any content, and only read. They come to an answer in about as
//! many steps as the tree has entries and the list has points, but for the sorts.
//!
//! A tree over versions is decided as a whole ([`version_tree_stands`], [`changes_stand`]), and so is a multiversion tree
//! ([`key_tree_stands`]): its directory and the roots that this tells, the chain of its nodes with their entries (`walk_chain`,
//! `entries_keep`), and the nodes below the roots, for which the alive entries of a node cut an interval of keys at each of a stretch of
//! versions (`stands_throughout`). These are gone to level by level, and the pieces in which a node is reached from the copies of its
//! parent are merged, so that it is read about once.
//!
//! Sums are compared by a sort: in the order by versions and keys the sum of signed corners is 0 everywhere exactly where the weights of
//! each single version and key come to 0, modulo `2^128` (`vanish`).
#![tactic(auto)]

mod chain;
mod changes;
mod corner;
mod digits;
mod entry_corners;
mod jumps;
mod key_tree;
mod leveled;
mod life;
mod marks;
mod merging;
mod node;
mod numbers;
mod piece;
mod piece_node;
mod piece_walk;
mod pieces_below;
mod points;
mod reached;
mod rooted;
mod roots;
mod run;
mod scan;
mod step;
mod throughout;
mod version_tree;
mod walk;

pub use changes::changes_stand;
pub use key_tree::key_tree_stands;
pub use version_tree::version_tree_stands;
