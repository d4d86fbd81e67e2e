//! Parts: what a tree of cuts over leaves of points means, whichever pages spell it.
//!
//! A cut parts points at a key of one dimension. It keeps how many are on its low side, and a border: a tree of one dimension
//! less over these, without the cut's dimension. What is asked of borders is `BorderTree`. The definitions are in specs/: a part,
//! its points and its value in `Parts`, how pages spell it in `Spelling`, when a tree stands for points in `Standing`, which page
//! a sum calls damaged in `Damage`, and where other calls come, whatever the pages hold, in `Reach`. Their laws are the contracts
//! of `laws`. `is_sound` and `is_balanced` test a cut.
//!
//! The points that a tree is built of are here too: whether it may be built of them (`may_be_built`), where they are cut in two
//! halves (`median_cut`), and what they are to the border of a cut (`border_points`).
//!
//! Pages of cuts and leaves of points are read, walked in place, searched, changed in memory and put. What a page holds is told by
//! `HoldsCuts` and `HoldsLeaf`. A page that holds neither is damaged where a call comes to it.
//!
//! `border_points` alone takes memory, and refuses where it is wanting.
#![tactic(auto)]

mod border_tree;
mod borders;
mod changing;
mod fitting;
pub mod laws;
mod median;
mod middle;
mod nodes;
mod page_laws;
mod parts;
mod putting;
mod reading;
mod searching;
mod sound;
mod splitting;
mod widest;

pub use border_tree::BorderTree;
pub use borders::{border_points, drop_dimension, drop_key};
pub use changing::{replace_by_cut, replace_part, set_cut};
pub use fitting::may_be_built;
pub use median::median_cut;
pub use nodes::Nodes;
pub use page_laws::{cuts_divide_regions, pages_hold_one, parts_fill_places};
pub use parts::{after_part, part_length};
pub use putting::{make_cuts, make_leaf, put_cuts, put_leaf};
pub use reading::{leaf_sum, no_cuts, read_cuts, read_leaf, view_cuts};
pub use searching::{find, region_of};
pub use sound::{is_balanced, is_sound};
pub use splitting::{Sides, split_first_cut};
