//! The index of the product: trees of weighted points over one to three dimensions.
//!
//! Over one dimension a tree is a multiversion tree, and over two and three it is a tree of cuts whose borders are trees over one
//! dimension less. A caller hands the dimensions to each call, and knows of no tree's pages. The trees over one dimension and over two
//! are borders too ([`KeyTree`], [`PlaneTree`]).
//!
//! **A sum** ([`tree_sum`]) is read down one path of cuts. At a cut a query below its key goes on to the low side. From the key on it goes
//! on to the high side, and adds what the border tells of the low side, or, where that is a leaf, what the leaf does. So each page is
//! got once, and read where it stands.
//!
//! **A point** ([`tree_add`]) goes down the cuts to a leaf, and into the borders of the cuts below which it lies. A part that is out of
//! balance is collected, dropped and built anew.
//!
//! **Building** ([`build`]): a part of at most 64 points is a leaf. One of more is cut at the median key of its widest dimension, with a
//! border built of the low side's points where they are more than 64. A page has the cuts of one rank: `rank(n)` is 0 for at most 64
//! points and else one more than that of a sixty-fourth of them, rounded up; a page begins with a part of one rank, and its entries are
//! the parts of lower ranks that its cuts leave.
//!
//! Trees of cuts stand in for the BA-trees of Zhang, Tsotras and Gunopulos, "Efficient Aggregation over Objects with Extent",
//! 2002: the borders hang on cuts here, and the balance is kept by the numbers of points.
#![tactic(auto)]

mod add_point;
mod adding;
mod anew;
mod ba_index;
mod border;
mod building;
mod change;
mod collecting;
mod dominance;
mod dropping;
mod key_tree;
mod leaf;
mod plane_tree;
mod sides;
mod sound;
mod splitting;
mod storing;
mod sum;
mod tree;

pub use ba_index::BaIndex;
pub use building::{build, build_part};
pub use collecting::{collect, collect_nodes};
pub use dominance::dom_sum;
pub use dropping::{drop_nodes, drop_tree};
pub use key_tree::KeyTree;
pub use plane_tree::PlaneTree;
pub use sum::tree_sum;
pub use tree::tree_add;
