//! Where the table and the trees of a warehouse begin.
use bw_types::Tree;
use corner_forest::Forest;

/// The table and the trees, as they are while a batch is entered.
#[derive(Drop)]
pub(crate) struct Roots {
    pub(crate) table: Tree,
    pub(crate) forest: Forest,
}
