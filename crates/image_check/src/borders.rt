//! The borders of the product, which can be checked.
use crate::checked_tree::CheckedTree;
use crate::cut_tree::cut_tree_stands;
use ba_tree::{KeyTree, PlaneTree};
use bw_types::{Point, Tree};
use key_check::key_tree_stands;
use page_checks::CheckFault;
use ports::Pages;
use std::alloc::Global;

impl CheckedTree for KeyTree {
    fn tree_stands<P: Pages>(
        alloc: Global,
        pages: &mut P,
        tree: &Tree,
        points: &[Point],
        named: &mut Vec<u64>,
    ) -> Result<bool, CheckFault> {
        key_tree_stands(alloc, pages, tree, points, named)
    }
}

impl CheckedTree for PlaneTree {
    fn tree_stands<P: Pages>(
        alloc: Global,
        pages: &mut P,
        tree: &Tree,
        points: &[Point],
        named: &mut Vec<u64>,
    ) -> Result<bool, CheckFault> {
        cut_tree_stands::<KeyTree, P>(alloc, pages, tree, points, named)
    }
}
