//! The index of the product, which can be checked.
use crate::checked_index::CheckedIndex;
use crate::cut_tree::cut_tree_stands;
use ba_tree::{BaIndex, KeyTree, PlaneTree};
use bw_types::{Point, Tree};
use key_check::key_tree_stands;
use page_checks::CheckFault;
use ports::Pages;
use std::alloc::Global;

impl CheckedIndex for BaIndex {
    fn tree_stands<P: Pages>(
        alloc: Global,
        pages: &mut P,
        dims: u8,
        tree: &Tree,
        points: &[Point],
        named: &mut Vec<u64>,
    ) -> Result<bool, CheckFault> {
        match dims {
            1 => key_tree_stands(alloc, pages, tree, points, named),
            2 => cut_tree_stands::<KeyTree, P>(alloc, pages, tree, points, named),
            _ => cut_tree_stands::<PlaneTree, P>(alloc, pages, tree, points, named),
        }
    }
}
