//! The plain index: a list of points, each of which a sum looks at.
ghost use Rattle.std.specs.Prelude.{◌≡◌, ◌<◌, Err};
ghost use Rattle.dom_index.specs.Becoming.{IsTreeAfter};
ghost use Rattle.dom_index.specs.Chain.{ListStands, IsDamagedAlong, IsDamagedFirst, list_growth, list_pages};

use crate::chain::sum_along;
use crate::index::DomIndex;
use crate::putting::put_first;
use bw_types::{Point, Tree};
use ports::{PageFault, Pages, Stage, StageFault};
use std::alloc::Global;

/// A chain of pages of up to 64 points, over 1 to 3 dimensions.
///
/// The root is the first page. A sum gets at most one page for each point; an addition puts the point into the first
/// page, and gives out one page where that is full.
#[derive(Drop)]
pub struct PointList;

impl DomIndex for PointList {
    const DIMS: u8 = 3;

    ghost DIMS = { 3 };

    ghost stands = { ListStands };

    ghost footprint = { list_pages };

    ghost balanced = { λ _ _ _. Unit {0} };

    ghost cost = { λ dims count. count };

    ghost growth = { list_growth };

    ghost may_change = { λ _ dims tree _ page. page ≡ tree.root };

    ghost may_become = { λ pages _ tree _ new. IsTreeAfter (λ page. page ≡ tree.root) pages tree new };

    ghost damaged_for_sum = { λ pages dims tree keys version page. IsDamagedAlong pages tree page };

    ghost damaged_for_add = { λ pages dims tree point page. IsDamagedFirst pages tree page };

    fn sum<P: Pages>(
        pages: &mut P,
        dims: u8,
        tree: &Tree,
        keys: &[u64; 3],
        version: u32,
    ) -> Result<u128, PageFault> {
        sum_along(pages, dims, tree, keys, version)
    }

    fn add<S: Stage>(
        alloc: Global,
        stage: &mut S,
        dims: u8,
        tree: &mut Tree,
        point: &Point,
    ) -> Result<(), StageFault> {
        if tree.count >= 1 << 31 {
            return Err(StageFault::Damaged(tree.root));
        }
        let root = put_first(stage, tree.root, point)?;
        *tree = Tree {
            root,
            levels: 1,
            count: tree.count + 1,
            ..*tree
        };
        Ok(())
    }

    fn index_laws() {}
}
