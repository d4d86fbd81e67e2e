//! The index of one dimension: a multiversion tree.
ghost use Rattle.std.specs.Prelude.{◌+◌, slice_index};
ghost use Rattle.bw_types.specs.Digits.{digit_count};
ghost use Rattle.mvsb_tree.specs.Damage.{IsDamagedForValue};
ghost use Rattle.mvsb_tree.specs.Index.{IsDamagedForPoint, MayBecome, MayChange};
ghost use Rattle.mvsb_tree.specs.Stands.{IsBalanced, MvStands};
ghost use Rattle.mvsb_tree.specs.Steps.{tree_pages};

use crate::add::mv_add;
use crate::laws::mv_laws;
use crate::value::mv_value;
use bw_types::{Point, Tree};
use dom_index::DomIndex;
use ports::{PageFault, Pages, Stage, StageFault};
use std::alloc::Global;

/// A multiversion tree as an index, over one dimension.
///
/// A sum gets at most one page a level of the directory and of the root. An addition to a tree that
/// stands and is balanced gives out at most 24.
#[derive(Drop)]
pub struct MvIndex;

impl DomIndex for MvIndex {
    const DIMS: u8 = 1;

    ghost DIMS = { 1 };

    ghost stands = { λ pages _ tree points. MvStands pages tree points };

    ghost footprint = { λ pages _ tree. tree_pages pages tree };

    ghost balanced = { λ pages _ tree. IsBalanced pages tree };

    ghost cost = { λ _ count. digit_count 32 count + digit_count 24 count };

    ghost growth = { λ _ _ _. 24 };

    ghost may_change = { λ pages _ tree point page. MayChange pages tree point page };

    ghost may_become = { λ pages _ tree point new. MayBecome pages tree point new };

    ghost damaged_for_sum = { λ pages _ tree keys version page. IsDamagedForValue pages tree (slice_index keys 0) version page };

    ghost damaged_for_add = { λ pages _ tree point page. IsDamagedForPoint pages tree point page };

    fn sum<P: Pages>(
        pages: &mut P,
        dims: u8,
        tree: &Tree,
        keys: &[u64; 3],
        version: u32,
    ) -> Result<u128, PageFault> {
        mv_value(pages, tree, keys[0], version)
    }

    fn add<S: Stage>(
        alloc: Global,
        stage: &mut S,
        dims: u8,
        tree: &mut Tree,
        point: &Point,
    ) -> Result<(), StageFault> {
        mv_add(stage, tree, point.keys[0], point.version, point.weight)
    }

    fn index_laws() {
        mv_laws();
    }
}
