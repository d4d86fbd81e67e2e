//! The borders over one dimension: multiversion trees.
ghost use Rattle.std.specs.Prelude.{◌≡◌, ◌+◌, ◌⊎◌, true, slice_index};
ghost use Rattle.bw_types.specs.Digits.{digit_count};
ghost use Rattle.ports.specs.Frame.{names_page};
ghost use Rattle.mvsb_tree.specs.Damage.{IsDamagedForFree, IsDamagedForValue};
ghost use Rattle.mvsb_tree.specs.Index.{IsDamagedForPoint, MayChange};
ghost use Rattle.mvsb_tree.specs.Stands.{IsBalanced, MvStands};
ghost use Rattle.mvsb_tree.specs.Steps.{tree_pages};

use bw_types::{Point, Tree};
use cut_parts::BorderTree;
use mvsb_tree::{freed_laws, mv_add, mv_build, mv_free, mv_laws, mv_value};
use ports::{PageFault, Pages, Stage, StageFault};
use std::alloc::Global;

/// Multiversion trees as the borders over one dimension.
///
/// A sum gets at most one page a level of the directory and of the root. An addition to a tree that stands and is balanced
/// gives out at most 24 pages, and building at most 24 a point.
#[derive(Drop)]
pub struct KeyTree;

impl BorderTree for KeyTree {
    const DIMS: u8 = 1;

    ghost DIMS = { 1 };

    ghost stands = { λ pages tree points. MvStands pages tree points };

    ghost footprint = { λ pages tree. tree_pages pages tree };

    ghost balanced = { λ pages tree. IsBalanced pages tree };

    ghost cost = { λ count. digit_count 32 count + digit_count 24 count };

    ghost growth = { λ _. 24 };

    ghost share = { λ _. 24 };

    ghost damaged_for_sum = { λ pages tree keys version page. IsDamagedForValue pages tree (slice_index keys 0) version page };

    ghost may_change = { λ pages tree point page. MayChange pages tree point page };

    ghost damaged_for_add = { λ pages tree point page. IsDamagedForPoint pages tree point page };

    // A page of the tree may have been freed before.
    ghost damaged_for_drop = { λ pages freed tree page. IsDamagedForFree pages tree page ⊎ ((names_page freed page ≡ true) × (names_page (tree_pages pages tree) page ≡ true)) };

    fn sum<P: Pages>(
        pages: &mut P,
        tree: &Tree,
        keys: &[u64; 3],
        version: u32,
    ) -> Result<u128, PageFault> {
        mv_value(pages, tree, keys[0], version)
    }

    fn add<S: Stage>(
        alloc: Global,
        stage: &mut S,
        tree: &mut Tree,
        point: &Point,
    ) -> Result<(), StageFault> {
        mv_add(stage, tree, point.keys[0], point.version, point.weight)
    }

    fn build<S: Stage>(
        alloc: Global,
        stage: &mut S,
        points: &mut [Point],
    ) -> Result<Tree, StageFault> {
        mv_laws();
        points.sort_unstable_by_key(|point| point.version);
        mv_build(stage, points)
    }

    fn drop_tree<S: Stage>(stage: &mut S, tree: &Tree) -> Result<(), StageFault> {
        freed_laws();
        mv_free(stage, tree)
    }

    fn border_laws() {
        mv_laws();
    }
}
