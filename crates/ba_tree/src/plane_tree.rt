//! The borders over two dimensions: trees of cuts.
ghost use Rattle.std.specs.Prelude.{◌≤◌};
ghost use Rattle.cut_parts.specs.Damage.{BeforePage, IsDamagedForSum};
ghost use Rattle.cut_parts.specs.Reach.{IsDamagedForAdd, IsDamagedForDrop, Leads};
ghost use Rattle.cut_parts.specs.Standing.{CutsBalanced, CutsStand, cuts_cost, cuts_growth, cuts_share, tree_pages};

use crate::building::build;
use crate::key_tree::KeyTree;
use crate::sum::tree_sum;
use crate::tree::tree_add;
use bw_types::{Point, Tree};
use cut_parts::BorderTree;
use cut_parts::laws::cuts_laws;
use ports::{PageFault, Pages, Stage, StageFault};
use std::alloc::Global;

/// Trees of cuts over two dimensions, with multiversion trees as the borders of their cuts.
///
/// A sum gets at most `cuts_cost` pages. An addition to a tree that stands and is balanced gives out at most `cuts_growth`
/// pages, and building at most `cuts_share` a point.
#[derive(Drop)]
pub struct PlaneTree;

impl BorderTree for PlaneTree {
    const DIMS: u8 = 2;

    ghost DIMS = { 2 };

    ghost stands = { λ pages tree points. CutsStand ⟦<KeyTree as BorderTree>⟧ pages tree points };

    ghost footprint = { λ pages tree. tree_pages ⟦<KeyTree as BorderTree>⟧ pages tree };

    ghost balanced = { λ pages tree. CutsBalanced ⟦<KeyTree as BorderTree>⟧ pages tree };

    ghost cost = { λ count. cuts_cost ⟦<KeyTree as BorderTree>⟧ count };

    ghost growth = { λ count. cuts_growth ⟦<KeyTree as BorderTree>⟧ count };

    ghost share = { λ count. cuts_share ⟦<KeyTree as BorderTree>⟧ count };

    ghost damaged_for_sum = { λ pages tree keys version page. IsDamagedForSum ⟦<KeyTree as BorderTree>⟧ pages tree keys version page };

    ghost may_change = { λ pages tree point page. Leads ⟦<KeyTree as BorderTree>⟧ pages tree point page };

    ghost damaged_for_add = { λ pages tree point page. IsDamagedForAdd ⟦<KeyTree as BorderTree>⟧ pages tree point page };

    ghost damaged_for_drop = { λ pages freed tree page. (1 ≤ tree.count) × IsDamagedForDrop ⟦<KeyTree as BorderTree>⟧ pages freed tree.count (BeforePage tree.root) page };

    fn sum<P: Pages>(
        pages: &mut P,
        tree: &Tree,
        keys: &[u64; 3],
        version: u32,
    ) -> Result<u128, PageFault> {
        tree_sum::<KeyTree, P>(pages, tree, keys, version)
    }

    fn add<S: Stage>(
        alloc: Global,
        stage: &mut S,
        tree: &mut Tree,
        point: &Point,
    ) -> Result<(), StageFault> {
        tree_add::<KeyTree, S>(alloc, stage, tree, point)
    }

    fn build<S: Stage>(
        alloc: Global,
        stage: &mut S,
        points: &mut [Point],
    ) -> Result<Tree, StageFault> {
        build::<KeyTree, S>(alloc, stage, points)
    }

    fn drop_tree<S: Stage>(stage: &mut S, tree: &Tree) -> Result<(), StageFault> {
        crate::drop_tree::<KeyTree, S>(stage, tree)
    }

    fn border_laws() {
        cuts_laws::<KeyTree>();
    }
}
