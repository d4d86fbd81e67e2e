//! The index of the product.
ghost use Rattle.bw_types.specs.Depths.{query_pages};
ghost use Rattle.ba_tree.specs.Over.{BalancedOver, IsDamagedForAdd, IsDamagedForSum, MayBecome, MayChange, StandsOver, pages_over, tree_growth};

use crate::add_point::add_point;
use crate::dominance::dom_sum;
use crate::key_tree::KeyTree;
use crate::plane_tree::PlaneTree;
use bw_types::{Point, Tree};
use cut_parts::BorderTree;
use cut_parts::laws::cuts_laws;
use dom_index::DomIndex;
use mvsb_tree::MvIndex;
use ports::{PageFault, Pages, Stage, StageFault};
use std::alloc::Global;

/// Trees over one to three dimensions: multiversion trees over one, and trees of cuts over two and three.
///
/// A sum over `n` points gets at most `query_pages` of them. An addition gives out at most 24 page numbers over one dimension; over
/// two and three one where the tree is empty, none where it is one leaf with room, and else at most `added_pages`.
///
/// An addition to a tree that does not stand answers, or is refused. It changes only pages to which the tree leads, and calls damaged
/// only pages to which the addition comes, unless the free pages are not in order.
#[derive(Drop)]
pub struct BaIndex;

impl DomIndex for BaIndex {
    const DIMS: u8 = 3;

    ghost DIMS = { 3 };

    ghost stands = { λ pages dims tree points. StandsOver ⟦<MvIndex as DomIndex>⟧ ⟦<KeyTree as BorderTree>⟧ ⟦<PlaneTree as BorderTree>⟧ pages dims tree points };

    ghost footprint = { λ pages dims tree. pages_over ⟦<MvIndex as DomIndex>⟧ ⟦<KeyTree as BorderTree>⟧ ⟦<PlaneTree as BorderTree>⟧ pages dims tree };

    ghost balanced = { λ pages dims tree. BalancedOver ⟦<MvIndex as DomIndex>⟧ ⟦<KeyTree as BorderTree>⟧ ⟦<PlaneTree as BorderTree>⟧ pages dims tree };

    ghost cost = { query_pages };

    ghost growth = { tree_growth };

    ghost may_change = { λ pages dims tree point page. MayChange ⟦<MvIndex as DomIndex>⟧ ⟦<KeyTree as BorderTree>⟧ ⟦<PlaneTree as BorderTree>⟧ pages dims tree point page };

    ghost may_become = { λ pages dims tree point new. MayBecome ⟦<MvIndex as DomIndex>⟧ ⟦<KeyTree as BorderTree>⟧ ⟦<PlaneTree as BorderTree>⟧ pages dims tree point new };

    ghost damaged_for_sum = { λ pages dims tree keys version page. IsDamagedForSum ⟦<MvIndex as DomIndex>⟧ ⟦<KeyTree as BorderTree>⟧ ⟦<PlaneTree as BorderTree>⟧ pages dims tree keys version page };

    ghost damaged_for_add = { λ pages dims tree point page. IsDamagedForAdd ⟦<MvIndex as DomIndex>⟧ ⟦<KeyTree as BorderTree>⟧ ⟦<PlaneTree as BorderTree>⟧ pages dims tree point page };

    fn sum<P: Pages>(
        pages: &mut P,
        dims: u8,
        tree: &Tree,
        keys: &[u64; 3],
        version: u32,
    ) -> Result<u128, PageFault> {
        dom_sum(pages, dims, tree, keys, version)
    }

    fn add<S: Stage>(
        alloc: Global,
        stage: &mut S,
        dims: u8,
        tree: &mut Tree,
        point: &Point,
    ) -> Result<(), StageFault> {
        add_point(alloc, stage, dims, tree, point)
    }

    fn index_laws() {
        MvIndex::index_laws();
        cuts_laws::<KeyTree>();
        cuts_laws::<PlaneTree>();
    }
}
