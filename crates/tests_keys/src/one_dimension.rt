//! Multiversion trees as the index of one dimension, in memory.
ghost use Rattle.std.specs.Prelude.{◌<◌, ◌^◌, ◌-◌};
ghost use Rattle.dom_index.specs.Points.{AreKeysBelow};

use crate::broken::{noise, tree_of};
use bw_types::{Point, Tree};
use dom_index::DomIndex;
use mvsb_tree::MvIndex;
use ports::{MemStage, PageFault, StageFault};
use std::test::Fail;

fn point_at(key: u16, version: u16, weight: u128) -> Point
    ensures keys { AreKeysBelow 1 result.keys }
    ensures version { result.version < 2 ^ 32 - 1 }
{
    Point {
        keys: [u64::from(key), 0, 0],
        version: u32::from(version),
        weight,
    }
}

fn sum_at(stage: &mut MemStage, tree: &Tree, key: u16, version: u32) -> Result<u128, PageFault> {
    let keys = [u64::from(key), 0, 0];
    MvIndex::sum(stage, 1, tree, &keys, version)
}

#[test]
fn three_points(rt: HostRuntime) -> Result<(), Fail> {
    let mut stage = MemStage::new(rt.alloc(), 20);
    let mut tree = Tree::default();
    MvIndex::add(rt.alloc(), &mut stage, 1, &mut tree, &point_at(10, 1, 5))?;
    MvIndex::add(rt.alloc(), &mut stage, 1, &mut tree, &point_at(20, 1, 7))?;
    MvIndex::add(rt.alloc(), &mut stage, 1, &mut tree, &point_at(5, 2, 1))?;
    for case in [
        (25, 0, 0),
        (9, 1, 0),
        (10, 1, 5),
        (25, 1, 12),
        (4, 2, 0),
        (5, 2, 1),
        (25, 2, 13),
    ] {
        assert_eq!(rt; sum_at(&mut stage, &tree, case.0, case.1), Ok(case.2));
    }
    Ok(())
}

#[test]
fn a_root_that_is_noise(rt: HostRuntime) -> Result<(), Fail> {
    let mut stage = MemStage::new(rt.alloc(), 10);
    let page = noise(&mut stage)?;
    let mut tree = tree_of(&mut stage, page)?;
    let before = tree;
    assert_eq!(rt;
        sum_at(&mut stage, &tree, 5, 1),
        Err(PageFault::Damaged(page))
    );
    let added = MvIndex::add(rt.alloc(), &mut stage, 1, &mut tree, &point_at(5, 1, 1));
    assert_eq!(rt; added, Err(StageFault::Damaged(page)));
    assert_eq!(rt; tree, before);
    Ok(())
}

// The leaf gets a page, and the directory none.
#[test]
fn a_first_point_that_meets_the_limit(rt: HostRuntime) -> Result<(), Fail> {
    let mut stage = MemStage::new(rt.alloc(), 4);
    let mut tree = Tree::default();
    let added = MvIndex::add(rt.alloc(), &mut stage, 1, &mut tree, &point_at(5, 1, 1));
    assert_eq!(rt; added, Err(StageFault::PageLimit(4)));
    assert_eq!(rt; tree, Tree::default());
    Ok(())
}

#[test]
fn an_index_of_one_dimension(rt: HostRuntime) -> Result<(), Fail> {
    assert_eq!(rt; MvIndex::DIMS, 1);
    MvIndex::index_laws();
    Ok(())
}
