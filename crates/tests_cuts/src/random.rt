//! Many points, added to a tree of cuts one by one: after each few hundred the tree is as it has to be, and no addition gives out too
//! many pages.
use crate::beside::is_right;
use crate::bounds::most_added;
use crate::samples::{add, draw, drop_all, pages_in_use};
use bw_types::{Point, Tree, point_key};
use ports::{MemStage, StageFault};
use std::alloc::Global;
use std::test::Fail;

/// How points lie.
#[derive(Clone, Copy)]
enum Lie {
    Random,
    Ascending,
    Descending,
    OnePlace,
    Clustered,
}

fn coordinate(lie: Lie, state: &mut u64, number: u32) -> u32 {
    match lie {
        Lie::Random => draw(state) % 1000000,
        Lie::Ascending => number,
        Lie::Descending => 1000000_u32.saturating_sub(number),
        Lie::OnePlace => 5,
        Lie::Clustered => (draw(state) % 4) * 100000 + draw(state) % 3,
    }
}

/// The point of this number; there is a version more each 100 points. The sums of the weights go past `2^128`.
fn drawn_point(lie: Lie, state: &mut u64, number: u32) -> Point {
    Point {
        keys: [
            point_key(coordinate(lie, state, number), number),
            point_key(coordinate(lie, state, number), number),
            point_key(coordinate(lie, state, number), number),
        ],
        version: number / 100,
        weight: u128::from(draw(state)).wrapping_neg(),
    }
}

/// After so many additions each the tree is looked at.
const EACH: u32 = 500;

/// Whether a tree that gets so many points one by one is as it has to be, and all pages of the stage are its own.
fn grows_right(alloc: Global, lie: Lie, three: bool, count: u32) -> Result<bool, StageFault> {
    let mut state = 17;
    let mut stage = MemStage::new(alloc, 4294967295);
    let mut tree = Tree::default();
    let mut points = Vec::new(alloc);
    for number in 0..count {
        let point = drawn_point(lie, &mut state, number);
        points.push(point).map_err(|_| StageFault::NoMemory)?;
        let most = stage.allotted().saturating_add(most_added(three, number));
        add(alloc, &mut stage, three, &mut tree, &point)?;
        if stage.allotted() > most {
            return Ok(false);
        }
        if number % EACH == EACH - 1
            && !is_right(alloc, &mut stage, three, &tree, points.as_slice())?
        {
            return Ok(false);
        }
    }
    drop_all(&mut stage, three, &tree)?;
    Ok(tree.count == count && pages_in_use(&mut stage) == 0)
}

const IN_TWO: u32 = 20000;

const IN_THREE: u32 = 5000;

#[test]
fn random_points_in_two(rt: HostRuntime) -> Result<(), Fail> {
    assert!(rt; grows_right(rt.alloc(), Lie::Random, false, IN_TWO)?);
    Ok(())
}

#[test]
fn random_points_in_three(rt: HostRuntime) -> Result<(), Fail> {
    assert!(rt; grows_right(rt.alloc(), Lie::Random, true, IN_THREE)?);
    Ok(())
}

#[test]
fn ascending_points_in_two(rt: HostRuntime) -> Result<(), Fail> {
    assert!(rt; grows_right(rt.alloc(), Lie::Ascending, false, IN_TWO)?);
    Ok(())
}

#[test]
fn ascending_points_in_three(rt: HostRuntime) -> Result<(), Fail> {
    assert!(rt; grows_right(rt.alloc(), Lie::Ascending, true, IN_THREE)?);
    Ok(())
}

#[test]
fn descending_points_in_two(rt: HostRuntime) -> Result<(), Fail> {
    assert!(rt; grows_right(rt.alloc(), Lie::Descending, false, IN_TWO)?);
    Ok(())
}

#[test]
fn descending_points_in_three(rt: HostRuntime) -> Result<(), Fail> {
    assert!(rt; grows_right(rt.alloc(), Lie::Descending, true, IN_THREE)?);
    Ok(())
}

#[test]
fn points_of_one_place_in_two(rt: HostRuntime) -> Result<(), Fail> {
    assert!(rt; grows_right(rt.alloc(), Lie::OnePlace, false, IN_TWO)?);
    Ok(())
}

#[test]
fn points_of_one_place_in_three(rt: HostRuntime) -> Result<(), Fail> {
    assert!(rt; grows_right(rt.alloc(), Lie::OnePlace, true, IN_THREE)?);
    Ok(())
}

#[test]
fn clustered_points_in_two(rt: HostRuntime) -> Result<(), Fail> {
    assert!(rt; grows_right(rt.alloc(), Lie::Clustered, false, IN_TWO)?);
    Ok(())
}

#[test]
fn clustered_points_in_three(rt: HostRuntime) -> Result<(), Fail> {
    assert!(rt; grows_right(rt.alloc(), Lie::Clustered, true, IN_THREE)?);
    Ok(())
}
