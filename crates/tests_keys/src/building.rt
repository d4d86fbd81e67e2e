//! Multiversion trees that are built of points: their pages are those that additions make.
ghost use Rattle.std.specs.Prelude.{◌<◌, ◌↔◌, IsTrue};
ghost use Rattle.std.specs.List.{All};

use bw_types::{Point, Tree};
use mvsb_tree::{mv_add, mv_build};
use ports::{MemStage, Pages, StageFault, blank_page};
use std::alloc::{AllocError, Global};
use std::test::Fail;

fn are_early(points: &[Point]) -> bool
    ensures { IsTrue result ↔ All (λ p. p.version < 4294967295) points.now }
{
    points.iter().all(|p| p.version < u32::MAX)
}

// Builds a tree of the points, which are put in the order of versions.
fn build_of(stage: &mut MemStage, points: &mut [Point]) -> Result<Tree, StageFault> {
    points.sort_unstable_by_key(|p| p.version);
    if points.len() > 1000 || !are_early(points) {
        return Err(StageFault::Damaged(0));
    }
    mv_build(stage, points)
}

// The tree that additions of the points make, one after another.
fn add_each(stage: &mut MemStage, points: &[Point]) -> Result<Tree, StageFault> {
    let mut tree = Tree::default();
    for point in points {
        if point.version < u32::MAX {
            mv_add(stage, &mut tree, point.keys[0], point.version, point.weight)?;
        }
    }
    Ok(tree)
}

// Whether the two stages gave out as many pages, which are the same byte for byte.
fn hold_same_pages(first: &mut MemStage, second: &mut MemStage) -> bool {
    let mut bytes = blank_page();
    let mut others = blank_page();
    for page in 3..first.allotted() {
        if first.get(page, &mut bytes).is_err() || second.get(page, &mut others).is_err() {
            return false;
        }
        if bytes != others {
            return false;
        }
    }
    first.allotted() == second.allotted()
}

fn is_as_added(alloc: Global, points: &mut [Point]) -> Result<bool, StageFault> {
    let mut building = MemStage::new(alloc, 1000);
    let mut adding = MemStage::new(alloc, 1000);
    let built = build_of(&mut building, points)?;
    let added = add_each(&mut adding, points)?;
    Ok(built == added && hold_same_pages(&mut building, &mut adding))
}

// So many points, of so many keys in turn; so many at a time have one version.
fn points_of(alloc: Global, count: u32, keys: u32, at_once: u32) -> Result<Vec<Point>, AllocError> {
    let mut points = Vec::new(alloc);
    for number in 0..count {
        let key = u64::from(number.wrapping_mul(37) % keys.max(1));
        points.push(Point {
            keys: [key, 0, 0],
            version: number / at_once.max(1),
            weight: u128::from(number) + 1,
        })?;
    }
    Ok(points)
}

// Fewer points than a leaf has room for, as many, and more.
#[test]
fn many_keys(rt: HostRuntime) -> Result<(), Fail> {
    for count in [1, 2, 95, 96, 97, 150] {
        for at_once in [7, 150] {
            let mut points = points_of(rt.alloc(), count, 1009, at_once)?;
            assert_eq!(rt; is_as_added(rt.alloc(), points.as_mut_slice()), Ok(true));
        }
    }
    Ok(())
}

// A key that comes again in its version is raised there, also in a full leaf, and at a later version its entry is closed.
#[test]
fn keys_that_come_again(rt: HostRuntime) -> Result<(), Fail> {
    for keys in [5, 95] {
        for at_once in [7, 150] {
            let mut points = points_of(rt.alloc(), 150, keys, at_once)?;
            assert_eq!(rt; is_as_added(rt.alloc(), points.as_mut_slice()), Ok(true));
        }
    }
    Ok(())
}

#[test]
fn no_points_make_the_empty_tree(rt: HostRuntime) -> Result<(), Fail> {
    let mut stage = MemStage::new(rt.alloc(), 20);
    assert_eq!(rt; mv_build(&mut stage, &[])?, Tree::default());
    assert_eq!(rt; stage.allotted(), 3);
    Ok(())
}

// A leaf and then its directory want a page.
#[test]
fn a_build_that_finds_no_page(rt: HostRuntime) -> Result<(), Fail> {
    let mut points = points_of(rt.alloc(), 2, 2, 1)?;
    for limit in 3..5 {
        let mut stage = MemStage::new(rt.alloc(), limit);
        let built = build_of(&mut stage, points.as_mut_slice());
        assert_eq!(rt; built, Err(StageFault::PageLimit(limit)));
    }
    Ok(())
}
