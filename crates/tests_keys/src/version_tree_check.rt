//! Trees over versions in memory that stand for their additions, and such as do not.
use bw_types::{Point, Tree};
use key_check::{changes_stand, version_tree_stands};
use ports::MemStage;
use sb_tree::sb_add;
use std::alloc::{AllocError, Global};
use std::test::Fail;

// Points at versions that ascend, each twice, so many that the tree has two levels.
fn some_points(alloc: Global) -> Result<Vec<Point>, AllocError> {
    let mut points = Vec::new(alloc);
    for i in 0..300u32 {
        points.push(Point {
            keys: [u64::from(i % 7), 0, 0],
            version: i / 2 + 3,
            weight: u128::from(i).wrapping_neg(),
        })?;
    }
    Ok(points)
}

// The tree of the points, and the stage that holds it.
fn built(alloc: Global, points: &[Point]) -> Result<(MemStage, Tree), Fail> {
    let mut stage = MemStage::new(alloc, 100);
    let mut tree = Tree::default();
    for point in points {
        sb_add(&mut stage, &mut tree, point.version, point.weight)?;
    }
    Ok((stage, tree))
}

#[test]
fn a_tree_stands_for_its_additions(rt: HostRuntime) -> Result<(), Fail> {
    let alloc = rt.alloc();
    let mut points = some_points(alloc)?;
    let (mut stage, tree) = built(alloc, points.as_slice())?;
    assert_eq!(rt; tree.levels, 2);
    assert_eq!(rt;
        version_tree_stands(alloc, &mut stage, &tree, points.as_slice()),
        Ok(true)
    );
    points.as_mut_slice().reverse();
    assert_eq!(rt;
        version_tree_stands(alloc, &mut stage, &tree, points.as_slice()),
        Ok(true)
    );
    assert_eq!(rt;
        changes_stand(alloc, &mut stage, &tree, points.as_slice()),
        Ok(true)
    );
    Ok(())
}

// Whether the tree of the points stands for them where one is another.
fn stands_with(alloc: Global, other: Point) -> Result<bool, Fail> {
    let mut points = some_points(alloc)?;
    let (mut stage, tree) = built(alloc, points.as_slice())?;
    if let Some(point) = points.get_mut(7) {
        *point = other;
    }
    Ok(version_tree_stands(alloc, &mut stage, &tree, points.as_slice())?)
}

#[test]
fn other_points_are_refused(rt: HostRuntime) -> Result<(), Fail> {
    let alloc = rt.alloc();
    let seventh = Point {
        keys: [0, 0, 0],
        version: 6,
        weight: 7u128.wrapping_neg(),
    };
    assert_eq!(rt; stands_with(alloc, seventh)?, true);
    let heavier = Point {
        weight: 7,
        ..seventh
    };
    assert_eq!(rt; stands_with(alloc, heavier)?, false);
    let later = Point {
        version: 7,
        ..seventh
    };
    assert_eq!(rt; stands_with(alloc, later)?, false);
    Ok(())
}

#[test]
fn one_point_more_or_less_is_refused(rt: HostRuntime) -> Result<(), Fail> {
    let alloc = rt.alloc();
    let mut points = some_points(alloc)?;
    let (mut stage, tree) = built(alloc, points.as_slice())?;
    points.push(Point::default())?;
    assert_eq!(rt;
        version_tree_stands(alloc, &mut stage, &tree, points.as_slice()),
        Ok(false)
    );
    points.truncate(299);
    assert_eq!(rt;
        version_tree_stands(alloc, &mut stage, &tree, points.as_slice()),
        Ok(false)
    );
    Ok(())
}

#[test]
fn changes_past_the_points_are_refused(rt: HostRuntime) -> Result<(), Fail> {
    let alloc = rt.alloc();
    let mut points = some_points(alloc)?;
    let (mut stage, tree) = built(alloc, points.as_slice())?;
    let fewer = Tree { count: 100, ..tree };
    assert_eq!(rt;
        changes_stand(alloc, &mut stage, &fewer, points.as_slice()),
        Ok(false)
    );
    let more = Tree {
        count: 1000,
        ..tree
    };
    assert_eq!(rt;
        changes_stand(alloc, &mut stage, &more, points.as_slice()),
        Ok(true)
    );
    points.truncate(200);
    assert_eq!(rt;
        changes_stand(alloc, &mut stage, &tree, points.as_slice()),
        Ok(false)
    );
    Ok(())
}

#[test]
fn a_tree_of_too_many_levels_is_refused(rt: HostRuntime) -> Result<(), Fail> {
    let alloc = rt.alloc();
    let points = some_points(alloc)?;
    let (mut stage, tree) = built(alloc, points.as_slice())?;
    let higher = Tree { levels: 3, ..tree };
    assert_eq!(rt;
        version_tree_stands(alloc, &mut stage, &higher, points.as_slice()),
        Ok(false)
    );
    let empty = Tree::default();
    assert_eq!(rt;
        version_tree_stands(alloc, &mut stage, &empty, &[]),
        Ok(true)
    );
    assert_eq!(rt;
        version_tree_stands(alloc, &mut stage, &empty, points.as_slice()),
        Ok(false)
    );
    Ok(())
}
