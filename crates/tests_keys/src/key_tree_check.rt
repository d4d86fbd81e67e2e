//! Multiversion trees in memory: they stand for their additions, and for nothing else.
use bw_types::{Point, Tree};
use key_check::key_tree_stands;
use mvsb_tree::mv_add;
use ports::MemStage;
use std::alloc::Global;
use std::test::Fail;

// Points at versions that ascend, ten each, at keys so scattered that nodes are split and roots made anew; with their
// tree, and the stage that holds it.
fn grown(alloc: Global) -> Result<(Vec<Point>, MemStage, Tree), Fail> {
    let mut points = Vec::new(alloc);
    let mut stage = MemStage::new(alloc, 400);
    let mut tree = Tree::default();
    for i in 0..600u32 {
        let key = u64::from(i * 7919 % 1009);
        let version = i / 10 + 3;
        let weight = u128::from(i).wrapping_neg();
        mv_add(&mut stage, &mut tree, key, version, weight)?;
        points.push(Point {
            keys: [key, 0, 0],
            version,
            weight,
        })?;
    }
    Ok((points, stage, tree))
}

#[test]
fn a_key_tree_stands_for_its_additions(rt: HostRuntime) -> Result<(), Fail> {
    let alloc = rt.alloc();
    let (mut points, mut stage, tree) = grown(alloc)?;
    assert_eq!(rt; tree.changes > 1, true);
    let mut named = Vec::new(alloc);
    named.push(0)?;
    assert_eq!(rt;
        key_tree_stands(alloc, &mut stage, &tree, points.as_slice(), &mut named),
        Ok(true)
    );
    assert_eq!(rt; named.len() > 10, true);
    points.as_mut_slice().reverse();
    assert_eq!(rt;
        key_tree_stands(alloc, &mut stage, &tree, points.as_slice(), &mut named),
        Ok(true)
    );
    Ok(())
}

// Whether the tree of the points stands for them where one is another.
fn stands_with(alloc: Global, other: Point) -> Result<bool, Fail> {
    let (mut points, mut stage, tree) = grown(alloc)?;
    if let Some(point) = points.get_mut(400) {
        *point = other;
    }
    let mut named = Vec::new(alloc);
    Ok(key_tree_stands(alloc, &mut stage, &tree, points.as_slice(), &mut named)?)
}

#[test]
fn a_key_tree_stands_for_no_other_points(rt: HostRuntime) -> Result<(), Fail> {
    let alloc = rt.alloc();
    let same = Point {
        keys: [400 * 7919 % 1009, 5, 0],
        version: 43,
        weight: 400u128.wrapping_neg(),
    };
    assert_eq!(rt; stands_with(alloc, same)?, true);
    assert_eq!(rt; stands_with(alloc, Point { weight: 7, ..same })?, false);
    assert_eq!(rt;
        stands_with(
            alloc,
            Point {
                version: 44,
                ..same
            }
        )?,
        false
    );
    let beside = Point {
        keys: [400 * 7919 % 1009 + 1, 0, 0],
        ..same
    };
    assert_eq!(rt; stands_with(alloc, beside)?, false);
    Ok(())
}

// Whether this tree stands for the points on the pages of theirs.
fn stands_as(
    alloc: Global,
    stage: &mut MemStage,
    tree: Tree,
    points: &[Point],
) -> Result<bool, Fail> {
    let mut named = Vec::new(alloc);
    Ok(key_tree_stands(alloc, stage, &tree, points, &mut named)?)
}

#[test]
fn other_key_trees_are_refused(rt: HostRuntime) -> Result<(), Fail> {
    let alloc = rt.alloc();
    let (points, mut stage, tree) = grown(alloc)?;
    for other in [
        Tree { levels: 3, ..tree },
        Tree { count: 601, ..tree },
        Tree {
            changes: 601,
            ..tree
        },
        Tree {
            root: tree.last,
            ..tree
        },
        Tree {
            last: tree.root,
            ..tree
        },
        Tree::default(),
    ] {
        assert_eq!(rt;
            stands_as(alloc, &mut stage, other, points.as_slice())?,
            false
        );
    }
    assert_eq!(rt;
        stands_as(alloc, &mut stage, tree, points.as_slice())?,
        true
    );
    assert_eq!(rt; stands_as(alloc, &mut stage, Tree::default(), &[])?, true);
    Ok(())
}
