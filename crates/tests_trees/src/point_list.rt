//! Lists of points in memory: their sums, their pages, and what is answered where a page is damaged.
ghost use Rattle.std.specs.Prelude.{◌<◌, ◌^◌, ◌-◌};
ghost use Rattle.dom_index.specs.Points.{AreKeysBelow};

use bw_types::{Point, Tree};
use dom_index::{DomIndex, PointList};
use ports::{MemStage, PageFault, StageFault};
use std::test::Fail;

// The greatest keys that a sum may ask for.
const GREATEST: u64 = 18446744069414584319;

// The point with this number at coordinates below 1000, from a version on.
fn point_at(x: u16, y: u16, number: u16, weight: u128) -> Point
    ensures keys { AreKeysBelow 2 result.keys }
    ensures version { result.version < 2 ^ 32 - 1 }
{
    let first = u64::from(x) * 4294967296 + u64::from(number);
    let second = u64::from(y) * 4294967296 + u64::from(number);
    Point {
        keys: [first, second, 0],
        version: u32::from(number),
        weight,
    }
}

fn sum_at(
    stage: &mut MemStage,
    tree: &Tree,
    x: u16,
    y: u16,
    version: u32,
) -> Result<u128, PageFault> {
    let keys = [
        u64::from(x) * 4294967296 + 4294967295,
        u64::from(y) * 4294967296 + 4294967295,
        0,
    ];
    PointList::sum(stage, 2, tree, &keys, version)
}

#[test]
fn sixty_five_points(rt: HostRuntime) -> Result<(), Fail> {
    let mut stage = MemStage::new(rt.alloc(), 100);
    let mut tree = Tree::default();
    for number in 0..65u16 {
        let point = point_at(number, number, number, 2);
        PointList::add(rt.alloc(), &mut stage, 2, &mut tree, &point)?;
        assert_eq!(rt; stage.allotted(), if number < 64 { 4 } else { 5 });
        assert_eq!(rt; tree.levels, 1);
    }
    assert_eq!(rt; tree.count, 65);
    let keys = [GREATEST, GREATEST, 0];
    assert_eq!(rt; PointList::sum(&mut stage, 2, &tree, &keys, 64), Ok(130));
    assert_eq!(rt; PointList::sum(&mut stage, 2, &tree, &keys, 9), Ok(20));
    assert_eq!(rt; sum_at(&mut stage, &tree, 9, 4, 64), Ok(10));
    assert_eq!(rt; sum_at(&mut stage, &tree, 0, 64, 64), Ok(2));
    assert_eq!(rt; sum_at(&mut stage, &Tree::default(), 9, 9, 9), Ok(0));
    Ok(())
}

#[test]
fn weights_cancel(rt: HostRuntime) -> Result<(), Fail> {
    let mut stage = MemStage::new(rt.alloc(), 100);
    let mut tree = Tree::default();
    PointList::add(rt.alloc(), &mut stage, 2, &mut tree, &point_at(3, 4, 1, 7))?;
    PointList::add(
        rt.alloc(),
        &mut stage,
        2,
        &mut tree,
        &point_at(3, 4, 2, 7u128.wrapping_neg()),
    )?;
    assert_eq!(rt; sum_at(&mut stage, &tree, 3, 4, 1), Ok(7));
    assert_eq!(rt; sum_at(&mut stage, &tree, 3, 4, 2), Ok(0));
    assert_eq!(rt; sum_at(&mut stage, &tree, 3, 3, 2), Ok(0));
    Ok(())
}

#[test]
fn damage_is_named(rt: HostRuntime) -> Result<(), Fail> {
    let mut stage = MemStage::new(rt.alloc(), 100);
    let mut tree = Tree {
        root: 50,
        levels: 1,
        count: 3,
        changes: 0,
        last: 0,
    };
    let point = point_at(1, 1, 65, 1);
    assert_eq!(rt;
        sum_at(&mut stage, &tree, 9, 9, 99),
        Err(PageFault::Damaged(50))
    );
    assert_eq!(rt;
        PointList::add(rt.alloc(), &mut stage, 2, &mut tree, &point),
        Err(StageFault::Damaged(50))
    );
    assert_eq!(rt; tree.count, 3);
    let mut full = Tree::default();
    full.count = 2147483648;
    assert_eq!(rt;
        PointList::add(rt.alloc(), &mut stage, 2, &mut full, &point),
        Err(StageFault::Damaged(0))
    );
    Ok(())
}

#[test]
fn the_limit_is_told(rt: HostRuntime) -> Result<(), Fail> {
    let mut stage = MemStage::new(rt.alloc(), 3);
    let mut tree = Tree::default();
    assert_eq!(rt;
        PointList::add(rt.alloc(), &mut stage, 2, &mut tree, &point_at(1, 1, 1, 1)),
        Err(StageFault::PageLimit(3))
    );
    assert_eq!(rt; tree, Tree::default());
    Ok(())
}

#[test]
fn a_list_over_three_dimensions(rt: HostRuntime) -> Result<(), Fail> {
    assert_eq!(rt; PointList::DIMS, 3);
    PointList::index_laws();
    Ok(())
}
