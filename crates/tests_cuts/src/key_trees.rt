//! A multiversion tree as a border over one dimension: three points in memory, and one more.
ghost use Rattle.cut_parts.specs.Borders.{MayBeBuilt};

use ba_tree::KeyTree;
use bw_types::{Point, Tree};
use cut_parts::BorderTree;
use ports::{MemStage, PageFault, Pages, blank_page};
use std::test::Fail;

// The latest point first. A border over one dimension counts by the first key alone.
fn three_points() -> [Point; 3]
    ensures { MayBeBuilt 1 result }
{
    [
        Point {
            keys: [5, 40, 1],
            version: 9,
            weight: 100,
        },
        Point {
            keys: [10, 30, 1],
            version: 5,
            weight: 3,
        },
        Point {
            keys: [20, 10, 1],
            version: 2,
            weight: 4,
        },
    ]
}

fn sum_at(stage: &mut MemStage, tree: &Tree, key: u32, version: u32) -> Result<u128, PageFault> {
    let keys = [u64::from(key), 0, 0];
    KeyTree::sum(stage, tree, &keys, version)
}

// Whether any page is in the stage's map.
fn has_pages(stage: &mut MemStage) -> bool {
    let mut bytes = blank_page();
    for page in 3..stage.allotted() {
        if stage.get(page, &mut bytes) != Err(PageFault::Damaged(page)) {
            return true;
        }
    }
    false
}

// Keys, versions and sums: of the three points, and with a fourth of weight 1000 at key 15 and version 9.
const THREE: [(u32, u32, u128); 11] = [
    (20, 1, 0),
    (19, 2, 0),
    (20, 2, 4),
    (20, 4, 4),
    (9, 5, 0),
    (10, 5, 3),
    (20, 5, 7),
    (5, 8, 0),
    (5, 9, 100),
    (15, 9, 103),
    (u32::MAX, u32::MAX, 107),
];

const FOUR: [(u32, u32, u128); 4] = [
    (15, 8, 3),
    (14, 9, 103),
    (15, 9, 1103),
    (u32::MAX, u32::MAX, 1107),
];

#[test]
fn three_points_and_one_more(rt: HostRuntime) -> Result<(), Fail> {
    let mut stage = MemStage::new(rt.alloc(), 20);
    let mut points = three_points();
    let mut tree = KeyTree::build(rt.alloc(), &mut stage, &mut points)?;
    for case in THREE {
        assert_eq!(rt; sum_at(&mut stage, &tree, case.0, case.1), Ok(case.2));
    }
    let fourth = Point {
        keys: [15, 20, 1],
        version: 9,
        weight: 1000,
    };
    KeyTree::add(rt.alloc(), &mut stage, &mut tree, &fourth)?;
    assert_eq!(rt; tree.count, 4);
    for case in FOUR {
        assert_eq!(rt; sum_at(&mut stage, &tree, case.0, case.1), Ok(case.2));
    }
    assert_eq!(rt; has_pages(&mut stage), true);
    KeyTree::drop_tree(&mut stage, &tree)?;
    assert_eq!(rt; has_pages(&mut stage), false);
    Ok(())
}

#[test]
fn a_border_of_one_dimension(rt: HostRuntime) -> Result<(), Fail> {
    assert_eq!(rt; KeyTree::DIMS, 1);
    KeyTree::border_laws();
    Ok(())
}
