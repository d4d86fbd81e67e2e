//! Points by hand: where they are cut, whether a tree may be built of them, and what a border keeps of them.
ghost use Rattle.std.specs.Prelude.{◌≤◌};

use bw_types::Point;
use cut_parts::{border_points, drop_key, may_be_built, median_cut};
use std::test::Fail;

// Where the regions of trees end, 2^64 - 2^32.
const END: u64 = 0xffff_ffff_0000_0000;

fn point(keys: [u64; 3], version: u32) -> Point {
    Point {
        keys,
        version,
        weight: 7,
    }
}

// Where the points are cut; nowhere where no tree may be built of them, or they are fewer than two.
fn cut_of(points: &mut [Point], dims: u8) -> Option<(u8, u64)>
    requires { (1 ≤ dims) × (dims ≤ 3) }
{
    if points.len() < 2 || !may_be_built(points, dims) {
        return None;
    }
    Some(median_cut(points, dims))
}

// The points lie 5 apart in dimension 0, and 9 apart in the other two.
#[test]
fn a_tie_takes_the_least_dimension(rt: HostRuntime) -> Result<(), Fail> {
    let mut points = [
        point([1, 10, 100], 1),
        point([6, 19, 109], 1),
        point([3, 12, 104], 1),
    ];
    assert!(rt; cut_of(&mut points, 1) == Some((0, 3)));
    assert!(rt; cut_of(&mut points, 2) == Some((1, 12)));
    assert!(rt; cut_of(&mut points, 3) == Some((1, 12)));
    assert!(rt;
        points[0].keys == [1, 10, 100]
            && points[1].keys == [3, 12, 104]
            && points[2].keys == [6, 19, 109]
    );
    Ok(())
}

#[test]
fn all_dimensions_tie(rt: HostRuntime) -> Result<(), Fail> {
    let mut points = [point([8, 1, 5], 1), point([4, 5, 1], 1)];
    assert!(rt; cut_of(&mut points, 3) == Some((0, 8)));
    assert!(rt; points[0].keys[0] == 4);
    Ok(())
}

#[test]
fn the_last_dimension_is_widest(rt: HostRuntime) -> Result<(), Fail> {
    let mut points = [
        point([40, 0, 7], 1),
        point([10, 1, 0], 1),
        point([30, 2, END - 1], 1),
        point([20, 3, 6], 1),
    ];
    assert!(rt; cut_of(&mut points, 3) == Some((2, 7)));
    assert!(rt; cut_of(&mut points, 2) == Some((0, 30)));
    assert!(rt;
        points[0].keys[0] == 10
            && points[1].keys[0] == 20
            && points[2].keys[0] == 30
            && points[3].keys[0] == 40
    );
    Ok(())
}

#[test]
fn no_two_share_a_key(rt: HostRuntime) -> Result<(), Fail> {
    let mut points = [
        point([1, 5, 0], 1),
        point([2, 6, 0], 1),
        point([3, 5, 0], 1),
    ];
    assert!(rt; may_be_built(&mut points, 1));
    assert!(rt; !may_be_built(&mut points, 2));
    assert!(rt; may_be_built(&mut [], 3));
    Ok(())
}

#[test]
fn keys_end_before_the_regions(rt: HostRuntime) -> Result<(), Fail> {
    let mut last = [point([END - 1, END, 0], 1)];
    assert!(rt; may_be_built(&mut last, 1));
    assert!(rt; !may_be_built(&mut last, 2));
    Ok(())
}

#[test]
fn versions_end_before_the_last(rt: HostRuntime) -> Result<(), Fail> {
    assert!(rt; may_be_built(&mut [point([0; 3], u32::MAX - 1)], 3));
    assert!(rt; !may_be_built(&mut [point([0; 3], u32::MAX)], 3));
    Ok(())
}

#[test]
fn keys_close_up(rt: HostRuntime) -> Result<(), Fail> {
    assert!(rt; drop_key(&[1, 2, 3], 0) == [2, 3, 0]);
    assert!(rt; drop_key(&[1, 2, 3], 1) == [1, 3, 0]);
    assert!(rt; drop_key(&[1, 2, 3], 2) == [1, 2, 0]);
    Ok(())
}

#[test]
fn points_of_a_border(rt: HostRuntime) -> Result<(), Fail> {
    let points = [point([1, 2, 3], 4), point([5, 6, 7], 8)];
    let made = border_points(rt.alloc(), &points, 1)?;
    assert!(rt;
        made.len() == 2 && made[0] == point([1, 3, 0], 4) && made[1] == point([5, 7, 0], 8)
    );
    let none = border_points(rt.alloc(), &[], 2)?;
    assert!(rt; none.is_empty());
    Ok(())
}
