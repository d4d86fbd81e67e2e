//! Corners of boxes and of queries.
use bw_types::{Kind, Object, Query};
use corner_weights::{integral_corner, meet_corner, object_corner, sign};
use std::test::Fail;

#[test]
fn touching_boxes_have_corners(rt: HostRuntime) -> Result<(), Fail> {
    let object = Object {
        id: 1,
        low: [2, 3, 0],
        high: [5, 6, 0],
        weight: 1,
        coeffs: [0; 27],
    };
    let query = Query {
        kind: Kind::Sum,
        low: [5, 6, 0],
        high: [9, 9, 0],
    };
    assert_eq!(rt; object_corner(&object, 0), [2, 3, 0]);
    assert_eq!(rt; object_corner(&object, 2), [2, 6, 0]);
    assert_eq!(rt; object_corner(&object, 250), [2, 6, 0]);
    assert_eq!(rt;
        meet_corner(&query, 2, 0),
        Some([42949672959, 42949672959, 0])
    );
    assert_eq!(rt;
        meet_corner(&query, 2, 1),
        Some([21474836479, 42949672959, 0])
    );
    assert_eq!(rt;
        meet_corner(&query, 2, 2),
        Some([42949672959, 25769803775, 0])
    );
    assert_eq!(rt;
        meet_corner(&query, 2, 3),
        Some([21474836479, 25769803775, 0])
    );
    assert_eq!(rt; integral_corner(&query, 1, 1), [25769803775, 0, 0]);
    Ok(())
}

#[test]
fn nothing_is_below_zero(rt: HostRuntime) -> Result<(), Fail> {
    let query = Query {
        kind: Kind::Count,
        low: [1, 0, 0],
        high: [1, 7, 0],
    };
    assert_eq!(rt;
        meet_corner(&query, 2, 1),
        Some([4294967295, 34359738367, 0])
    );
    assert_eq!(rt; meet_corner(&query, 2, 2), None);
    assert_eq!(rt; sign(3, 7), 7);
    assert_eq!(rt; sign(2, 7), u128::MAX - 6);
    assert_eq!(rt; sign(250, 7), u128::MAX - 6);
    Ok(())
}
