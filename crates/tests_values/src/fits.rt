//! What fits the rules of a warehouse.
use bw_types::{Kind, Object, Params, Query, coefficient_count, object_fits, query_fits};
use std::test::Fail;

#[test]
fn tells_what_fits(rt: HostRuntime) -> Result<(), Fail> {
    let params = Params {
        dims: 1,
        degree: Some(1),
        events: Params::MOST_EVENTS,
        pages: Params::MOST_PAGES,
        origin: 0,
    };
    let mut object = Object {
        id: 1,
        low: [2, 0, 0],
        high: [4294967294, 0, 0],
        weight: -5,
        coeffs: [0; 27],
    };
    object.coeffs[1] = -7;
    assert_eq!(rt; coefficient_count(&params), 2);
    assert!(rt; object_fits(&object, &params));
    object.coeffs[2] = 1;
    assert!(rt; !object_fits(&object, &params));
    let query = Query {
        kind: Kind::Integral,
        low: [0; 3],
        high: [9; 3],
    };
    assert!(rt; query_fits(&query, &params));
    Ok(())
}
