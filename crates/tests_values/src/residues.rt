//! Numbers modulo 2 to the 128th, and keys.
use bw_types::{point_key, query_key, res_add, res_mul, res_neg, res_of, res_signed};
use std::test::Fail;

#[test]
fn wraps_around(rt: HostRuntime) -> Result<(), Fail> {
    assert_eq!(rt; res_add(u128::MAX, 2), 1);
    assert_eq!(rt; res_mul(u128::MAX, u128::MAX), 1);
    assert_eq!(rt; res_neg(1), u128::MAX);
    assert_eq!(rt; res_of(-2), u128::MAX - 1);
    assert_eq!(rt; res_signed(u128::MAX), -1);
    assert_eq!(rt; point_key(2, 3), 8589934595);
    assert_eq!(rt; query_key(0), 4294967295);
    Ok(())
}
