//! The mass of an object.
ghost use Rattle.bw_types.specs.Fits.{IsInRange};

use bw_types::{Object, Params, object_fits};
use corner_weights::mass;
use std::test::Fail;

fn parabola(high: u32, middle: i64, last: i64) -> Object {
    let mut coeffs = [0; 27];
    coeffs[1] = middle;
    coeffs[2] = last;
    Object {
        id: 1,
        low: [0; 3],
        high: [high, 0, 0],
        weight: 0,
        coeffs,
    }
}

fn mass_of(object: &Object, params: &Params) -> Option<u128>
    requires { IsInRange params.now }
{
    if object_fits(object, params) {
        mass(object, params)
    } else {
        None
    }
}

#[test]
fn masses_of_boxes(rt: HostRuntime) -> Result<(), Fail> {
    let mut params = Params {
        dims: 1,
        degree: Some(2),
        events: Params::MOST_EVENTS,
        pages: Params::MOST_PAGES,
        origin: 0,
    };
    let rest = (1 << 126) - (1 << 94);
    assert_eq!(rt;
        mass_of(&parabola(2147483648, 0, 4294967295), &params),
        Some(rest)
    );
    assert_eq!(rt;
        mass_of(&parabola(1, 1, -1152921504606846974), &params),
        Some((1 << 61) - 1)
    );
    assert_eq!(rt; mass_of(&parabola(4294967294, 0, i64::MIN), &params), None);
    params.degree = None;
    assert_eq!(rt; mass_of(&parabola(9, 0, 0), &params), Some(0));
    Ok(())
}
