//! Whole flows of commits and queries, as tables.
ghost use Rattle.std.specs.Prelude.{◌≡◌};
ghost use Rattle.bw_types.specs.Fits.{IsInRange};

use crate::fitting::rows_fit;
use bw_types::{Kind, Object, Params, Query, Reason, Refusal, Row, query_fits};
use std::process::Abort;
use std::test::Fail;
use warehouse::{ListFault, ListHouse, NoVersion};

const PLAIN: Params = Params {
    dims: 1,
    degree: None,
    events: 1000,
    pages: 1000,
    origin: 0,
};

fn commit(
    rt: &impl Abort,
    house: &mut ListHouse,
    params: &Params,
    rows: &[Row],
    want: Result<u32, ListFault>,
)
    requires in_range { IsInRange params.now }
    requires params { house.old.params ≡ params.now }
    ensures { house.new.params ≡ params.now }
{
    assert!(rt; rows_fit(params, rows));
    let got = house.commit(rows);
    assert_eq!(rt; got, want);
}

fn ask(
    rt: &impl Abort,
    house: &ListHouse,
    params: &Params,
    query: &Query,
    version: u32,
    want: Result<i128, NoVersion>,
)
    requires in_range { IsInRange params.now }
    requires params { house.now.params ≡ params.now }
{
    assert!(rt; query_fits(query, params));
    let got = house.query(query, version);
    assert_eq!(rt; got, want, "at version {version}");
}

fn interval(id: u64, low: u32, high: u32, weight: i64) -> Object {
    Object {
        id,
        low: [low, 0, 0],
        high: [high, 0, 0],
        weight,
        coeffs: [0; 27],
    }
}

fn over(kind: Kind, low: u32, high: u32) -> Query {
    Query {
        kind,
        low: [low, 0, 0],
        high: [high, 0, 0],
    }
}

fn refused(place: u32, reason: Reason) -> Result<u32, ListFault> {
    Err(ListFault::Refused(Refusal { place, reason }))
}

// An object that is added, moved, withdrawn and added anew, and batches that are refused.
#[test]
fn lives_of_one_id(rt: HostRuntime) -> Result<(), Fail> {
    let mut house = ListHouse::new(rt.alloc(), &PLAIN);
    assert_eq!(rt; house.last(), 0);
    commit(
        &rt,
        &mut house,
        &PLAIN,
        &[Row::Add(interval(1, 0, 9, 5))],
        Ok(1),
    );
    commit(
        &rt,
        &mut house,
        &PLAIN,
        &[Row::Move(interval(1, 20, 29, 5))],
        Ok(2),
    );
    commit(&rt, &mut house, &PLAIN, &[Row::Withdraw(1)], Ok(3));
    commit(
        &rt,
        &mut house,
        &PLAIN,
        &[Row::Add(interval(1, 0, 9, 7))],
        Ok(4),
    );
    let again = [
        Row::Withdraw(1),
        Row::Add(interval(1, 0, 1, 3)),
        Row::Withdraw(1),
    ];
    commit(&rt, &mut house, &PLAIN, &again, refused(3, Reason::Fresh));
    commit(
        &rt,
        &mut house,
        &PLAIN,
        &[Row::Move(interval(2, 0, 1, 1))],
        refused(1, Reason::Unknown),
    );
    commit(&rt, &mut house, &PLAIN, &again[..2], Ok(5));
    commit(&rt, &mut house, &PLAIN, &[], Ok(6));
    assert_eq!(rt; house.last(), 6);
    for (kind, version, low, high, want) in [
        (Kind::Sum, 0, 0, 9, Ok(0)),
        (Kind::Sum, 1, 0, 9, Ok(5)),
        (Kind::Sum, 2, 0, 9, Ok(0)),
        (Kind::Sum, 2, 25, 25, Ok(5)),
        (Kind::Sum, 3, 0, 99, Ok(0)),
        (Kind::Sum, 4, 0, 9, Ok(7)),
        (Kind::Sum, 5, 0, 9, Ok(3)),
        (Kind::Count, 3, 0, 99, Ok(0)),
        (Kind::Count, 4, 9, 9, Ok(1)),
        (Kind::Count, 5, 9, 9, Ok(0)),
        (Kind::Sum, 6, 1, 1, Ok(3)),
        (Kind::Sum, 7, 0, 9, Err(NoVersion { last: 6 })),
    ] {
        ask(&rt, &house, &PLAIN, &over(kind, low, high), version, want);
    }
    Ok(())
}

// A linear function over a box that crosses 0.
#[test]
fn integral_of_signed_coordinates(rt: HostRuntime) -> Result<(), Fail> {
    let signed = Params {
        degree: Some(2),
        origin: 2147483647,
        ..PLAIN
    };
    let mut coeffs = [0; 27];
    coeffs[1] = 1;
    let object = Object {
        coeffs,
        ..interval(1, 2147483644, 2147483649, 5)
    };
    let mut house = ListHouse::new(rt.alloc(), &signed);
    commit(&rt, &mut house, &signed, &[Row::Add(object)], Ok(1));
    ask(
        &rt,
        &house,
        &signed,
        &over(Kind::Integral, 2147483645, 2147483648),
        1,
        Ok(-9),
    );
    ask(
        &rt,
        &house,
        &signed,
        &over(Kind::Sum, 2147483638, 2147483644),
        1,
        Ok(5),
    );
    ask(
        &rt,
        &house,
        &signed,
        &over(Kind::Sum, 2147483638, 2147483643),
        1,
        Ok(0),
    );
    Ok(())
}

// The terms of the coefficients that are 0 pass 128 bits, and do not count.
#[test]
fn integral_over_the_greatest_box(rt: HostRuntime) -> Result<(), Fail> {
    let cube = Params {
        dims: 3,
        degree: Some(2),
        ..PLAIN
    };
    let mut coeffs = [0; 27];
    coeffs[26] = 1;
    let object = Object {
        id: 1,
        low: [0; 3],
        high: [1; 3],
        weight: 1,
        coeffs,
    };
    let whole = Query {
        kind: Kind::Integral,
        low: [0; 3],
        high: [4294967294; 3],
    };
    let mut house = ListHouse::new(rt.alloc(), &cube);
    commit(&rt, &mut house, &cube, &[Row::Add(object)], Ok(1));
    ask(&rt, &house, &cube, &whole, 1, Ok(8));
    Ok(())
}
