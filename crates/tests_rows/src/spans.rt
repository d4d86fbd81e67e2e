//! A warehouse in memory, and the spans that are derived from it.

use crate::stored::{Stored, made, put};
use bw_types::{Kind, Object, Params, Query, Row, query_fits};
use dom_index::PointList;
use page_disk::{Disk, PlainDisk};
use page_space::OpenFault;
use span_planes::{Derived, Spans, derive};
use std::alloc::Global;
use std::test::Fail;
use warehouse::QueryFault;

pub(crate) type Kept = Spans<PlainDisk, PointList>;

pub(crate) const LINE: Params = Params {
    dims: 1,
    degree: Some(1),
    events: 1000000,
    pages: 1048576,
    origin: 0,
};

fn object(id: u64, low: u32, high: u32, weight: i64) -> Object {
    Object {
        id,
        low: [low, 0, 0],
        high: [high, 0, 0],
        weight,
        coeffs: [0; 27],
    }
}

// Two boxes, one of which is withdrawn in the second version.
pub(crate) fn two_versions(alloc: Global) -> Result<Option<Stored>, OpenFault> {
    let first = [Row::Add(object(1, 2, 5, 10)), Row::Add(object(2, 5, 9, 7))];
    let house = put(made(alloc, &LINE)?, &first);
    Ok(house.and_then(|house| put(house, &[Row::Withdraw(1)])))
}

// The answer of spans to a box from the one version to the other.
pub(crate) fn asked_in<E: Disk>(
    spans: &mut Spans<E, PointList>,
    low: [u32; 3],
    high: [u32; 3],
    first: u32,
    last: u32,
) -> Option<Result<i128, QueryFault>> {
    let query = Query {
        kind: Kind::Sum,
        low,
        high,
    };
    if first > last || !query_fits(&query, &spans.params()) {
        return None;
    }
    Some(spans.query(&query, first, last))
}

// The same on a line.
pub(crate) fn asked<E: Disk>(
    spans: &mut Spans<E, PointList>,
    low: u32,
    high: u32,
    first: u32,
    last: u32,
) -> Option<Result<i128, QueryFault>> {
    asked_in(spans, [low, 0, 0], [high, 0, 0], first, last)
}

// The spans of a warehouse.
pub(crate) fn spans_of(alloc: Global, house: &mut Stored, second: PlainDisk) -> Option<Kept> {
    match derive(alloc, house, second) {
        Derived::Done { second, version: _ } => Spans::open_on(alloc, second).ok(),
        _ => None,
    }
}

#[test]
fn a_span_is_the_sum_of_its_versions(rt: HostRuntime) -> Result<(), Fail> {
    let house = two_versions(rt.alloc())?;
    assert!(rt; house.is_some());
    if let Some(mut house) = house {
        let spans = spans_of(rt.alloc(), &mut house, PlainDisk::blank(rt.alloc()));
        assert!(rt; spans.is_some());
        if let Some(mut spans) = spans {
            assert_eq!(rt; spans.last(), 2);
            assert_eq!(rt; asked(&mut spans, 5, 5, 1, 2), Some(Ok(24)));
            assert_eq!(rt; asked(&mut spans, 6, 6, 0, 2), Some(Ok(14)));
            assert_eq!(rt; asked(&mut spans, 5, 5, 1, 1), Some(Ok(17)));
            assert_eq!(rt; asked(&mut spans, 5, 5, 2, 2), Some(Ok(7)));
            assert_eq!(rt; asked(&mut spans, 0, 1, 0, 2), Some(Ok(0)));
            assert_eq!(rt;
                asked(&mut spans, 5, 5, 1, 3),
                Some(Err(QueryFault::NoVersion(2)))
            );
            // Spans are no place for spans.
            let again = derive(rt.alloc(), &mut house, spans.into_disk());
            assert!(rt; matches!(again, Derived::AlreadyThere(_)));
        }
    }
    Ok(())
}

#[test]
fn spans_of_no_version_are_made_anew(rt: HostRuntime) -> Result<(), Fail> {
    let mut house = made(rt.alloc(), &LINE)?;
    let spans = spans_of(rt.alloc(), &mut house, PlainDisk::blank(rt.alloc()));
    assert!(rt; spans.is_some());
    if let Some(mut spans) = spans {
        assert_eq!(rt; asked(&mut spans, 0, 9, 0, 0), Some(Ok(0)));
        let house = two_versions(rt.alloc())?;
        assert!(rt; house.is_some());
        if let Some(mut house) = house {
            let more = spans_of(rt.alloc(), &mut house, spans.into_disk());
            assert!(rt; more.is_some());
            if let Some(mut more) = more {
                assert_eq!(rt; asked(&mut more, 5, 5, 1, 2), Some(Ok(24)));
            }
        }
    }
    Ok(())
}

#[test]
fn a_warehouse_is_no_place_for_spans(rt: HostRuntime) -> Result<(), Fail> {
    let mut house = made(rt.alloc(), &LINE)?;
    let other = two_versions(rt.alloc())?;
    assert!(rt; other.is_some());
    if let Some(other) = other {
        let derived = derive(rt.alloc(), &mut house, other.into_disk());
        assert!(rt; matches!(derived, Derived::AlreadyThere(_)));
    }
    Ok(())
}
