//! Random histories, whose spans are set beside a sum over versions and objects, one after the other.
ghost use Rattle.bw_types.specs.Fits.{IsInRange};

use crate::spans::{asked_in, spans_of};
use crate::stored::{Stored, made, put};
use bw_types::{Kind, Object, Params, Query, Row, query_fits};
use page_disk::PlainDisk;
use std::alloc::{AllocError, Global};
use std::test::Fail;
use warehouse::House;

// How many versions a history has.
const VERSIONS: u32 = 9;

// The version before which an object counts that was never withdrawn.
const NEVER: u32 = 4294967295;

// An object that counts in the versions from `added` to before `ended`.
#[derive(Clone, Copy)]
struct Life {
    object: Object,
    added: u32,
    ended: u32,
}

// Params with plain and with signed coordinates. Spans leave out the degree.
const LINE: Params = Params {
    dims: 1,
    degree: None,
    events: 1000000,
    pages: 1048576,
    origin: 0,
};

const SIGNED_LINE: Params = Params {
    dims: 1,
    degree: Some(2),
    events: 1000000,
    pages: 1048576,
    origin: 2147483647,
};

const PLANE: Params = Params {
    dims: 2,
    degree: Some(1),
    events: 1000000,
    pages: 1048576,
    origin: 0,
};

const SIGNED_PLANE: Params = Params {
    dims: 2,
    degree: None,
    events: 1000000,
    pages: 1048576,
    origin: 2147483647,
};

const SPACE: Params = Params {
    dims: 3,
    degree: None,
    events: 1000000,
    pages: 1048576,
    origin: 0,
};

const SIGNED_SPACE: Params = Params {
    dims: 3,
    degree: Some(0),
    events: 1000000,
    pages: 1048576,
    origin: 2147483647,
};

fn draw(state: &mut u64, below: u32) -> u32 {
    *state = state
        .wrapping_mul(6364136223846793005)
        .wrapping_add(1442695040888963407);
    let upper = (*state >> 32) as u32;
    upper % below.max(1)
}

fn drawn_box(state: &mut u64, dims: usize) -> ([u32; 3], [u32; 3]) {
    let mut low = [0; 3];
    let mut high = [0; 3];
    for i in 0..3 {
        if i < dims {
            low[i] = draw(state, 12);
            high[i] = low[i].saturating_add(draw(state, 8));
        }
    }
    (low, high)
}

// Ends the life of the object with this id, if it counts now.
fn end_life(lives: &mut Vec<Life>, id: u64, version: u32) -> bool {
    let mut ended = false;
    for life in lives.as_mut_slice().iter_mut() {
        if life.object.id == id && life.ended == NEVER {
            life.ended = version;
            ended = true;
        }
    }
    ended
}

// The rows of a version: some of the ids begin to count, move or are withdrawn, and are used again later.
fn drawn_rows(
    alloc: Global,
    state: &mut u64,
    dims: usize,
    version: u32,
    lives: &mut Vec<Life>,
) -> Result<Vec<Row>, AllocError> {
    let mut rows = Vec::new(alloc);
    for id in 1..7u64 {
        let choice = draw(state, 4);
        if choice < 2 {
            let there = end_life(lives, id, version);
            if there && choice == 0 {
                rows.push(Row::Withdraw(id))?;
            } else {
                let (low, high) = drawn_box(state, dims);
                let object = Object {
                    id,
                    low,
                    high,
                    weight: i64::from(draw(state, 11)).saturating_sub(5),
                    coeffs: [0; 27],
                };
                lives.push(Life {
                    object,
                    added: version,
                    ended: NEVER,
                })?;
                let row = if there {
                    Row::Move(object)
                } else {
                    Row::Add(object)
                };
                rows.push(row)?;
            }
        }
    }
    Ok(rows)
}

fn do_meet(object: &Object, low: &[u32; 3], high: &[u32; 3]) -> bool {
    (object.low[0] <= high[0] && low[0] <= object.high[0])
        && (object.low[1] <= high[1] && low[1] <= object.high[1])
        && (object.low[2] <= high[2] && low[2] <= object.high[2])
}

// The sum over the versions, and in each over the objects that count.
fn plain_span(lives: &[Life], low: &[u32; 3], high: &[u32; 3], first: u32, last: u32) -> i128 {
    let mut total: i128 = 0;
    for version in first..last.saturating_add(1) {
        for life in lives {
            let counts = life.added <= version && version < life.ended;
            if counts && do_meet(&life.object, low, high) {
                total = total.wrapping_add(i128::from(life.object.weight));
            }
        }
    }
    total
}

// What the warehouse answers at a version.
fn sum_at(house: &mut Stored, low: [u32; 3], high: [u32; 3], version: u32) -> Option<i128> {
    let query = Query {
        kind: Kind::Sum,
        low,
        high,
    };
    if !query_fits(&query, &house.params()) {
        return None;
    }
    house.query(&query, version).ok()
}

// Whether the spans of a history that is drawn are the sums, at boxes that are drawn and between any two versions; and those of one version
// the answers of the warehouse.
fn agrees(alloc: Global, params: &Params, seed: u64) -> Result<bool, Fail>
    requires { IsInRange params.now }
{
    let mut state = seed;
    let dims = usize::from(params.dims);
    let mut lives = Vec::new(alloc);
    let mut house = made(alloc, params)?;
    for version in 1..VERSIONS + 1 {
        let rows = drawn_rows(alloc, &mut state, dims, version, &mut lives)?;
        match put(house, rows.as_slice()) {
            Some(more) => house = more,
            None => return Ok(false),
        }
    }
    let Some(mut spans) = spans_of(alloc, &mut house, PlainDisk::blank(alloc)) else {
        return Ok(false);
    };
    for _ in 0..3 {
        let (low, high) = drawn_box(&mut state, dims);
        for last in 0..VERSIONS + 1 {
            for first in 0..last + 1 {
                let plain = plain_span(lives.as_slice(), &low, &high, first, last);
                if asked_in(&mut spans, low, high, first, last) != Some(Ok(plain)) {
                    return Ok(false);
                }
            }
            let single = plain_span(lives.as_slice(), &low, &high, last, last);
            if sum_at(&mut house, low, high, last) != Some(single) {
                return Ok(false);
            }
        }
    }
    Ok(true)
}

// Whether that is so of eight histories.
fn all_agree(alloc: Global, params: &Params) -> Result<bool, Fail>
    requires { IsInRange params.now }
{
    for seed in 1..9u64 {
        if !agrees(alloc, params, seed)? {
            return Ok(false);
        }
    }
    Ok(true)
}

#[test]
fn random_intervals(rt: HostRuntime) -> Result<(), Fail> {
    assert!(rt; all_agree(rt.alloc(), &LINE)?);
    assert!(rt; all_agree(rt.alloc(), &SIGNED_LINE)?);
    Ok(())
}

#[test]
fn random_rectangles(rt: HostRuntime) -> Result<(), Fail> {
    assert!(rt; all_agree(rt.alloc(), &PLANE)?);
    assert!(rt; all_agree(rt.alloc(), &SIGNED_PLANE)?);
    Ok(())
}

#[test]
fn random_boxes(rt: HostRuntime) -> Result<(), Fail> {
    assert!(rt; all_agree(rt.alloc(), &SPACE)?);
    assert!(rt; all_agree(rt.alloc(), &SIGNED_SPACE)?);
    Ok(())
}
