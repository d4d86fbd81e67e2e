//! Forests over lists of points, beside plain sums over the objects.
ghost use Rattle.std.specs.Prelude.{◌≡◌, ◌↔◌, IsTrue, length};
ghost use Rattle.bw_types.specs.Fits.{IsInRange};
ghost use Rattle.std.specs.List.{All};
ghost use Rattle.corner_forest.specs.Enters.{CanEnter};
ghost use Rattle.corner_forest.specs.Entries.{root_count as count_of_roots};

use bw_types::{Kind, Object, Params, Query, object_fits, query_fits};
use corner_forest::{Entry, Forest, below, count, enter, integral, root_count, sum};
use dom_index::PointList;
use ports::{MemStage, Stage, StageFault};
use std::alloc::Global;
use std::test::Fail;

// The params of so many dimensions, at most 3, and of this degree.
pub fn params_of(dims: u8, degree: Option<u8>) -> Params
    ensures { IsInRange result }
{
    Params {
        dims: dims.clamp(1, 3),
        degree: degree.map(|g| g.min(2)),
        events: 1000000,
        pages: 1048576,
        origin: 0,
    }
}

// Whether the forest can be asked and entered into.
fn is_sound(forest: &Forest) -> bool
    ensures range { IsTrue result → IsInRange forest.now.params }
    ensures roots { IsTrue result → length forest.now.roots.items ≡ count_of_roots forest.now.params }
{
    let params = &forest.params;
    if params.dims < 1 || params.dims > 3 {
        return false;
    }
    if params.degree.unwrap_or(0) > 2 {
        return false;
    }
    if params.events < 1 || params.events > 268435456 {
        return false;
    }
    if params.pages < 3 || params.pages > 4294967295 {
        return false;
    }
    if params.origin != 0 {
        return false;
    }
    forest.roots.len() == root_count(params)
}

pub fn object_of(low: [u32; 3], high: [u32; 3], weight: i64) -> Object {
    Object {
        id: 1,
        low,
        high,
        weight,
        coeffs: [0; 27],
    }
}

// A forest in memory. Events count from 0.
#[derive(Drop)]
pub struct Entered {
    alloc: Global,
    stage: MemStage,
    forest: Forest,
    event: u32,
}

pub fn empty(alloc: Global, params: &Params) -> Entered
    requires { IsInRange params.now }
{
    Entered {
        alloc,
        stage: MemStage::new(alloc, 4294967295),
        forest: Forest::new(params),
        event: 0,
    }
}

// Whether a forest for these params takes the entry.
fn takes(entry: &Entry, params: &Params) -> bool
    requires { IsInRange params.now }
    ensures { IsTrue result ↔ CanEnter params.now entry.now }
{
    if entry.event >= 268435456 {
        return false;
    }
    object_fits(&entry.object, params)
}

// Whether it takes each of them.
fn can_enter(batch: &[Entry], params: &Params) -> bool
    requires { IsInRange params.now }
    ensures { IsTrue result → All (CanEnter params.now) batch.now }
{
    batch.iter().all(|entry| takes(entry, params))
}

// Enters the batch, or refuses it for a limit of no page where the forest doesn't take it.
pub fn try_enter<S: Stage>(
    alloc: Global,
    stage: &mut S,
    forest: &mut Forest,
    batch: &[Entry],
    version: u32,
) -> Result<(), StageFault> {
    if version >= 1000000 || !is_sound(forest) || !can_enter(batch, &forest.params) {
        return Err(StageFault::PageLimit(0));
    }
    enter::<PointList, S>(alloc, stage, forest, batch, version)
}

pub fn put_all(entered: &mut Entered, batch: &[Entry], version: u32) -> bool {
    try_enter(
        entered.alloc,
        &mut entered.stage,
        &mut entered.forest,
        batch,
        version,
    )
    .is_ok()
}

pub fn put(entered: &mut Entered, object: &Object, minus: bool, version: u32) -> bool {
    let event = entered.event;
    entered.event = event.saturating_add(1);
    let entry = Entry {
        object: *object,
        minus,
        event,
    };
    put_all(entered, &[entry], version)
}

pub fn ask(entered: &mut Entered, query: &Query, version: u32) -> Option<i128> {
    if !is_sound(&entered.forest) || !query_fits(query, &entered.forest.params) {
        return None;
    }
    let stage = &mut entered.stage;
    let forest = &entered.forest;
    let answer = match query.kind {
        Kind::Sum => sum::<PointList, MemStage>(stage, forest, query, version),
        Kind::Count => count::<PointList, MemStage>(stage, forest, query, version),
        Kind::Integral => integral::<PointList, MemStage>(stage, forest, query, version),
    };
    answer.ok()
}

pub fn query_of(kind: Kind, low: [u32; 3], high: [u32; 3]) -> Query {
    Query { kind, low, high }
}

#[test]
fn touching_boxes_meet(rt: HostRuntime) -> Result<(), Fail> {
    let mut entered = empty(rt.alloc(), &params_of(1, None));
    let first = object_of([2, 0, 0], [5, 0, 0], 10);
    let second = object_of([5, 0, 0], [9, 0, 0], 7);
    assert!(rt; put(&mut entered, &first, false, 1));
    assert!(rt; put(&mut entered, &second, false, 1));
    assert!(rt; put(&mut entered, &first, true, 2));
    let five = query_of(Kind::Sum, [5, 0, 0], [5, 0, 0]);
    assert_eq!(rt; ask(&mut entered, &five, 0), Some(0));
    assert_eq!(rt; ask(&mut entered, &five, 1), Some(17));
    assert_eq!(rt; ask(&mut entered, &five, 2), Some(7));
    let six = query_of(Kind::Sum, [6, 0, 0], [6, 0, 0]);
    assert_eq!(rt; ask(&mut entered, &six, 1), Some(7));
    let below = query_of(Kind::Sum, [0, 0, 0], [1, 0, 0]);
    assert_eq!(rt; ask(&mut entered, &below, 1), Some(0));
    let all = query_of(Kind::Count, [0, 0, 0], [9, 0, 0]);
    assert_eq!(rt; ask(&mut entered, &all, 1), Some(2));
    assert_eq!(rt; ask(&mut entered, &all, 2), Some(1));
    Ok(())
}

#[test]
fn integrals_of_powers(rt: HostRuntime) -> Result<(), Fail> {
    let mut entered = empty(rt.alloc(), &params_of(1, Some(2)));
    let mut square = object_of([0, 0, 0], [3, 0, 0], 1);
    square.coeffs[2] = 1;
    assert!(rt; put(&mut entered, &square, false, 1));
    let part = query_of(Kind::Integral, [1, 0, 0], [2, 0, 0]);
    assert_eq!(rt; ask(&mut entered, &part, 1), Some(14));
    let mut plane = empty(rt.alloc(), &params_of(2, Some(1)));
    let mut product = object_of([0, 0, 0], [2, 2, 0], 1);
    product.coeffs[3] = 1;
    assert!(rt; put(&mut plane, &product, false, 1));
    let part = query_of(Kind::Integral, [1, 0, 0], [2, 1, 0]);
    assert_eq!(rt; ask(&mut plane, &part, 1), Some(27));
    Ok(())
}

// What is below a corner, modulo 2^128.
fn ask_below(entered: &mut Entered, at: [u32; 3], version: u32) -> Option<u128> {
    let point = Query {
        kind: Kind::Integral,
        low: at,
        high: at,
    };
    if !is_sound(&entered.forest) || !query_fits(&point, &entered.forest.params) {
        return None;
    }
    below::<PointList, MemStage>(&mut entered.stage, &entered.forest, &at, version).ok()
}

// The integral over a box of two dimensions, by what is below its four corners.
fn by_corners(entered: &mut Entered, query: &Query, version: u32) -> Option<i128> {
    let (low, high) = (query.low, query.high);
    let whole = ask_below(entered, high, version)?;
    let left = ask_below(entered, [low[0], high[1], 0], version)?;
    let under = ask_below(entered, [high[0], low[1], 0], version)?;
    let both = ask_below(entered, low, version)?;
    let total = whole
        .wrapping_sub(left)
        .wrapping_sub(under)
        .wrapping_add(both);
    Some(total.cast_signed())
}

#[test]
fn integrals_by_corners(rt: HostRuntime) -> Result<(), Fail> {
    let mut plane = empty(rt.alloc(), &params_of(2, Some(1)));
    let mut product = object_of([0, 0, 0], [2, 2, 0], 1);
    product.coeffs[3] = 1;
    let mut constant = object_of([0, 0, 0], [4, 4, 0], 1);
    constant.coeffs[0] = -1;
    assert!(rt; put(&mut plane, &product, false, 1));
    assert!(rt; put(&mut plane, &constant, false, 2));
    let part = query_of(Kind::Integral, [1, 1, 0], [3, 3, 0]);
    assert_eq!(rt; ask_below(&mut plane, [3, 3, 0], 1), Some(144));
    assert_eq!(rt; by_corners(&mut plane, &part, 1), Some(81));
    assert_eq!(rt; ask(&mut plane, &part, 1), Some(81));
    assert_eq!(rt; ask_below(&mut plane, [3, 3, 0], 2), Some(u128::MAX - 179));
    assert_eq!(rt; by_corners(&mut plane, &part, 2), Some(-63));
    assert_eq!(rt; ask(&mut plane, &part, 2), Some(-63));
    Ok(())
}

// One total tells both: the sum is right where the count is negative.
#[test]
fn entries_taken_out_alone(rt: HostRuntime) -> Result<(), Fail> {
    let mut entered = empty(rt.alloc(), &params_of(1, None));
    let light = object_of([1, 0, 0], [2, 0, 0], -1);
    let greatest = object_of([5, 0, 0], [7, 0, 0], i64::MAX);
    let least = object_of([6, 0, 0], [9, 0, 0], i64::MIN);
    assert!(rt; put(&mut entered, &light, true, 1));
    assert!(rt; put(&mut entered, &greatest, true, 2));
    assert!(rt; put(&mut entered, &least, false, 3));
    assert!(rt; put(&mut entered, &greatest, false, 4));
    assert!(rt; put(&mut entered, &least, true, 5));
    let sums = query_of(Kind::Sum, [0, 0, 0], [9, 0, 0]);
    let counts = query_of(Kind::Count, [0, 0, 0], [9, 0, 0]);
    assert_eq!(rt; ask(&mut entered, &sums, 1), Some(1));
    assert_eq!(rt; ask(&mut entered, &counts, 1), Some(-1));
    assert_eq!(rt; ask(&mut entered, &sums, 2), Some(-9223372036854775806));
    assert_eq!(rt; ask(&mut entered, &counts, 2), Some(-2));
    assert_eq!(rt; ask(&mut entered, &sums, 3), Some(-18446744073709551614));
    assert_eq!(rt; ask(&mut entered, &counts, 3), Some(-1));
    assert_eq!(rt; ask(&mut entered, &sums, 4), Some(-9223372036854775807));
    assert_eq!(rt; ask(&mut entered, &counts, 4), Some(0));
    assert_eq!(rt; ask(&mut entered, &sums, 5), Some(1));
    assert_eq!(rt; ask(&mut entered, &counts, 5), Some(-1));
    let upper = query_of(Kind::Sum, [6, 0, 0], [9, 0, 0]);
    assert_eq!(rt; ask(&mut entered, &upper, 3), Some(-18446744073709551615));
    assert_eq!(rt; ask(&mut entered, &upper, 5), Some(0));
    Ok(())
}

// Terms past 128 bits cancel.
#[test]
fn far_corners_cancel(rt: HostRuntime) -> Result<(), Fail> {
    let mut entered = empty(rt.alloc(), &params_of(3, Some(2)));
    let mut cube = object_of([0, 0, 0], [1, 1, 1], 1);
    cube.coeffs[26] = 1;
    assert!(rt; put(&mut entered, &cube, false, 1));
    let far = 4294967294;
    let all = query_of(Kind::Integral, [0, 0, 0], [far, far, far]);
    assert_eq!(rt; ask(&mut entered, &all, 1), Some(8));
    Ok(())
}
