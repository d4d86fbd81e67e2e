//! The dominance sum over two dimensions: a tree that is built in memory, and beside it a plain scan of its points.

use crate::trees::built::build_cuts;
use crate::trees::draws::Draws;
use anyhow::Result;
use ba_tree::{KeyTree, tree_sum};
use bw_types::{Point, Tree, point_key, query_key};
use ports::{MemStage, PageFault};
use std::alloc::{AllocError, Global};
use std::time::Instant;

const QUERIES: u32 = 10_000;

const SCANS: u32 = 200;

// The greatest coordinate.
const LAST: u32 = 4_294_967_294;

// Points at any coordinates, four of each version.
fn drawn_points(alloc: Global, count: u32) -> Result<Vec<Point>, AllocError> {
    let mut draws = Draws::new(3);
    let mut points = Vec::new(alloc);
    for number in 0..count {
        points.push(Point {
            keys: [
                point_key(draws.draw().min(LAST), number),
                point_key(draws.draw().min(LAST), number),
                0,
            ],
            version: number / 4,
            weight: u128::from(draws.draw()),
        })?;
    }
    Ok(points)
}

// Coordinates and a version.
#[derive(Clone, Copy)]
struct Sought {
    first: u32,
    second: u32,
    version: u32,
}

// Coordinates and a version among those of so many points.
fn drawn_query(draws: &mut Draws, count: u32) -> Sought {
    Sought {
        first: draws.draw(),
        second: draws.draw(),
        version: draws.draw() % (count / 4).saturating_add(1),
    }
}

fn sum_in_tree(stage: &mut MemStage, tree: &Tree, sought: Sought) -> Result<u128, PageFault> {
    let keys = [
        query_key(sought.first.min(LAST)),
        query_key(sought.second.min(LAST)),
        0,
    ];
    tree_sum::<KeyTree, MemStage>(stage, tree, &keys, sought.version)
}

fn sums_in_tree(
    stage: &mut MemStage,
    tree: &Tree,
    count: u32,
    queries: u32,
) -> Result<u128, PageFault> {
    let mut draws = Draws::new(4);
    let mut total = 0_u128;
    for _ in 0..queries {
        let sought = drawn_query(&mut draws, count);
        total = total.wrapping_add(sum_in_tree(stage, tree, sought)?);
    }
    Ok(total)
}

fn plain_sum(points: &[Point], sought: Sought) -> u128 {
    let first = query_key(sought.first.min(LAST));
    let second = query_key(sought.second.min(LAST));
    let mut total = 0_u128;
    for point in points {
        if point.keys[0] <= first && point.keys[1] <= second && point.version <= sought.version {
            total = total.wrapping_add(point.weight);
        }
    }
    total
}

fn plain_sums(points: &[Point], count: u32, queries: u32) -> u128 {
    let mut draws = Draws::new(4);
    let mut total = 0_u128;
    for _ in 0..queries {
        let sought = drawn_query(&mut draws, count);
        total = total.wrapping_add(plain_sum(points, sought));
    }
    total
}

// At how many of the queries the tree has the plain sum.
fn same_sums(stage: &mut MemStage, tree: &Tree, points: &[Point], count: u32, queries: u32) -> u32 {
    let mut draws = Draws::new(4);
    let mut same = 0_u32;
    for _ in 0..queries {
        let sought = drawn_query(&mut draws, count);
        if sum_in_tree(stage, tree, sought) == Ok(plain_sum(points, sought)) {
            same = same.saturating_add(1);
        }
    }
    same
}

/// Prints at how many keys and versions the tree of 1,000 points and the plain sum agree.
pub fn compare_points(rt: &HostRuntime) -> Result<()> {
    let mut stage = MemStage::new(rt.alloc(), 4294967295);
    let mut points = drawn_points(rt.alloc(), 1000)?;
    let built = build_cuts::<KeyTree, MemStage>(rt, &mut stage, points.as_mut_slice())?;
    let same = same_sums(&mut stage, &built.tree, points.as_slice(), 1000, 500);
    println!(rt;
        "1000 points in two dimensions, {} pages, the plain sum at {same} keys of 500",
        stage.allotted() - 3
    )?;
    Ok(())
}

// So many nanoseconds for each, as microseconds with a hundredth.
fn microseconds(nanoseconds: u128, each: u64) -> (u128, u128) {
    let hundredths = nanoseconds / u128::from(each.max(1)) / 10;
    (hundredths / 100, hundredths % 100)
}

/// Prints what a sum over so many points costs, and what the same sum costs by a scan.
pub fn measure_points(rt: &HostRuntime, count: u32) -> Result<()> {
    let mut stage = MemStage::new(rt.alloc(), 4294967295);
    let mut points = drawn_points(rt.alloc(), count)?;
    let built = build_cuts::<KeyTree, MemStage>(rt, &mut stage, points.as_mut_slice())?;
    let tree = built.tree;
    println!(rt;
        "{count} points: built in {} microseconds, {} pages",
        built.took / 1000,
        stage.allotted() - 3
    )?;
    let before = stage.gets();
    let start = Instant::now(rt)?;
    let read = sums_in_tree(&mut stage, &tree, count, QUERIES).is_ok();
    let took = start.elapsed(rt)?.as_nanos();
    let gets = stage.gets().saturating_sub(before);
    let (whole, part) = microseconds(took, u64::from(QUERIES));
    let (each, each_part) = microseconds(took, gets);
    println!(rt;
        "{QUERIES} sums: all read {read}, {whole}.{part:02} microseconds a sum, {} gets in 100, {each}.{each_part:02} microseconds a get",
        gets.saturating_mul(100) / u64::from(QUERIES)
    )?;
    let start = Instant::now(rt)?;
    let total = plain_sums(points.as_slice(), count, SCANS);
    let took = start.elapsed(rt)?.as_nanos();
    let (whole, part) = microseconds(took, u64::from(SCANS));
    let same = sums_in_tree(&mut stage, &tree, count, SCANS) == Ok(total);
    println!(rt; "scans of an array: {whole}.{part:02} microseconds a sum, the same total {same}")?;
    Ok(())
}
