//! Trees that are built of points: their sums beside plain sums over the points, and what building costs.
ghost use Rattle.std.specs.Prelude.{◌≡◌, ◌≤◌, ◌<◌, ◌-◌, ◌^◌, suc};
ghost use Rattle.std.specs.List.{All};

use crate::trees::draws::Draws;
use crate::trees::measured::{hundredths, rate};
use crate::trees::put_count::{ByKind, PutCount};
use anyhow::{Result, bail};
use ba_tree::{KeyTree, PlaneTree, build, collect, drop_tree, tree_sum};
use bw_types::{Point, Tree};
use cut_parts::{BorderTree, may_be_built};
use ports::{MemStage, PageFault, Pages, Stage, blank_page};
use std::alloc::{AllocError, Global};
use std::time::Instant;

const POINTS: u32 = 5000;

const PLACES: u32 = 1000;

// Where the keys of points and queries end.
const KEY_END: u64 = 0xffff_ffff_0000_0000;

// How points lie.
#[derive(Clone, Copy)]
enum Kind {
    Random,
    Line,
    Cluster,
}

fn name_of(kind: Kind) -> &'static str {
    match kind {
        Kind::Random => "random points",
        Kind::Line => "points on a line",
        Kind::Cluster => "points in a cluster",
    }
}

// The key of the point of this number in a dimension. Up to 1,048,576 points have different keys there, and in a cluster up to
// 5,003, which is a prime number.
fn key_of(kind: Kind, draws: &mut Draws, number: u32, dimension: usize) -> u64 {
    let number = u64::from(number);
    match kind {
        Kind::Random => u64::from(draws.draw()) * 1048576 + number % 1048576,
        Kind::Line => number * 1000 + dimension.min(2) as u64,
        Kind::Cluster => 1000000000 + number * [1753, 2749, 3571][dimension.min(2)] % 5003,
    }
}

// Points of this kind at any versions. The sums of their weights go past `2^128`.
fn points_of(alloc: Global, kind: Kind, dims: u8, count: u32) -> Result<Vec<Point>, AllocError> {
    let mut draws = Draws::new(5);
    let mut points = Vec::new(alloc);
    for number in 0..count {
        let mut keys = [0; 3];
        for dimension in 0..usize::from(dims.min(3)) {
            keys[dimension] = key_of(kind, &mut draws, number, dimension);
        }
        points.push(Point {
            keys,
            version: draws.draw() % (count / 4).saturating_add(1),
            weight: u128::MAX / 9 + u128::from(draws.draw()),
        })?;
    }
    Ok(points)
}

// The number of dimensions of trees of cuts with these borders.
fn dims_above<B: BorderTree>() -> u8
    ensures is { result ≡ suc B.DIMS }
    ensures few { result ≤ 3 }
{
    B::border_laws();
    B::DIMS + 1
}

/// A tree, and the nanoseconds that building it took.
#[derive(Clone, Copy)]
pub struct Built {
    pub tree: Tree,
    pub took: u128,
}

/// Builds a tree of cuts of the points, once they have passed the test that one may be built of them. The test is not measured.
pub fn build_cuts<B: BorderTree, S: Stage>(
    rt: &HostRuntime,
    stage: &mut S,
    points: &mut [Point],
) -> Result<Built> {
    if !may_be_built(points, dims_above::<B>()) {
        bail!("points that share a key");
    }
    let start = Instant::now(rt)?;
    let tree = build::<B, S>(rt.alloc(), stage, points)?;
    let took = start.elapsed(rt)?.as_nanos();
    Ok(Built { tree, took })
}

// The same of a multiversion tree, over the first dimension alone.
fn build_keys<S: Stage>(rt: &HostRuntime, stage: &mut S, points: &mut [Point]) -> Result<Built> {
    if !may_be_built(points, 1) {
        bail!("points that share a key");
    }
    let start = Instant::now(rt)?;
    let tree = KeyTree::build(rt.alloc(), stage, points)?;
    let took = start.elapsed(rt)?.as_nanos();
    Ok(Built { tree, took })
}

// The key of any of the points, or the one before or after it.
fn key_near(draws: &mut Draws, points: &[Point], dimension: usize) -> u64
    ensures { result < 2 ^ 64 - 2 ^ 32 }
{
    let place = draws.draw() as usize % points.len().max(1);
    let aside = u64::from(draws.draw() % 3);
    match points.get(place) {
        Some(point) => (point.keys[dimension.min(2)].saturating_add(aside))
            .saturating_sub(1)
            .min(KEY_END - 1),
        None => 0,
    }
}

fn keys_near(draws: &mut Draws, points: &[Point]) -> [u64; 3]
    ensures { All (λ key. key < 2 ^ 64 - 2 ^ 32) result }
{
    [
        key_near(draws, points, 0),
        key_near(draws, points, 1),
        key_near(draws, points, 2),
    ]
}

// The sum of the points at or below the keys and at or before the version, one by one.
fn plain_sum(points: &[Point], dims: u8, keys: &[u64; 3], version: u32) -> u128 {
    let mut total = 0_u128;
    for point in points {
        if point.keys[0] <= keys[0]
            && point.keys[1] <= keys[1]
            && (dims < 3 || point.keys[2] <= keys[2])
            && point.version <= version
        {
            total = total.wrapping_add(point.weight);
        }
    }
    total
}

// Whether the tree has the plain sum at 1,000 keys and versions.
fn sums_agree<B: BorderTree>(stage: &mut MemStage, tree: &Tree, points: &[Point]) -> bool {
    let mut draws = Draws::new(6);
    for _ in 0..PLACES {
        let keys = keys_near(&mut draws, points);
        let version = draws.draw() % (POINTS / 4 + 1);
        let sum = plain_sum(points, dims_above::<B>(), &keys, version);
        if tree_sum::<B, MemStage>(stage, tree, &keys, version) != Ok(sum) {
            return false;
        }
    }
    true
}

// Whether the tree has the points, each once.
fn are_collected<B: BorderTree>(
    alloc: Global,
    stage: &mut MemStage,
    tree: &Tree,
    points: &mut [Point],
) -> Result<bool> {
    let mut collected = collect::<B, MemStage>(alloc, stage, tree)?;
    collected.sort_unstable_by_key(|point| point.keys[0]);
    points.sort_unstable_by_key(|point| point.keys[0]);
    Ok(collected.as_slice() == points)
}

fn holds_no_page(stage: &mut MemStage) -> bool {
    let mut bytes = blank_page();
    for page in 3..stage.allotted() {
        if stage.get(page, &mut bytes) != Err(PageFault::Damaged(page)) {
            return false;
        }
    }
    true
}

// Prints whether the tree of 5,000 points has the plain sums and the points, and whether no page is left once it is dropped.
fn compare_kind<B: BorderTree>(rt: &HostRuntime, kind: Kind) -> Result<()> {
    let dims = dims_above::<B>();
    let mut points = points_of(rt.alloc(), kind, dims, POINTS)?;
    let mut stage = MemStage::new(rt.alloc(), 4294967295);
    let tree = build_cuts::<B, MemStage>(rt, &mut stage, points.as_mut_slice())?.tree;
    let agree = sums_agree::<B>(&mut stage, &tree, points.as_slice());
    let collected = are_collected::<B>(rt.alloc(), &mut stage, &tree, points.as_mut_slice())?;
    drop_tree::<B, MemStage>(&mut stage, &tree)?;
    let empty = holds_no_page(&mut stage);
    println!(rt;
        "{POINTS} {}, {dims} dimensions: {}, {}, {}",
        name_of(kind),
        if agree { "sums agree" } else { "sums differ" },
        if collected {
            "collected"
        } else {
            "not collected"
        },
        if empty { "no page left" } else { "pages left" }
    )?;
    Ok(())
}

/// Prints of each kind of points, in two and in three dimensions, whether their tree has the plain sums and the points, and
/// whether no page is left of it.
pub fn compare_built(rt: &HostRuntime) -> Result<()> {
    let kinds = [Kind::Random, Kind::Line, Kind::Cluster];
    for kind in kinds {
        compare_kind::<KeyTree>(rt, kind)?;
    }
    for kind in kinds {
        compare_kind::<PlaneTree>(rt, kind)?;
    }
    Ok(())
}

// The pages of the stage.
fn pages_in(stage: &mut MemStage) -> ByKind {
    let mut pages = ByKind::default();
    let mut bytes = blank_page();
    for page in 3..stage.allotted() {
        if stage.get(page, &mut bytes).is_ok() {
            pages.count(&bytes);
        }
    }
    pages
}

/// Prints how many of so many random points are built a second, how many pages each takes, and how often a page is put: one of
/// cuts or points, and a node that additions make. Over one dimension the tree is a multiversion tree, else one of cuts.
pub fn measure_build(rt: &HostRuntime, count: u32, dims: u8) -> Result<()>
    requires { (1 ≤ dims) × (dims ≤ 3) }
{
    let mut points = points_of(rt.alloc(), Kind::Random, dims, count)?;
    let mut stage = PutCount {
        stage: MemStage::new(rt.alloc(), 4294967295),
        puts: ByKind::default(),
    };
    let points = points.as_mut_slice();
    let took = match dims {
        1 => build_keys(rt, &mut stage, points)?.took,
        2 => build_cuts::<KeyTree, PutCount<MemStage>>(rt, &mut stage, points)?.took,
        _ => build_cuts::<PlaneTree, PutCount<MemStage>>(rt, &mut stage, points)?.took,
    };
    let each = hundredths(stage.stage.allotted() - 3, u64::from(count));
    let pages = pages_in(&mut stage.stage);
    let regions = hundredths(stage.puts.regions, pages.regions);
    let nodes = hundredths(stage.puts.nodes, pages.nodes);
    println!(rt;
        "{count} points, {dims} {}: {} points built a second, {}.{:02} pages a point",
        if dims == 1 { "dimension" } else { "dimensions" },
        rate(count, took),
        each / 100,
        each % 100
    )?;
    println!(rt;
        "{} pages of cuts and points, each put {}.{:02} times; {} nodes of additions, each put {}.{:02} times",
        pages.regions,
        regions / 100,
        regions % 100,
        pages.nodes,
        nodes / 100,
        nodes % 100
    )?;
    Ok(())
}
