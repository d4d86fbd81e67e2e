//! Additions and values of multiversion trees, with the pages that they get and put, and beside them a scan
//! of the same points in a sorted array.

use crate::trees::draws::Draws;
use crate::trees::measured::{hundredths, rate};
use crate::trees::put_count::{ByKind, PutCount};
use anyhow::{Result, bail};
use bw_types::Tree;
use mvsb_tree::{mv_add, mv_value};
use ports::{MemStage, PageFault, StageFault};
use std::alloc::{AllocError, Global};
use std::time::Instant;

const QUERIES: u32 = 100_000;

const SCANNED: usize = 20;

const ROUNDS: u32 = 5;

/// In which order keys come.
#[derive(Clone, Copy, PartialEq, Eq, Debug)]
pub enum Keys {
    Random,
    Rising,
}

// A key and a version, and what is added from them on.
#[derive(Clone, Copy)]
struct Keyed {
    key: u64,
    version: u32,
    value: u32,
}

// The versions rise, four additions to each.
fn drawn(draws: &mut Draws, keys: Keys, number: u32) -> Keyed {
    Keyed {
        key: match keys {
            Keys::Random => u64::from(draws.draw()),
            Keys::Rising => u64::from(number),
        },
        version: number / 4,
        value: draws.draw(),
    }
}

// A key and a version among those of so many additions; nothing is added.
fn asked(draws: &mut Draws, keys: Keys, additions: u32) -> Keyed {
    Keyed {
        key: match keys {
            Keys::Random => u64::from(draws.draw()),
            Keys::Rising => u64::from(draws.draw() % additions.max(1)),
        },
        version: draws.draw() % (additions / 4).saturating_add(1),
        value: 0,
    }
}

// The most gets and the most puts of one addition.
#[derive(Clone, Copy, Default)]
struct Most {
    gets: u64,
    puts: u64,
}

fn add_all(
    stage: &mut PutCount<MemStage>,
    tree: &mut Tree,
    keys: Keys,
    additions: u32,
) -> Result<Most, StageFault> {
    let mut draws = Draws::new(1);
    let mut most = Most::default();
    for number in 0..additions {
        let new = drawn(&mut draws, keys, number);
        let (gets, puts) = (stage.stage.gets(), stage.puts.nodes);
        mv_add(stage, tree, new.key, number / 4, u128::from(new.value))?;
        most.gets = most.gets.max(stage.stage.gets().saturating_sub(gets));
        most.puts = most.puts.max(stage.puts.nodes.saturating_sub(puts));
    }
    Ok(most)
}

fn value_all(
    stage: &mut MemStage,
    tree: &Tree,
    keys: Keys,
    additions: u32,
) -> Result<u128, PageFault> {
    let mut draws = Draws::new(2);
    let mut total = 0_u128;
    for _ in 0..QUERIES {
        let at = asked(&mut draws, keys, additions);
        total = total.wrapping_add(mv_value(stage, tree, at.key, at.version)?);
    }
    Ok(total)
}

// The first values again, one by one.
fn first_values(
    stage: &mut MemStage,
    tree: &Tree,
    keys: Keys,
    additions: u32,
) -> Result<[u128; SCANNED], PageFault> {
    let mut draws = Draws::new(2);
    let mut values = [0; SCANNED];
    for place in 0..SCANNED {
        let at = asked(&mut draws, keys, additions);
        values[place] = mv_value(stage, tree, at.key, at.version)?;
    }
    Ok(values)
}

// The levels of the directory and of the newest root: what a value of the newest version gets.
fn height(stage: &mut MemStage, tree: &Tree, additions: u32) -> Result<u64, PageFault> {
    let before = stage.gets();
    mv_value(stage, tree, u64::MAX, additions / 4)?;
    Ok(stage.gets().saturating_sub(before))
}

fn sorted(alloc: Global, keys: Keys, additions: u32) -> Result<Vec<Keyed>, AllocError> {
    let mut draws = Draws::new(1);
    let mut points = Vec::new(alloc);
    for number in 0..additions {
        points.push(drawn(&mut draws, keys, number))?;
    }
    points.sort_unstable_by_key(|point| point.key);
    Ok(points)
}

fn scan(points: &[Keyed], at: Keyed) -> u128 {
    let mut total = 0_u128;
    for point in points {
        if point.key > at.key {
            return total;
        }
        if point.version <= at.version {
            total = total.wrapping_add(u128::from(point.value));
        }
    }
    total
}

fn scanned(points: &[Keyed], keys: Keys, additions: u32) -> [u128; SCANNED] {
    let mut draws = Draws::new(2);
    let mut values = [0; SCANNED];
    for place in 0..SCANNED {
        values[place] = scan(points, asked(&mut draws, keys, additions));
    }
    values
}

fn total_of(values: &[u128; SCANNED]) -> u128 {
    let mut total = 0_u128;
    for place in 0..SCANNED {
        total = total.wrapping_add(values[place]);
    }
    total
}

fn print_additions(
    rt: &HostRuntime,
    stage: &mut PutCount<MemStage>,
    tree: &mut Tree,
    keys: Keys,
    additions: u32,
) -> Result<()> {
    let start = Instant::now(rt)?;
    let added = add_all(stage, tree, keys, additions);
    let took = start.elapsed(rt)?.as_nanos();
    let most = added.unwrap_or_default();
    println!(rt;
        "{additions} additions, {keys:?} keys: all made {}, {} a second, {} pages, {} gets and {} puts in 100, at most {} and {} in one",
        added.is_ok(),
        rate(additions, took),
        stage.stage.allotted() - 3,
        hundredths(stage.stage.gets(), u64::from(additions)),
        hundredths(stage.puts.nodes, u64::from(additions)),
        most.gets,
        most.puts
    )?;
    if added.is_err() {
        bail!("an addition was refused");
    }
    Ok(())
}

fn print_values(
    rt: &HostRuntime,
    stage: &mut MemStage,
    tree: &Tree,
    keys: Keys,
    additions: u32,
) -> Result<()> {
    let before = stage.gets();
    let start = Instant::now(rt)?;
    let read = value_all(stage, tree, keys, additions).is_ok();
    let took = start.elapsed(rt)?.as_nanos();
    let gets = stage.gets().saturating_sub(before);
    let levels = height(stage, tree, additions);
    println!(rt;
        "{QUERIES} values: all read {read}, {} a second, {} gets in 100, {} nanoseconds a get; {} levels, {} of them the directory's",
        rate(QUERIES, took),
        hundredths(gets, u64::from(QUERIES)),
        took / u128::from(gets.max(1)),
        levels.unwrap_or(0),
        tree.levels
    )?;
    if !read || levels.is_err() {
        bail!("a value was refused");
    }
    Ok(())
}

fn print_scans(
    rt: &HostRuntime,
    stage: &mut MemStage,
    tree: &Tree,
    keys: Keys,
    additions: u32,
) -> Result<()> {
    let points = sorted(rt.alloc(), keys, additions)?;
    let mut values = [0; SCANNED];
    let start = Instant::now(rt)?;
    for _ in 0..ROUNDS {
        values = scanned(points.as_slice(), keys, additions);
    }
    let took = start.elapsed(rt)?.as_nanos();
    let Ok(read) = first_values(stage, tree, keys, additions) else {
        bail!("a value was refused");
    };
    let same = read == values;
    // The tree's values add up to this, so that other programs are compared with the tree.
    println!(rt;
        "scans of a sorted array: {} a second; the first {SCANNED} add up to {}, the same values {same}",
        rate(SCANNED as u32 * ROUNDS, took),
        total_of(&read)
    )?;
    if !same {
        bail!("the tree's values are not those of the scans");
    }
    Ok(())
}

/// Prints what so many additions and 100,000 values cost, and what the same values cost by a scan.
///
/// Fails where the tree refused an addition or a value, or where its first values are not those of the scans.
pub fn measure_keys(rt: &HostRuntime, keys: Keys, additions: u32) -> Result<()> {
    let mut stage = PutCount {
        stage: MemStage::new(rt.alloc(), 4294967295),
        puts: ByKind::default(),
    };
    let mut tree = Tree::default();
    print_additions(rt, &mut stage, &mut tree, keys, additions)?;
    print_values(rt, &mut stage.stage, &tree, keys, additions)?;
    print_scans(rt, &mut stage.stage, &tree, keys, additions)
}
