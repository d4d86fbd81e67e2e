//! Additions and values a second, and the pages that they get.

use crate::trees::draws::Draws;
use anyhow::Result;
use bw_types::Tree;
use ports::{MemStage, PageFault, StageFault};
use sb_tree::{sb_add, sb_value};
use std::time::Instant;

const QUERIES: u32 = 100_000;

// The versions rise, about four additions to each.
fn add_all(stage: &mut MemStage, tree: &mut Tree, additions: u32) -> Result<(), StageFault> {
    let mut draws = Draws::new(1);
    for number in 0..additions {
        sb_add(stage, tree, number / 4, u128::from(draws.draw()))?;
    }
    Ok(())
}

fn value_all(stage: &mut MemStage, tree: &Tree, additions: u32) -> Result<u128, PageFault> {
    let mut draws = Draws::new(2);
    let mut total = 0_u128;
    for _ in 0..QUERIES {
        let version = draws.draw() % (additions / 4).saturating_add(1);
        total = total.wrapping_add(sb_value(stage, tree, version)?);
    }
    Ok(total)
}

/// So many in this time, as a number a second.
pub fn rate(count: u32, nanoseconds: u128) -> u128 {
    u128::from(count) * 1_000_000_000 / nanoseconds.max(1)
}

/// A hundred times so many for each.
pub fn hundredths(many: u64, each: u64) -> u64 {
    many.saturating_mul(100) / each.max(1)
}

/// Prints what so many additions and 100,000 values cost.
pub fn measure(rt: &HostRuntime, additions: u32) -> Result<()> {
    let mut stage = MemStage::new(rt.alloc(), 4294967295);
    let mut tree = Tree::default();
    let start = Instant::now(rt)?;
    let added = add_all(&mut stage, &mut tree, additions).is_ok();
    let took = start.elapsed(rt)?.as_nanos();
    let gets = stage.gets();
    println!(rt;
        "{additions} additions: all made {added}, {} a second, {} levels, {gets} gets",
        rate(additions, took),
        tree.levels
    )?;
    let start = Instant::now(rt)?;
    let read = value_all(&mut stage, &tree, additions).is_ok();
    let took = start.elapsed(rt)?.as_nanos();
    println!(rt;
        "{QUERIES} values: all read {read}, {} a second, {} gets",
        rate(QUERIES, took),
        stage.gets().saturating_sub(gets)
    )?;
    Ok(())
}
