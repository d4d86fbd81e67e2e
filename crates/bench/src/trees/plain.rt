//! The trees beside plain sums.
ghost use Rattle.std.specs.Prelude.{◌<◌};

use crate::trees::draws::Draws;
use anyhow::Result;
use bw_types::Tree;
use mvsb_tree::{mv_add, mv_value};
use ports::{MemStage, StageFault};
use sb_tree::{sb_add, sb_value};

const VERSIONS: usize = 100;

const ADDITIONS: usize = 1000;

// Adds the same values to the tree and to the totals, of which each is the sum at its version alone.
fn add_both(
    stage: &mut MemStage,
    tree: &mut Tree,
    totals: &mut [u128; VERSIONS],
) -> Result<(), StageFault> {
    let mut draws = Draws::new(0);
    for _ in 0..ADDITIONS {
        let version = draws.draw() as usize % VERSIONS;
        let value = u128::from(draws.draw());
        sb_add(stage, tree, version as u32, value)?;
        totals[version] = totals[version].wrapping_add(value);
    }
    Ok(())
}

/// Prints at how many versions the tree and the plain sum agree.
pub fn compare(rt: &HostRuntime) -> Result<()> {
    let mut stage = MemStage::new(rt.alloc(), 1000);
    let mut tree = Tree::default();
    let mut totals = [0; VERSIONS];
    if add_both(&mut stage, &mut tree, &mut totals).is_err() {
        println!(rt; "no additions")?;
        return Ok(());
    }
    let mut same = 0_u32;
    let mut sum = 0_u128;
    for version in 0..VERSIONS {
        sum = sum.wrapping_add(totals[version]);
        if sb_value(&mut stage, &tree, version as u32) == Ok(sum) {
            same = same.saturating_add(1);
        }
    }
    println!(rt;
        "{} additions, the plain sum at {same} versions of {VERSIONS}",
        tree.count
    )?;
    Ok(())
}

const KEYS: usize = 40;

// Adds the same values to the tree and to the totals: to each key's total at each version, those at that key
// and version alone.
fn add_keys(
    stage: &mut MemStage,
    tree: &mut Tree,
    totals: &mut [[u128; VERSIONS]; KEYS],
) -> Result<(), StageFault> {
    let mut draws = Draws::new(0);
    for number in 0..ADDITIONS {
        let version = number / 10;
        let key = draws.draw() as usize % KEYS;
        let value = u128::from(draws.draw());
        mv_add(stage, tree, key as u64, version as u32, value)?;
        totals[key][version] = totals[key][version].wrapping_add(value);
    }
    Ok(())
}

// Whether the tree tells at each key the sum of what was added at or below it and at or before the version.
fn agrees(
    stage: &mut MemStage,
    tree: &Tree,
    totals: &[[u128; VERSIONS]; KEYS],
    version: usize,
) -> bool
    requires { version < 100 }
{
    let mut sum = 0_u128;
    for key in 0..KEYS {
        for before in 0..version + 1 {
            sum = sum.wrapping_add(totals[key][before]);
        }
        if mv_value(stage, tree, key as u64, version as u32) != Ok(sum) {
            return false;
        }
    }
    true
}

/// Prints at how many versions a multiversion tree and the plain sums agree at every key.
pub fn compare_keys(rt: &HostRuntime) -> Result<()> {
    let mut stage = MemStage::new(rt.alloc(), 10000);
    let mut tree = Tree::default();
    let mut totals = [[0; VERSIONS]; KEYS];
    if add_keys(&mut stage, &mut tree, &mut totals).is_err() {
        println!(rt; "no additions")?;
        return Ok(());
    }
    let mut same = 0_u32;
    for version in 0..VERSIONS {
        if agrees(&mut stage, &tree, &totals, version) {
            same = same.saturating_add(1);
        }
    }
    println!(rt;
        "{} additions at keys, the plain sums of every key at {same} versions of {VERSIONS}",
        tree.count
    )?;
    Ok(())
}
