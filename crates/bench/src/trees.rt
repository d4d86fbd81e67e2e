//! Trees over versions, multiversion trees, trees of cuts and object tables, over a stage in memory.
ghost use Rattle.std.specs.Prelude.{◌≤◌, IfOk};

mod built;
mod dominance;
mod draws;
mod measured;
mod objects;
mod over_keys;
mod plain;
mod put_count;
mod weights;

use crate::trees::built::{compare_built, measure_build};
use crate::trees::dominance::{compare_points, measure_points};
use crate::trees::objects::measure_objects;
use crate::trees::over_keys::{Keys, measure_keys};
use crate::trees::plain::compare_keys;
use crate::trees::weights::measure_weights;
use anyhow::{Context, Result, bail};
use std::env;

/// Adds 1,000 values to a tree of each kind and compares the trees with plain sums. It builds trees of 5,000 points in two and in three
/// dimensions, compares 1,000 sums of each with plain sums, collects the points and drops the tree.
pub fn compare(rt: &HostRuntime) -> Result<()> {
    plain::compare(rt)?;
    compare_keys(rt)?;
    compare_points(rt)?;
    compare_built(rt)
}

/// Measures what the second word tells, with the numbers behind it.
///
/// A number: so many additions to a tree over versions a second, values read a second, and pages that both get. `random` or `rising` and a
/// number: the same of a multiversion tree whose keys come so, and a scan of the same points beside it. `points` and a number: a dominance
/// sum over two dimensions, and a scan beside it. `build`, a number and one to three dimensions: points built a second, the pages that each
/// takes, and how often a page is put. `objects` and a number: objects entered in an object table and found a second. `weights` and a
/// number: all weights of an object, made so many times.
pub fn measure(rt: &HostRuntime) -> Result<()> {
    let word = env::args(rt)?.nth(2).context("what is to be measured")?;
    match word.as_str() {
        "build" => measure_build(rt, number_after(rt)?, dims_after(rt)?),
        "weights" => measure_weights(rt, number_after(rt)?),
        "objects" => measure_objects(rt, number_after(rt)?),
        "points" => measure_points(rt, number_after(rt)?),
        "random" => measure_keys(rt, Keys::Random, number_after(rt)?),
        "rising" => measure_keys(rt, Keys::Rising, number_after(rt)?),
        word => {
            let additions = word.parse::<u32>().context("a number of additions")?;
            measured::measure(rt, additions)
        }
    }
}

// The number that the third word tells.
fn number_after(rt: &HostRuntime) -> Result<u32> {
    let word = env::args(rt)?.nth(3).context("a number")?;
    word.parse::<u32>().context("a number")
}

// The dimensions that the fourth word tells.
fn dims_after(rt: &HostRuntime) -> Result<u8>
    ensures { IfOk result (λ dims. (1 ≤ dims) × (dims ≤ 3)) }
{
    let word = env::args(rt)?.nth(4).context("a number of dimensions")?;
    match word.as_str() {
        "1" => Ok(1),
        "2" => Ok(2),
        "3" => Ok(3),
        _ => bail!("one to three dimensions"),
    }
}
