//! Full pages of each type: read and written again.
mod full;
mod rounds;

use crate::pages::rounds::{print_kept, print_times};
use anyhow::{Context, Result, bail};
use std::env;

/// Reads a full page of each type, writes it again, and prints how many came back as they were.
pub fn compare(rt: &HostRuntime) -> Result<()> {
    print_kept(rt)?;
    Ok(())
}

/// Prints how many nanoseconds each read and each write took in so many rounds, which the second word tells, and the copy of a page beside them.
pub fn measure(rt: &HostRuntime) -> Result<()> {
    let word = env::args(rt)?.nth(2).context("a number of rounds")?;
    let rounds = word.parse::<u64>().context("a number of rounds")?;
    if rounds == 0 {
        bail!("a number of rounds above 0");
    }
    print_times(rt, rounds)?;
    Ok(())
}
