//! Gets and commits a second over files.

use crate::space::commits::{commit_again, commit_new, count_got};
use crate::space::made::make;
use anyhow::Result;
use page_disk::{Disk, FileDisk};
use page_space::Space;
use std::time::Instant;

const PAGES: usize = 5000;

fn rate(count: u64, nanoseconds: u128) -> u128 {
    u128::from(count) * 1_000_000_000 / nanoseconds.max(1)
}

// Prints how many gets of these pages are made a second, so many times over.
fn measure_gets<D: Disk>(
    rt: &HostRuntime,
    name: &str,
    space: &mut Space<D>,
    pages: &[u64],
    times: u32,
) -> Result<()> {
    let start = Instant::now(rt)?;
    let mut got = 0_u64;
    for _ in 0..times {
        got = got.saturating_add(count_got(space, pages) as u64);
    }
    let took = start.elapsed(rt)?.as_nanos();
    println!(rt; "{name}: {} gets a second", rate(got, took))?;
    Ok(())
}

// Prints how many commits of these pages are made a second; none where one fails.
fn measure_commits<D: Disk + Drop>(
    rt: &HostRuntime,
    space: Space<D>,
    pages: &[u64],
    times: u32,
) -> Result<Option<Space<D>>> {
    let start = Instant::now(rt)?;
    let mut space = space;
    for version in 0..times {
        match commit_again(space, pages, version) {
            Some(next) => space = next,
            None => return Ok(None),
        }
    }
    let took = start.elapsed(rt)?.as_nanos();
    println!(rt;
        "commits of {} pages: {} in 100 seconds",
        pages.len(),
        rate(u64::from(times) * 100, took)
    )?;
    Ok(Some(space))
}

// The first of the pages, or all where there are fewer.
fn first_of(pages: &[u64], count: usize) -> &[u64] {
    match pages.get(..count) {
        Some(first) => first,
        None => pages,
    }
}

// Makes a space over files, and measures commits and gets of its pages; none where a call fails.
fn measure_files(rt: &HostRuntime, pages: &mut Vec<u64>) -> Result<Option<()>> {
    let alloc = rt.alloc();
    let disk = FileDisk::named(
        alloc,
        rt.clone()?,
        "bench_space.pages",
        "bench_space.journal",
    );
    let Some(space) = make(alloc, disk) else {
        return Ok(None);
    };
    let Some(space) = commit_new(space, pages, PAGES) else {
        return Ok(None);
    };
    // A get is counted where it gives sevens.
    let Some(space) = commit_again(space, pages.as_slice(), 2) else {
        return Ok(None);
    };
    let Some(space) = measure_commits(rt, space, first_of(pages.as_slice(), 1), 300)? else {
        return Ok(None);
    };
    let Some(space) = measure_commits(rt, space, first_of(pages.as_slice(), 10), 200)? else {
        return Ok(None);
    };
    let Some(mut space) = measure_commits(rt, space, first_of(pages.as_slice(), 1000), 20)? else {
        return Ok(None);
    };
    measure_gets(
        rt,
        "100 pages in the cache",
        &mut space,
        first_of(pages.as_slice(), 100),
        10000,
    )?;
    measure_gets(
        rt,
        "5000 pages past the cache",
        &mut space,
        pages.as_slice(),
        40,
    )?;
    let _disk = space.into_disk();
    Ok(Some(()))
}

/// Measures over the files `bench_space.pages` and `bench_space.journal` of the working folder.
pub fn measure(rt: &HostRuntime) -> Result<()> {
    let mut pages = Vec::new(rt.alloc());
    if measure_files(rt, &mut pages)?.is_none() {
        println!(rt; "the files could not be written, or hold a space already")?;
    }
    Ok(())
}
