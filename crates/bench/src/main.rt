//! What pages, spaces and trees cost, each alone.
//!
//! Without an argument each is compared with what it has to be, and the output is fixed. With the word `pages`, `space` or `trees`, and what
//! the module of that name takes behind it, that is measured.
#![tactic(auto)]

mod pages;
mod space;
mod trees;

use anyhow::{Result, bail};
use std::env;

fn main(rt: HostRuntime) -> Result<()> {
    let Some(word) = env::args(&rt)?.nth(1) else {
        pages::compare(&rt)?;
        space::compare(&rt)?;
        return trees::compare(&rt);
    };
    match word.as_str() {
        "pages" => pages::measure(&rt),
        "space" => space::measure(&rt),
        "trees" => trees::measure(&rt),
        _ => bail!("pages, space or trees"),
    }
}
