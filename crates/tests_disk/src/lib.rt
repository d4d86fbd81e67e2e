//! Tests of disks, journals, caches and spaces of pages, in memory and over files.
#![tactic(auto)]

#[cfg(test)]
mod cache;
#[cfg(test)]
mod disks;
#[cfg(test)]
mod files;
#[cfg(test)]
mod journal;
#[cfg(test)]
mod samples;
#[cfg(test)]
mod settled;
#[cfg(test)]
mod space;
