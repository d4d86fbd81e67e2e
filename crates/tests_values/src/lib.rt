//! Tests of objects and queries, their corners and moments, and of numbers modulo 2 to the 128th.
#![tactic(auto)]

#[cfg(test)]
mod corners;
#[cfg(test)]
mod fits;
#[cfg(test)]
mod planes;
#[cfg(test)]
mod reasons;
#[cfg(test)]
mod residues;
#[cfg(test)]
mod sums;
