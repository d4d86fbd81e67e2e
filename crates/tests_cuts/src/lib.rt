//! Tests of the trees of cuts: their points, their pages, trees over two and three dimensions, and the index over them.
#![tactic(auto)]

#[cfg(test)]
mod beside;
#[cfg(test)]
mod bounds;
#[cfg(test)]
mod by_hand;
#[cfg(test)]
mod failing;
#[cfg(test)]
mod harmed;
#[cfg(test)]
mod key_trees;
#[cfg(test)]
mod pages;
#[cfg(test)]
mod points;
#[cfg(test)]
mod random;
#[cfg(test)]
mod rows;
#[cfg(test)]
mod samples;
#[cfg(test)]
mod splits;
#[cfg(test)]
mod three_dimensions;
#[cfg(test)]
mod walker;
