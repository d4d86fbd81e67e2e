//! Tests of the trees over one dimension: trees over versions, multiversion trees over keys, and the checks of both.
#![tactic(auto)]

#[cfg(test)]
mod additions;
#[cfg(test)]
mod broken;
#[cfg(test)]
mod building;
#[cfg(test)]
mod ends;
#[cfg(test)]
mod failing;
#[cfg(test)]
mod key_tree_check;
#[cfg(test)]
mod nodes;
#[cfg(test)]
mod one_dimension;
#[cfg(test)]
mod values;
#[cfg(test)]
mod version_tree_check;
#[cfg(test)]
mod version_trees;
