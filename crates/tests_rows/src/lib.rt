//! Tests of lines and rows that come in pieces, of grids, and of the spans of a warehouse.
#![tactic(auto)]

#[cfg(test)]
mod desk;
#[cfg(test)]
mod grid;
#[cfg(test)]
mod inputs;
#[cfg(test)]
mod lines;
#[cfg(test)]
mod machine;
#[cfg(test)]
mod no_version;
#[cfg(test)]
mod random_spans;
#[cfg(test)]
mod spans;
#[cfg(test)]
mod stopped;
#[cfg(test)]
mod stored;
#[cfg(test)]
mod streams;
