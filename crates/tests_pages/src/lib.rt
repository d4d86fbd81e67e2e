//! Tests of the formats of pages, and of the stages that the tests of other crates use.
#![tactic(auto)]

#[cfg(test)]
mod cut_spellings;
#[cfg(test)]
mod failing;
#[cfg(test)]
mod spellings;
#[cfg(test)]
mod toy_chain;
