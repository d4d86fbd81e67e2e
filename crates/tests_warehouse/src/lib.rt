//! Tests of warehouses in memory and on a disk, of the batches that they take or refuse, and of what is read back from them.
#![tactic(auto)]

#[cfg(test)]
mod book;
#[cfg(test)]
mod commits;
#[cfg(test)]
mod compaction;
#[cfg(test)]
mod fitting;
#[cfg(test)]
mod history;
#[cfg(test)]
mod list_house;
#[cfg(test)]
mod plain_houses;
#[cfg(test)]
mod stored;
#[cfg(test)]
mod tables;
