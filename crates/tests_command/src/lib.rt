//! Tests of the words of the command, and of whole runs of the program in memory.
#![tactic(auto)]

#[cfg(test)]
mod checks;
#[cfg(test)]
mod compactions;
#[cfg(test)]
mod disks;
#[cfg(test)]
mod earlier;
#[cfg(test)]
mod exports;
#[cfg(test)]
mod great;
#[cfg(test)]
mod hostile;
#[cfg(test)]
mod memory;
#[cfg(test)]
mod reports;
#[cfg(test)]
mod samples;
#[cfg(test)]
mod spans;
#[cfg(test)]
mod text;
#[cfg(test)]
mod words;
