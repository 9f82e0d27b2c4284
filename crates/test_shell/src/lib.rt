//! Tests of what words ask for, and of whole runs over the host in memory: how lines are cut, said and ended, and the status of each run.
//!
//! They stand above the crates that they test, since a crate with tests in it is proved once more with them. What can be seen through
//! the built program stands in tests/ as data; here is what needs a host that fails, or a budget that is small.
#![tactic(auto)]

#[cfg(test)]
mod asides;
#[cfg(test)]
mod commits;
#[cfg(test)]
mod echo;
#[cfg(test)]
mod followed;
#[cfg(test)]
mod long_lines;
#[cfg(test)]
mod running;
#[cfg(test)]
mod sampling;
#[cfg(test)]
mod serving;
#[cfg(test)]
mod unviewed;
#[cfg(test)]
mod words;
