//! Tests of the store's lower layers: the host in memory, reading ahead, the space of the file, its marks, its blocks,
//! its directories, and whole commits.
//!
//! They stand above the crates that they test, since a crate with tests in it is proved once more with them.
#![tactic(auto)]

#[cfg(test)]
mod ahead;
#[cfg(test)]
mod blocks;
#[cfg(test)]
mod commits;
#[cfg(test)]
mod directories;
#[cfg(test)]
mod host;
#[cfg(test)]
mod marks;
#[cfg(test)]
mod space;
#[cfg(test)]
mod worked;
