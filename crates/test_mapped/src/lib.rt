//! Tests of views kept by key: an index beside rows that come, go and change, and rows that stand in the order of their keys.
//!
//! They stand above the crates that they test, since a crate with tests in it is proved once more with them.
#![tactic(auto)]

#[cfg(test)]
mod following;
#[cfg(test)]
mod lines;
#[cfg(test)]
mod ordered;
#[cfg(test)]
mod refusals;
#[cfg(test)]
mod sources;
#[cfg(test)]
mod streams;
