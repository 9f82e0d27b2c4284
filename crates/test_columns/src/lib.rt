//! Tests of columns: packed integers, segments, columns of integers, and columns of byte strings.
//!
//! They stand above the crates that they test, since a crate with tests in it is proved once more with them.
#![tactic(auto)]

#[cfg(test)]
mod byte_strings;
#[cfg(test)]
mod cutting;
#[cfg(test)]
mod integers;
#[cfg(test)]
mod packing;
