//! Tests of watches that follow events: after each event of a stream the kept positions are those of watches made anew, and what was told
//! leads from the rows that a watch showed to those that it shows; and counts are those made anew.
//!
//! They stand above the crates that they test, since a crate with tests in it is proved once more with them.
#![tactic(auto)]

#[cfg(test)]
mod counted;
#[cfg(test)]
mod filter_streams;
#[cfg(test)]
mod filtered;
#[cfg(test)]
mod followed;
#[cfg(test)]
mod line_streams;
#[cfg(test)]
mod lined;
#[cfg(test)]
mod streams;
