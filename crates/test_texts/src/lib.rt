//! Tests of the texts that are read and printed: structures, tokens, literals, paths, expressions, values and replies.
//!
//! They stand above the crates that they test, since a crate with tests in it is proved once more with them.
#![tactic(auto)]

#[cfg(test)]
mod expressions;
#[cfg(test)]
mod literals;
#[cfg(test)]
mod replies;
#[cfg(test)]
mod shown;
#[cfg(test)]
mod structures;
#[cfg(test)]
mod values;
