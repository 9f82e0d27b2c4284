//! Tests of a store over its file: commits and the places of their blocks, notes, the commit before, refusals, and what each failing call
//! and each crash leaves, over the host in memory; a store over an aside disk; and streams of views.
//!
//! They stand above the crate that they test, since a crate with tests in it is proved once more with them. Most are data: calls of a
//! store, and what each answers.
#![tactic(auto)]

#[cfg(test)]
mod aside;
#[cfg(test)]
mod before;
#[cfg(test)]
mod call;
#[cfg(test)]
mod copies;
#[cfg(test)]
mod crashes;
#[cfg(test)]
mod fixture;
#[cfg(test)]
mod making;
#[cfg(test)]
mod notes;
#[cfg(test)]
mod refusals;
#[cfg(test)]
mod spaces;
#[cfg(test)]
mod streams;
#[cfg(test)]
mod texts;
#[cfg(test)]
mod worked;
