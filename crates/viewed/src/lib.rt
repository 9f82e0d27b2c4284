//! Tables by what a viewer answers for each row: with the answer as a last property, or the rows whose answer is not 0 alone.
//!
//! A viewer is asked of the values that a row has for the names which are given, in their order; they are no keys, so a name that is
//! given twice is an argument twice. All that is known of the viewer is its `Viewer`. The definitions stand beside those of the other
//! operators, in `derived`. This crate looks no viewer up by name: who does so refuses an unknown name first.
#![tactic(auto)]

mod asking;
mod calculated;
mod checks;
mod kept;

pub use calculated::calc;
pub use kept::{keep, kept_positions};
