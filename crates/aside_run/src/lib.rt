//! The run over a base: a store in one file is served and never written, and all that is committed goes to another file, the aside file, as a
//! log.
//!
//! Words with `--aside BASE` ask for it; all other words are `shell`'s. It reads the base, opens the aside file or makes it, and serves lines with
//! `shell` over the disk of `aside_disk`, which shows the file for which the two stand. Its contract promises of the aside file what `shell` promises
//! of a store's file, by the file for which each image stands; and that the base stays as it is.
#![tactic(auto)]

mod base;
mod laws;
mod running;
mod serving;

pub use laws::runs_over_are_answered;
pub use running::run_over;
