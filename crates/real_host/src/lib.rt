//! The host of the machine: one file, standard input and standard output.
//!
//! These few lines are the trusted edge of every program over it: what reaches the file and the terminal is the machine's own, and no contract
//! tells of it. Each has a test that fails without it.
#![tactic(auto)]

mod host;

pub use host::RealHost;
