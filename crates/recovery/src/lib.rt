//! What a file stands for, and reading it.
//!
//! A file stands for a commit: its views, its notes, and where each block stands. Here is what that means and why a file stands for
//! none, and `open`, which reads the commit or names the place of what is wrong. A commit is not made here, nor written.
#![tactic(auto)]

mod columns;
mod contents;
mod directory;
mod error;
mod kept;
mod laws;
mod long_values;
mod numbers;
mod opening;
mod spans;
mod strings;
mod views;

pub use error::OpenError;
pub use kept::Kept;
pub use laws::{a_file_has_one_answer, one_commit, one_refusal, stands_or_refused};
pub use opening::{Opened, open, read_older};
