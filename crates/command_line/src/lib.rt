//! The words that the program is started with, read as a job.
//!
//! The words are cut into options and a file by `clap`, as one command without subcommands, and are then tested: the file has a name, the
//! cap is a number within its bounds, and the options go together. A job is given exactly where the words pass.
#![tactic(auto)]

mod command;
mod error;
mod job;
mod laws;
mod number;
mod reading;

pub use error::WordsError;
pub use job::{Job, Task};
pub use laws::{a_name_alone_is_served, words_ask_for_one_job};
pub use reading::read_words;
