//! The session: named views that lines are answered in.
//!
//! One line is one step: it is read as a command, the command is carried out or refused, and its reply is written. A refused
//! line changes nothing. What comes of each command is one case of `outcome_of` in the definitions, and one function here; a
//! further command is a case of both.
//!
//! It stands on the commands and replies of `cmd_text`, the store of `storage`, the views of `view_store`, the new structures of
//! `restructure`, the questions, snapshots and cursors of `questions`, the watches of `watches`, and the views of `keyed_views` whose rows are kept by key. A question may ask the viewers that each line is lent. The loop of the crate `lines` cuts the input, calls `answer` and says what it gave.
#![tactic(auto)]

mod asking;
mod change;
mod changes;
mod computed;
mod counts;
mod edits;
mod followed;
mod keyed;
mod laws;
mod looks;
mod mapping;
mod names;
mod refusals;
mod replies;
mod saying;
mod session;
mod starting;
mod storing;
mod structures;
mod values;
mod watching;
mod words;

pub use edits::MAX_COPIES;
pub use laws::{lines_are_answered, reading_leaves_the_file, the_reply_determines_the_state};
pub use session::{Session, Viewers};
pub use starting::{StartError, start};
