//! Command lines: reading them, and the texts of their replies.
//!
//! `read_command` reads a line as the one command that it spells, or names its first offence. `reply_text` writes what a command is answered by.
//! `Note` is what a commit is given beside the views.
//!
//! A command is a word and arguments typed by its form. A further one is a variant of `Command` and of `Verb`, three lines of the table (its word and
//! its form in specs/Words, what the variant says in specs/Grammar) and an arm of `arguments`; a further reply is a case of `Reply` and of its text.
//!
//! It stands on the tokens of tokens, the reader of expr_text and the structures of struct_text. It knows nothing of what a command does.
#![tactic(auto)]

mod arguments;
mod command;
mod error;
mod laws;
mod note;
mod reading;
mod refusal;
mod reply;
mod verb;

pub use command::Command;
pub use error::CmdError;
pub use laws::{literals_are_proper, one_meaning, one_offence, structure_is_short};
pub use note::Note;
pub use reading::read_command;
pub use refusal::Refusal;
pub use reply::{Reply, Space, lines_of, reply_text};
