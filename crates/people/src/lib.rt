//! What a person at a terminal is shown of a session: help, refusals in words, and rows as a table.
//!
//! These are functions of the bytes of lines and replies. They change no line that a session takes and no reply that it gives, and know nothing of
//! files or terminals: the program `mk` puts them between a session and a person.
#![tactic(auto)]

mod forms;
mod headings;
mod layout;
mod refusals;
mod rows;

pub use forms::{FORMS, Form, form_of, nearest};
pub use headings::{properties, view_of};
pub use layout::{MAX_COLUMN, table};
pub use refusals::{Refusal, meaning, not_served};
pub use rows::{cells, count_rows};
