//! What a line does to the rows of a view, as edits and as events of single rows, and the rows between two of these events.
//!
//! A line puts copies of one row in, takes rows out, changes a row, or does several of these one after another where the view is kept by
//! key. What follows the rows hears of each row that comes, goes or changes, and sees the rows before and after each: [`Between`] shows them
//! as a table that takes each row from the table before the line or from the one after it, without memory.
//!
//! It knows nothing of watches, keys or commands.
#![tactic(auto)]

mod between;
mod edit;
mod event;
mod laws;
mod lent;
mod line;
mod numbers;
mod origin;

pub use between::Between;
pub use edit::{RowEdit, RowEdits, count_events};
pub use event::Event;
pub use laws::{edits_are_events, events_happen, lines_are_edits};
pub use line::Line;
pub use numbers::{cut_out, insert_run, raise, remove_run};
