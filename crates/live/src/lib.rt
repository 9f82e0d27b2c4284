//! Watches that follow events: selections and sortings of a table's rows, and of one another, whose positions are kept while the rows
//! change.
//!
//! A watch keeps the positions of its rows in those of its source. Before an event of the root, the insertion, the removal or the change
//! of one row, each watch notes where the row that goes stands in it, and after the event it moves its positions and tells what happened
//! to its own rows. It sees rows through a [`Probe`] alone, whose tests and comparisons are counted: a selection makes one test, and a
//! sorting finds its places by halving. An edit of many rows can be followed in one step too ([`Watches::follow`]), at the cost of one
//! event. Nothing takes memory then: [`Watches::reserve`] takes it before.
//!
//! This crate stands on `row_edits` for edits and events, and on `relations`, which makes the positions of a new watch and says what criteria and keys are. It changes no rows, and
//! knows nothing of names of watches, commands or files.
#![tactic(auto)]

mod answer;
mod chain;
mod edited;
mod error;
mod flat;
mod keeper;
mod laws;
mod listed;
mod op;
mod out;
mod picked;
mod probe;
mod putting;
mod ranks;
mod removed;
mod turn;
mod watch;
mod watches;

pub use answer::Answer;
pub use edited::room_of;
pub use error::WatchError;
pub use flat::{close, leave, open, renumber};
pub use keeper::{Keeper, told};
pub use laws::{
    a_selection_answers_a_change, a_sorting_answers_a_change, a_watch_answers_a_row,
    a_watch_shows_its_rows, edits_are_events, events_are_turns, own_events_are_events,
    places_lead_to_rows, steps_are_digits, watches_follow_edits, watches_follow_events,
};
pub use op::{Criteria, Keys, WatchOp};
pub use out::{Out, Told};
pub use probe::{Over, Probe};
pub use row_edits::{Event, RowEdit};
pub use turn::Turn;
pub use watches::Watches;
