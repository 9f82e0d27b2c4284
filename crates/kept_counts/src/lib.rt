//! What is kept of views, so that a question on one need not make it anew: counts of their rows, and those of their rows that a law keeps.
//! It is a cache that no reply shows.
//!
//! What is kept of a view is a list of the positions of its rows, in the order of some keys or of those alone that are kept, which follows
//! edits of single rows. A row that came or changed is asked once, as its values are lent. Where an edit is of several rows, or memory is
//! wanting, what was kept is dropped, and is made anew once it is asked for again. So neither a note nor a call to follow can fail, and
//! whether something is kept changes no answer.
//!
//! It stands on `live_counts` for counts and filters, on `viewers` for laws, and on `view_store` for views. It changes no view, and knows
//! nothing of names of watches or of commands.
#![tactic(auto)]

mod asking;
mod cache;
mod entry;
mod kept;
mod laws;
mod listed;
mod making;
mod noting;
mod showing;

pub use cache::{KeptCounts, MAX_KEPT};
pub use laws::{counted_over_view, counts_in_any_order};
