//! The watches of views, by name: what each shows, and that it moves with the rows of its view.
//!
//! A watch stands over a view or over another watch of it, and shows a selection, a range or a sorting of its rows. `Following` holds all
//! watches of the views of a root, each with the positions of its rows. A line that edits a watched view is followed edit by edit, so
//! that no watch is made anew.
//!
//! It stands on `live` for watches, on `row_edits` for what a line does to rows and on `view_store` for views. It changes no view, and
//! knows nothing of snapshots, cursors or commands.
#![tactic(auto)]

mod followed;
mod following;
mod laws;
mod listed;
mod putting;
mod reading;
mod rows;
mod views;
mod watching;

pub use following::{Following, MAX_WATCHES, Watched};
pub use laws::{
    events_raise, kept_is_in_step, kept_over_view, unwatched_lines_raise_nothing,
    unwatched_views_may_change, views_keep_watches, watches_follow_lines, watches_show_rows,
};
pub use putting::check_watch;
pub use rows::WatchRows;
pub use views::view_of;
pub use watching::follow_line;
