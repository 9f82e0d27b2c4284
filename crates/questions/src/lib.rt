//! Questions: what is asked of views, snapshots and watches by expressions and by cursors, and changes none of them.
//!
//! The names of an expression are those of the views, then those of snapshots, which are tables that were kept under a name, and then those of watches. Beside them it has viewers that answer rows. A question is a size,
//! the rows, a table of its own, or where a table has values that are asked for. It stands on `eval` for the value of an expression and
//! on the views of `view_store`, on `watches`, and on `keyed_views` for which views are kept by key; it knows nothing of lines or of replies.
#![tactic(auto)]

mod cursor;
mod error;
mod in_order;
mod known;
mod level;
mod located;
mod rows;
mod scope;
mod snapshot;
mod sorted;
mod walk;
mod watching;

pub use cursor::{
    Cursor, Cursors, MAX_CURSORS, Standing, has_cursor_on, is_cursor, take_out_cursor,
};
pub use error::QuestionError;
pub use known::Known;
pub use located::Located;
pub use rows::PrintedRows;
pub use scope::Scope;
pub use snapshot::{MAX_SNAPSHOTS, Snapshot, Snapshots, is_snapshot, take_out_snapshot};
pub use watching::{computed_by, operand, operation};
