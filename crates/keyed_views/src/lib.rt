//! Views that are kept by key, by name: an index finds the row of a key, or the rows stand in the order of their keys.
//!
//! A mapping stands on a view. `Mappings` holds the mappings of the views of a root, and says how a row comes to a mapped view: in the
//! place of the row that has its key, or where it belongs. A line on a mapped view is followed, so that no mapping is made anew.
//!
//! Such a view is edited by more than one edit a line: `KeyedEdit` says what a line does to its rows, and gives it as edits of rows, so that
//! tables, watches and keys all follow one list.
//!
//! It stands on `mapped` for indexes and ordered rows, on `row_edits` for edits of rows and on `view_store` for views. It changes no view, and
//! knows nothing of watches, snapshots, cursors or commands.
#![tactic(auto)]

mod by;
mod coming;
mod error;
mod hashed;
mod kept;
mod keyed;
mod laws;
mod list;
mod mapping;
mod mappings;
mod ordered;

pub use by::By;
pub use coming::Coming;
pub use error::MappingError;
pub use keyed::KeyedEdit;
pub use laws::{
    edits_inside_keep_mappings, keyed_edits_are_lines, keys_are_edited, mapped_view_is_kept,
    puts_are_in_place, sets_are_in_place, unmapped_views_may_change, views_keep_mappings,
};
pub use mappings::{ByKeys, MAX_MAPPINGS, Mappings};
pub use ordered::{put_ordered, set_ordered};
