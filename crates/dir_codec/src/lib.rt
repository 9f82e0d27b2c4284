//! The directory of a commit: its views, where the blocks of their columns stand, and its notes, as bytes and back.
#![tactic(auto)]

mod columns;
mod decoding;
mod dir;
mod error;
mod fields;
mod laws;
mod notes;
mod tables;
mod views;
mod writing;

pub use decoding::decode;
pub use dir::{
    Dir, DirBodies, DirBody, DirCol, DirCols, DirView, DirViews, Memo, Memos, Note, Notes,
};
pub use error::DirError;
pub use laws::{one_directory, one_flaw, whole_or_flawed};
pub use writing::encode;
