//! Restructuring: a table under another schema.
//!
//! Each column is made of the old one of its name, as far as the kinds allow, and of defaults where they do not or where there was none.
//! Views inside are restructured row by row. A plain column whose name and kind stay is shared with the old table, and keeps its home.
//!
//! It stands on the columns of `tables`, and knows nothing of files, of commands, or of how structures are written.
#![tactic(auto)]

mod conversion;
mod laws;
mod restructuring;

pub use laws::{by_name, rests_on_what_it_was, there_and_back};
pub use restructuring::restructure;
