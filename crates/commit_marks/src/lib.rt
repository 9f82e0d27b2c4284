//! The header of a store's file and its two slots: which mark is chosen, and the three writes by which a commit moves
//! from one slot to the other.
//!
//! A mark names the directory of a commit. The slot of the commit before stays open until the next commit closes it, so
//! at each moment one slot at least holds a whole mark. This layer stands on `host_io` for the disk and on `free_space`
//! for where a block may stand; what a directory holds it does not know.
#![tactic(auto)]

mod choosing;
mod error;
mod mark;
mod reading;
mod slot;
mod writing;

pub use error::MarkError;
pub use mark::{HEADER, Mark, Marks};
pub use reading::read_marks;
pub use slot::slot_bytes;
pub use writing::{close_other, open_gate, slot_place, write_body};
