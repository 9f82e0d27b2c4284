//! Commit-aside: a file in memory, the base, is served and never written; all that is written goes to another file, the aside file, as a
//! log.
//!
//! [`Aside`] is a disk over another disk. It shows the bytes of the base with the records of the log put into them in order. A write
//! puts a record behind the log, and a sync makes all records outlast a crash: the log's length stands in a mark, and a mark goes from
//! one slot of the aside file to the other as the commit of a store does. The crate stands on `host_io` for the disk, whose clauses `Aside`
//! meets, and on `commit_marks` for the slots. What the base holds it does not know.
#![tactic(auto)]

mod appending;
mod aside;
mod committing;
mod error;
mod laws;
mod log;
mod opening;
mod reading;
mod record;
mod syncing;
mod trace;
mod walking;

pub use aside::{Aside, open_aside};
pub use error::{AsideError, BaseRecord};
pub use laws::{files_are_one, images_stand, refusals_are_one};
pub use log::Log;
pub use opening::open_log;
