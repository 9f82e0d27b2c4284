//! A store over its file: it is made in an empty file or opened, its views are edited, and its commits outlast a crash.
//!
//! A `Store` holds the commit that its file stands for and the views as they were edited since. It stands on `recovery` for what a file
//! stands for, on `commit_plan` for the commit that follows, and on `commit_writes` for the order of writes. It knows nothing of
//! commands.
#![tactic(auto)]

mod checking;
mod creation;
mod edits;
mod error;
mod laws;
mod marks;
mod mode;
mod reverting;
mod space;
mod store;

pub use checking::check;
pub use error::{PlanError, RevertError};
pub use laws::a_crash_leaves_a_commit;
pub use mode::Mode;
pub use space::{Report, Space};
pub use store::Store;
