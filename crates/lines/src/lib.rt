//! Serving lines: what a host gives is cut into lines, each line is answered by a session, and each answer is said
//! whole before the next line is looked at.
//!
//! The loop is proved once, for every session: its contract says of a whole run which lines were answered, which bytes
//! were said, and what a crash at any moment of it would have left. What a line means is the session's.
#![tactic(auto)]

mod answering;
mod feeding;
mod laws;
mod saying;
mod serving;
mod session;

pub use laws::lines_are_one;
pub use saying::say_all;
pub use serving::{End, MAX_BUDGET, serve};
pub use session::{Flow, MAX_LINE, Session};
