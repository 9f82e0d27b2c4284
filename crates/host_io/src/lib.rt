//! The outside of a program: one file that may lose what was not synced, the input that it takes and the output that
//! it says, with the meaning of each call, and a host in memory that fails and crashes on demand.
//!
//! A [`Disk`] and a [`Host`] are seen as the moments that they went through. One row of moments holds the writes, the
//! syncs and the pieces said, so that a contract can say what a crash would have left when so many bytes had been
//! said. A type whose bytes are the machine's own, as a real file and terminal, tells nothing but how often its calls
//! failed.
#![tactic(auto)]

mod crash;
mod entry;
mod fault;
mod file;
mod log;
mod memory_host;
mod traits;

pub use fault::{Effect, Fault};
pub use memory_host::MemHost;
pub use traits::{Disk, Failed, Host, MAX_WRITE};
