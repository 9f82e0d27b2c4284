//! Reading ahead: a host whose file is read in large pieces, so that many small reads are few calls.
//!
//! It stands on the outside of `host_io` alone, over any host. It has the bytes, the faults and the moments of that host; only how
//! often the machine is asked differs. It does not write later than asked, and keeps no bytes over a write.
#![tactic(auto)]

mod ahead;
mod piece;

pub use ahead::Ahead;
pub use piece::PIECE;
