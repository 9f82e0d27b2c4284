//! How a list is cut into segments, and how copies share them.
//!
//! A [`Segments`] keeps one number for each segment, the place where it ends. So it knows in which segment an item stands, and
//! which segments an edit replaces, a [`Splice`] of the list. The items are elsewhere, in a list with one part for each segment;
//! what holds of that list as a whole is in `specs/Joined.antt`, and its laws are in `proofs/Joined.antt`. A [`Shared`] value is
//! copied before a write unless it has one owner: the parts, and the lists of them, are kept so. A list of many shared parts is
//! kept in [`Groups`], so that a copy of it costs a count for each group and not for each part.
//!
//! It stands on `mk_value` for want of memory alone, and knows nothing of what the items are.
#![tactic(auto)]

mod ends;
mod groups;
mod parts;
mod segments;
mod shared;
mod splice;

pub use groups::Groups;
pub use parts::replace_parts;
pub use segments::{Place, Segments};
pub use shared::Shared;
pub use splice::{Replaced, Splice};
