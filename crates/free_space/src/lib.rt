//! Which extents of the file are in use, and where the next block goes.
//!
//! A block stands at a multiple of 16 and takes up its extent: its length, rounded up to a multiple of 16.
//! A `FreeMap` holds the spans in use and gives each new block the least place at which its extent meets none of
//! them. It stands on `mk_value` for spans and for want of memory, and neither reads nor writes a file.
#![tactic(auto)]

mod cursor;
mod error;
mod extent;
mod free_map;
mod overlap;

pub use error::FreeError;
pub use extent::{FIRST_PLACE, extent_end, extent_len, is_site};
pub use free_map::FreeMap;
