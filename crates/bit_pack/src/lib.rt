//! Packed integers: lists of `i64` at 0, 1, 2, 4, 8, 16, 32 or 64 bits a value.
//!
//! A packed list is bytes that, read as one little-endian number, are the sum of
//! (v modulo 2^w) * 2^(w * i) over the values v and their places i, where w is the least of the eight widths
//! that holds all values. So a list has one packing, and the bits past the last value are zero. Up to
//! 4 bits are unsigned, and from 8 bits on values are in two's complement.
//!
//! `pack` and `unpack` go between lists and bytes that may come from anywhere. The other calls read and change
//! packed bytes where they lie, and take no memory. It stands on nothing but the library, and knows of no
//! columns: how long a list may be, and in which pieces it is kept, is its caller's choice.
#![tactic(auto)]

mod by_width;
mod error;
mod lanes;
mod lists;
mod packed;
mod runs;
mod widths;

pub use error::PackError;
pub use lists::{Bytes, Values};
pub use packed::{
    MOST_VALUES, check, get, is_least, least_width, pack, pack_into, put, unpack, unpack_into,
};
pub use widths::{Width, width_for};
