//! Columns of texts and byte strings: values kept in chunks, shared between copies and copied on write.
//!
//! A [`BytesCol`] is a list of up to 16,777,216 byte strings and a home, the places of its blocks in a file. The list is cut
//! into chunks of at most 512 values. A chunk keeps the bytes of its short values together, and each memo, a value of more
//! than 512 bytes, in memory of its own. Copies share the chunks, the spine that lists them and the home; an edit copies the chunks
//! it touches and the spine, and only where they are shared. The spine has the chunks in groups of at most 64, which its copies share, so
//! that a copy counts groups and not chunks. A column of one chunk has no spine, and an empty one takes no memory. The sizes of the
//! values are a column of integers.
//!
//! It stands on `int_col` for the sizes, and on `segments` for the groups, where chunks end and which ones an edit replaces. It knows nothing
//! of files: a home is only kept, and `ShortBytes` gives the bytes of a block. What the bytes mean is not its business either; a text
//! is kept as its bytes.
#![tactic(auto)]

mod blocks;
mod cell;
mod chunk;
mod chunked;
mod chunks;
mod column;
mod fill;
mod growing;
mod home;
mod memo;
mod order;
mod parts;
mod prepared;
mod short_bytes;
mod spine;

pub use blocks::{BlocksError, Memos};
pub use column::BytesCol;
pub use home::BytesHome;
pub use prepared::PreparedPush;
pub use short_bytes::ShortBytes;
