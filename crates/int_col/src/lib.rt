//! Columns of integers: packed segments, shared between copies and copied on write.
//!
//! An [`IntCol`] is a list of up to 16,777,216 integers and a home, the place of its block in a file. The list
//! is cut into segments of at most 2,048 values, each packed at the least width that holds its own. Copies share
//! the segments and the spine that lists them; an edit copies the segments it touches and the spine, and only
//! where they are shared. A column of one segment has no spine, and an empty one takes no memory. One to which values are
//! pushed, in two steps that `PreparedPush` is between, keeps its last segment apart, as its own.
//!
//! It stands on `bit_pack`, which says what packed bytes are, and on `segments`, which says where segments end and which
//! ones an edit replaces. It knows nothing of files: a home is only kept, and `PackedBytes` gives the bytes of a block.
#![tactic(auto)]

mod column;
mod cut;
mod fill;
mod growing;
mod held;
mod packed;
mod packed_splice;
mod prepared;
mod segment;
mod segmented;
mod spine;
mod tail;

pub use column::IntCol;
pub use held::Held;
pub use packed::PackedBytes;
pub use prepared::PreparedPush;
