//! Views that are kept by key: an index that finds the row of a key, and rows that stand in the order of their keys.
//!
//! The key of a row is its first values, so many, none of which is a view. `HashIndex` keeps the keys of the rows of a view and follows
//! the rows as they come, go and change; `Ordered` keeps nothing of the rows, which stand in the order of their keys, and finds a key by
//! halving. It stands on `mk_value` and on the order of rows in `relations`, and knows nothing of commands or of where rows are stored.
#![tactic(auto)]

mod building;
mod error;
mod event;
mod halving;
mod hash_index;
mod order;
mod ordered;
mod probe;

pub use error::MapError;
pub use event::Event;
pub use hash_index::HashIndex;
pub use ordered::{Ordered, Put};
pub use probe::{KeyProbe, OverKeys};
