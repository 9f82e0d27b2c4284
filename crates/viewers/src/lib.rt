//! Numbers that are asked of rows: viewers, each a name, the kinds of its arguments, and an answer for each row of them.
//!
//! What a viewer answers is its law, a definition that stands beside it. `Viewer` is all that is known of one; whoever asks it knows
//! from the viewer alone that it answers each row of its kinds, and what. `StoredViewer` is the one that asks a closure which was boxed
//! elsewhere: the closure is proved to follow its law where the viewer is made, and the viewer keeps that.
//!
//! This crate knows no operator and no expression, and no viewer by name.
#![tactic(auto)]

mod finding;
mod law;
mod stock;
mod stored;
mod viewer;

pub use finding::find;
pub use law::Law;
pub use stock::{length, sum, twice};
pub use stored::{Call, StoredViewer};
pub use viewer::{Kinds, Viewer};
