//! Streams: one byte form of named views, row by row, which other programs can read and write.
//!
//! `save` gives the stream of the views of a root, and a `Loader` takes a stream in pieces, however it is cut, and gives the root. It
//! knows nothing of files, and names no place of one.
#![tactic(auto)]

mod counts;
mod error;
mod feeding;
mod inner;
mod laws;
mod lengths;
mod loading;
mod partial_table;
mod partial_view;
mod progress;
mod saving;
mod stage;
mod values;

pub use error::LoadError;
pub use laws::{a_stream_is_whole, a_wrong_field_stays_wrong, one_place, one_stream};
pub use loading::Loader;
pub use saving::save;
