//! A store as a stream: that of a file, and a file made of one.
//!
//! `stream_of` gives the stream of the store in a file, and leaves the file. `load` takes the input of a host as a stream, and makes a store of
//! it in an empty file. It stands on `stream_codec` for the form of a stream and on `storage` for the file. It says nothing: that is left to
//! who calls it.
#![tactic(auto)]

mod error;
mod loading;
mod making;
mod saving;
mod taking;

pub use error::LoadFault;
pub use loading::load;
pub use saving::stream_of;
