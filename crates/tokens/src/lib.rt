//! Tokens: what lines, literals and expressions are written in.
//!
//! A text is cut into words, numbers, texts, byte strings and signs, the longest that begins at each place, with any number of spaces
//! between them. `cut` does so once; `literal_at` and `path_at` read a literal or a path from the front of the pieces, and tell how many
//! they took or behind how many they had to stop. `read_literal` reads a text that is one literal.
//!
//! This crate stands on `mk_value`, whose values and paths it reads. It knows nothing of commands or operators.
#![tactic(auto)]

mod cutting;
mod decoding;
mod error;
mod form;
mod laws;
mod literal;
mod path;
mod pieces;
mod quoted;
mod run;
mod standing;
mod token;

pub use cutting::{Cutting, cut, some_cutting};
pub use error::{PartError, ReadError};
pub use laws::{one_cutting, one_reading, printed_reads_back};
pub use literal::{literal_at, read_literal};
pub use path::path_at;
pub use pieces::Pieces;
pub use token::{Piece, Sign, Token, count_of, name_of};
