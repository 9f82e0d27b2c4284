//! The ground that every layer of the store speaks in: names, kinds, schemas, values and their texts.
//!
//! Names, texts and byte strings are small types over arrays and vectors; kinds and schemas say which values a property
//! may have; values, rows and tables of rows are what the store holds; keys order rows; literals are values as they are
//! written; paths name views. A contract sees each as plain data, which the definitions of `specs/` speak of.
//!
//! This crate knows nothing of files, columns or commands.
#![tactic(auto)]

mod bytes;
mod conversion;
mod fitting;
mod key;
mod limits;
mod literal;
mod memory;
mod name;
mod path;
mod print;
mod schema;
mod sequence;
mod span;
mod steps;
mod table;
mod text;
mod value;

pub use bytes::Bytes;
pub use conversion::{FitError, literal_fits, to_value};
pub use fitting::{default_of, fits, is_text, row_fits, rows_fit};
pub use key::{KeyPart, KeyParts, KeyRow, cmp_value};
pub use limits::{
    MAX_BYTES, MAX_DEPTH, MAX_NAME, MAX_PROPERTIES, MAX_ROWS, MAX_STRUCTURE, MAX_VIEWS,
};
pub use literal::{Literal, LiteralRows, Literals};
pub use memory::Memory;
pub use name::Name;
pub use path::{Path, Step};
pub use print::{print_row, print_row_of, print_value};
pub use schema::{Kind, Prop, Props, Schema};
pub use sequence::Sequence;
pub use span::Span;
pub use steps::Steps;
pub use table::{HeldRows, Lent, Same, TableRead, lend};
pub use text::Text;
pub use value::{Row, Rows, Value};

/// A list of texts.
pub type Texts = Sequence<Text>;

/// A list of positions of rows.
pub type Positions = Sequence<u32>;

/// A list of spans.
pub type Spans = Sequence<Span>;
