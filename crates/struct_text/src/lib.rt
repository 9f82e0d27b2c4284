//! Structure texts, such as `people[name:S,phones[kind:S]]`: reading them and printing them.
//!
//! A structure text is `NAME[PROPS]`. PROPS is one or more properties joined by commas, and a property is `NAME:K`,
//! with K one of `I`, `L`, `S` and `B`, or `NAME[PROPS]`. This crate stands on `mk_value`, whose names and schemas it
//! reads and prints. It knows nothing of lines, commands or files.
#![tactic(auto)]

mod error;
mod laws;
mod names;
mod printing;
mod reading;

pub use error::StructError;
pub use laws::{one_first_offence, one_structure};
pub use printing::print;
pub use reading::parse;
