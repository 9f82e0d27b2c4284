//! Expressions evaluated: the table that an expression asks for, among names that stand for tables and viewers that answer rows.
//!
//! An expression is a path, or an operator over one or two expressions. Its value is what the operator gives of their values, from the left
//! and from the inside; the first refusal is that of the whole. The definitions stand in `specs/Values.antt`, over those of the operators. This crate
//! knows nothing of texts, of commands, or of how tables are kept.
#![tactic(auto)]

mod bases;
mod error;
mod evaluation;
mod literals;
mod names;
mod on_one;
mod on_two;
mod sliced;

pub use bases::is_asked_of;
pub use error::{EvalError, NameError};
pub use evaluation::eval;
pub use literals::{Asked, bounds_asked, criteria_asked};
pub use names::Names;
pub use on_one::{counts_by, keep_by};
