//! Expressions: which view a text asks for, from paths by operators.
//!
//! `parse_expr` reads a text as the one expression that it spells, or names its first offence; `print_expr` appends the one spelling of an
//! expression. Contracts see an expression as a `Query`, which is plain data. `Reader` reads expressions and what stands beside them in a line,
//! for texts of which they are a part.
//!
//! It stands on the tokens, literals and paths of tokens. It knows nothing of views or of what an operator gives.
#![tactic(auto)]

mod arguments;
mod error;
mod expr;
mod in_lines;
mod kept_up;
mod laws;
mod list;
mod literals;
mod operator;
mod printing;
mod reader;
mod reading;
mod tails;

pub use error::ExprError;
pub use expr::{Bound, Bounds, Crit, Crits, Expr, NameList, Order, Orders};
pub use laws::{one_reading, some_reading};
pub use operator::Operator;
pub use printing::print_expr;
pub use reader::Reader;
pub use reading::parse_expr;
