//! Computed watches, by name: counts and filters that stand over views, over other watches, and counts over filters.
//!
//! Unlike the watches of `watches` they keep no positions: what one shows is made of the rows of its source when it is asked for, so that
//! an edit costs nothing for it and a question as much as its operator. Where the names of the sources have counts or kept rows at
//! hand, these are given; no answer shows which have.
//!
//! It stands on `eval` for the operators and for names, and knows nothing of views, of expressions or of commands.
#![tactic(auto)]

mod computed;
mod computing;
mod names;

pub use computed::{Computation, Computed, shown};
pub use computing::Computing;
pub use names::{AtHand, computed_table};
