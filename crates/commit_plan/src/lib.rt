//! Which blocks the next commit writes, and where.
//!
//! The commit that follows another keeps the blocks of each column that has a home. The others are due: their blocks, and the directory
//! behind them, go one after another to the least places beside what the last commit uses. `plan` settles all that in memory, and the `Plan`
//! then writes the blocks without taking any. What the file does when, this layer does not know.
#![tactic(auto)]

mod due;
mod entries;
mod error;
mod laws;
mod leaves;
mod measuring;
mod notes;
mod parts;
mod payload;
mod places;
mod placing;
mod planned;
mod planning;
mod settling;
mod used;
mod views;
mod writing;

pub use error::PlanError;
pub use laws::{follows_unique, some_commit_follows, the_next_commit_is_sound};
pub use measuring::{Usage, measure};
pub use planned::Plan;
pub use planning::plan;
