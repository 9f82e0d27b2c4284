//! What follows the rows of one view.
use live_counts::{LiveCounts, LiveFilter};
use mk_value::{Name, Sequence};
use viewers::Law;

/// What follows the rows of a view.
#[derive(Drop)]
pub(crate) enum Kept {
    /// Their counts by the keys of these names.
    Counts(Sequence<Name>, LiveCounts),
    /// The positions of those that a law keeps by the properties of these names.
    Filter(Law, Sequence<Name>, LiveFilter),
}
