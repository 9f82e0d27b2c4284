//! What follows the events of a table.

use anyhow::Result;
use live::Event;
use mk_value::{Row, Steps};
use std::sync::ledger::Ledger;

/// A table, or the keys of one, with what follows its events.
pub trait Follower {
    /// The number of rows.
    fn size(&self) -> usize;

    /// What has followed an event, and the nanoseconds that following took. The row is the one that comes.
    fn follow<L: Ledger>(
        self,
        rt: &HostRuntime,
        event: &Event,
        row: &Row,
        steps: &mut Steps<L>,
    ) -> Result<(Self, u64)>
    where
        Self: Sized;
}
