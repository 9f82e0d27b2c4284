//! The rows of a watch, read where they stand in its view.
ghost use Rattle.std.specs.Prelude.{◌<◌, length};
ghost use Rattle.live.specs.Chains.{AreNow};
ghost use Rattle.live.specs.Numbers.{place_of};

use live::Watches;
use tables::Shared;

/// The rows of a watch of a view, as a table. None of them is made, and reading them takes no memory.
#[derive(Clone, Copy)]
pub struct WatchRows<'a> {
    pub(crate) watches: &'a Watches,
    pub(crate) number: u32,
    pub(crate) rows: &'a Shared,
    pub(crate) ghost kept: { AreNow rows.now.schema rows.now.rows watches.now.watches },
    pub(crate) ghost there: { place_of watches.now.watches number < length watches.now.watches },
}
