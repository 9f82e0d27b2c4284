//! Views all of whose columns have a home.
ghost use Rattle.std.specs.Prelude.{◌≡◌, ◌≤◌, map, length, IfOk};
ghost use Rattle.commit_plan.specs.Following.{blocks_due};
ghost use Rattle.commit_plan.specs.Settling.{AreSettledViews, SettlesTables, counted, table_count};
ghost use Rattle.recovery.specs.Commits.{plain_views};

use crate::places::Places;
use crate::settling::settle_table;
use mk_value::{Memory, Span};
use std::alloc::Global;
use tables::Shared;
use view_store::{Names, Views};

/// The views with these spans as the homes of their columns that have none, in the order of a directory.
///
/// # Errors
///
/// `Memory`.
pub(crate) fn settle_views(alloc: Global, views: &Views, spans: &[Span]) -> Result<Views, Memory>
    requires { length (blocks_due (plain_views views.now)) ≤ length spans.now }
    ensures { IfOk result (AreSettledViews views.now spans.now) }
{
    let names = copy_names(alloc, views.names())?;
    let mut places = Places::of(spans);
    let tables = settle_each(alloc, views.tables(), &mut places)?;
    Ok(Views::of(names, tables))
}

fn copy_names(alloc: Global, names: &Names) -> Result<Names, Memory>
    ensures { IfOk result (λ copy. copy ≡ names.now) }
{
    let mut copy = Names::new(alloc);
    'names: for name in names.as_slice() {
        copy.push(name.copy()?)?;
    }
    Ok(copy)
}

fn settle_each(
    alloc: Global,
    tables: &[Shared],
    places: &mut Places<'_>,
) -> Result<Vec<Shared>, Memory>
    requires { counted table_count tables.now ≤ length places.old }
    ensures { IfOk result (λ settled. SettlesTables tables.now places.old places.new settled.items) }
{
    let mut settled = Vec::new(alloc);
    'tables: for table in tables {
        settled.push(settle_table(alloc, table, places)?)?;
    }
    Ok(settled)
}
