//! Rows that are left out where another row of their key is known to be among those that are kept.
//!
//! Of the rows that are kept the latest are remembered, each at a place that its key gives. So of a key that comes often few rows are
//! kept, and a key that comes once costs one look: what stands on distinct keys alone is asked of the kept rows, and what it answers
//! does not hang on where keys are remembered.
ghost use Rattle.std.specs.Prelude.{◌≡◌, ◌+◌, ◌<◌, ◌≤◌, All, Contains, length, IfOk, OnOk};
ghost use Rattle.mk_value.specs.Limits.{max_rows};
ghost use Rattle.grouping.specs.Index.{Cover};

use crate::keys::{Keys, TableKeys};
use mk_value::{Memory, TableRead};
use std::alloc::Global;

/// How many rows are remembered at most.
const REMEMBERED: usize = 65_536;

/// Positions, ascending, of rows that have each key of the table.
pub(crate) fn first_seen<T: TableRead>(
    alloc: Global,
    keys: &TableKeys<'_, T>,
) -> Result<Vec<u32>, Memory>
    ensures { IfOk result (λ kept. Cover keys.now (length keys.now) kept.items) }
{
    let mut kept = Vec::new(alloc);
    let size = keys.len();
    if size == 0 {
        return Ok(kept);
    }
    kept.push(0)?;
    let mut seen = vec![in alloc; 0; size.min(REMEMBERED)]?;
    look_through(keys, &mut seen, kept)
}

/// Looks at all rows but the first, which is kept and remembered at each place.
fn look_through<T: TableRead>(
    keys: &TableKeys<'_, T>,
    seen: &mut [u32],
    mut kept: Vec<u32>,
) -> Result<Vec<u32>, Memory>
    requires rows { 0 < length keys.now }
    requires some { 0 < length seen.old }
    requires known { All (Contains kept.items) seen.old }
    requires cover { Cover keys.now 1 kept.items }
    ensures { IfOk result (λ kept. Cover keys.now (length keys.now) kept.items) }
{
    for at in 1..keys.len() {
        look(keys, at, seen, &mut kept)?;
    }
    Ok(kept)
}

/// Keeps a row, unless the row that is remembered at the place of its key has the same.
fn look<T: TableRead>(
    keys: &TableKeys<'_, T>,
    at: usize,
    seen: &mut [u32],
    kept: &mut Vec<u32>,
) -> Result<(), Memory>
    requires at_in { at < length keys.now }
    requires few { length keys.now ≤ max_rows }
    requires some { 0 < length seen.old }
    requires known { All (Contains kept.old.items) seen.old }
    requires cover { Cover keys.now at kept.old.items }
    ensures known { OnOk result (All (Contains kept.new.items) seen.new) }
    ensures cover { OnOk result (Cover keys.now (at + 1) kept.new.items) }
{
    let place = keys.hash(at) as usize % seen.len();
    let other = seen[place] as usize;
    if keys.cmp(other, at).is_eq() {
        return Ok(());
    }
    kept.push(at as u32)?;
    seen[place] = at as u32;
    Ok(())
}
