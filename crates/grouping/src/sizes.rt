//! How many rows groups and counts have, of which none is made.
ghost use Rattle.std.specs.Prelude.{◌≡◌, length, map, None, IfOk};
ghost use Rattle.derived.specs.Grouping.{counts, group_by};
ghost use Rattle.derived.specs.Layers.{table_of};
ghost use Rattle.derived.specs.Refusals.{counts_due, group_by_due};
ghost use Rattle.relations.specs.Answers.{AnswersDue};
ghost use Rattle.relations.specs.Refusals.{a_view, absent};
ghost use Rattle.relations.specs.Rows.{once, values_of};
ghost use Rattle.grouping.specs.Index.{Cover, keys_of};

use crate::counting::check_counts;
use crate::grouped::check_group_by;
use crate::keyed::{key_index, table_keys};
use crate::seen::first_seen;
use derived::{Derived, gather};
use mk_value::{Memory, Name, Positions, Same, TableRead};
use relations::DerivedError;
use std::alloc::Global;

/// The number of rows that `group_by` gives.
///
/// # Errors
///
/// As of `group_by`.
pub fn group_by_size<T: TableRead + Same + Drop>(
    alloc: Global,
    base: Derived<T>,
    keys: &[Name],
    sub: &Name,
) -> Result<usize, DerivedError>
    ensures due { AnswersDue (group_by_due keys.now sub.now (table_of base)) result }
    ensures ok { IfOk result (λ size. size ≡ length (group_by keys.now sub.now (table_of base)).rows) }
{
    check_group_by(base.schema(), keys, sub)?;
    let _size = base.size();
    Ok(count_keys(alloc, base, keys)?)
}

/// The number of rows that `counts` gives.
///
/// # Errors
///
/// As of `counts`.
pub fn counts_size<T: TableRead + Same + Drop>(
    alloc: Global,
    base: Derived<T>,
    keys: &[Name],
    count: &Name,
) -> Result<usize, DerivedError>
    ensures due { AnswersDue (counts_due keys.now count.now (table_of base)) result }
    ensures ok { IfOk result (λ size. size ≡ length (counts keys.now count.now (table_of base)).rows) }
{
    check_counts(base.schema(), keys, count)?;
    let _size = base.size();
    Ok(count_keys(alloc, base, keys)?)
}

/// The number of distinct keys. Keys are sorted only of rows whose key was not seen a short while before.
fn count_keys<T: TableRead + Same + Drop>(
    alloc: Global,
    base: Derived<T>,
    keys: &[Name],
) -> Result<usize, Memory>
    requires named { absent base.schema keys.now ≡ None }
    requires plain { a_view base.schema keys.now ≡ None }
    ensures { IfOk result (λ count. count ≡ length (keys_of (map (values_of base.schema (once keys.now)) base.rows))) }
{
    let firsts = first_rows(alloc, &base, keys)?;
    let _size = base.size();
    let few = gather(alloc, base, firsts)?;
    let index = key_index(alloc, &few, keys)?;
    Ok(index.groups())
}

/// Positions of rows that have each key.
fn first_rows<T: TableRead + Same + Drop>(
    alloc: Global,
    table: &Derived<T>,
    keys: &[Name],
) -> Result<Positions, Memory>
    requires named { absent table.now.schema keys.now ≡ None }
    requires plain { a_view table.now.schema keys.now ≡ None }
    ensures { let keyed = map (values_of table.now.schema (once keys.now)) table.now.rows in IfOk result (Cover keyed (length keyed)) }
{
    let keys = table_keys(alloc, table, keys)?;
    Ok(Positions::from(first_seen(alloc, &keys)?))
}
