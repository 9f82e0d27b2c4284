//! The first of equal rows.
ghost use Rattle.std.specs.Prelude.{◌≡◌, true, None, IfOk};
ghost use Rattle.derived.specs.Layers.{table_of};
ghost use Rattle.derived.specs.Operators.{unique};
ghost use Rattle.relations.specs.Answers.{AnswersDue};
ghost use Rattle.grouping.specs.Index.{first_positions};
ghost use Rattle.grouping.specs.WholeRows.{is_plain as has_plain_values};

use crate::RowIndex;
use crate::whole_rows::{is_plain, whole_index};
use derived::{Derived, gather};
use mk_value::{Memory, Positions, Same, TableRead};
use relations::{DerivedError, copy_rows};
use std::alloc::Global;

/// The first of equal rows, in base order. Two rows are equal where all their values are, views row by row.
///
/// # Errors
///
/// `Memory`.
pub fn unique<T: TableRead + Same + Drop>(
    alloc: Global,
    base: Derived<T>,
) -> Result<Derived<T>, DerivedError>
    ensures due { AnswersDue None result }
    ensures ok { IfOk result (λ d. table_of d ≡ unique (table_of base)) }
{
    let _size = base.size();
    let firsts = firsts(alloc, &base)?;
    Ok(gather(alloc, base, firsts)?)
}

/// The positions of the first of equal rows, ascending.
fn firsts<T: TableRead + Same + Drop>(
    alloc: Global,
    table: &Derived<T>,
) -> Result<Positions, Memory>
    ensures { IfOk result (λ firsts. firsts ≡ first_positions table.now.rows) }
{
    if is_plain(table.schema()) {
        return firsts_of_plain(alloc, table);
    }
    let rows = copy_rows(alloc, table)?;
    RowIndex::new(alloc, rows)?.firsts(alloc)
}

/// The same where no value is a view. It copies no row.
fn firsts_of_plain<T: TableRead + Same + Drop>(
    alloc: Global,
    table: &Derived<T>,
) -> Result<Positions, Memory>
    requires { has_plain_values table.now.schema ≡ true }
    ensures { IfOk result (λ firsts. firsts ≡ first_positions table.now.rows) }
{
    whole_index(alloc, table)?.firsts(alloc)
}
