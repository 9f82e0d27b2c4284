//! The rows of a table whose answer is not 0.
ghost use Rattle.std.specs.Prelude.{◌≡◌, [], IfOk};
ghost use Rattle.derived.specs.Layers.{table_of};
ghost use Rattle.derived.specs.Viewing.{keep, keep_due};
ghost use Rattle.relations.specs.Answers.{AnswersDue};
ghost use Rattle.relations.specs.Positions.{passing};
ghost use Rattle.viewed.specs.Asking.{AreAsked, is_kept};

use crate::asking::{answer_for, columns_of};
use crate::checks::check_keep;
use derived::{Derived, gather};
use mk_value::{Memory, Name, Positions, Same, TableRead};
use relations::{Columns, DerivedError};
use std::alloc::Global;
use viewers::Viewer;

/// The rows on whose values for these names the viewer's answer is not 0, in base order.
///
/// # Errors
///
/// The first that is due: `NoProp`, `WrongKind` with the viewer's name where it takes another number of arguments, and else with the
/// first argument that is of another kind. Else `Memory`.
pub fn keep<T: TableRead + Same + Drop, V: Viewer>(
    alloc: Global,
    base: Derived<T>,
    viewer: &V,
    args: &[Name],
) -> Result<Derived<T>, DerivedError>
    ensures due { AnswersDue (keep_due (V.meaning viewer.now).name (V.meaning viewer.now).takes args.now base.schema) result }
    ensures ok { IfOk result (λ d. table_of d ≡ keep (V.meaning viewer.now).gives args.now (table_of base)) }
{
    check_keep(base.schema(), viewer, args)?;
    let _size = base.size();
    let columns = columns_of(alloc, base.schema(), args)?;
    let positions = kept_positions(alloc, &base, viewer, &columns)?;
    Ok(gather(alloc, base, positions)?)
}

/// The positions of the rows whose answer is not 0.
pub fn kept_positions<T: TableRead, V: Viewer>(
    alloc: Global,
    table: &T,
    viewer: &V,
    columns: &Columns,
) -> Result<Positions, Memory>
    requires { AreAsked (T.schema table.now) (V.meaning viewer.now).takes columns.now }
    ensures { IfOk result (λ positions. positions ≡ passing (is_kept (V.meaning viewer.now).gives columns.now) [] (T.rows table.now)) }
{
    let mut positions = Positions::new(alloc);
    for row in 0..table.size() {
        if answer_for(alloc, table, viewer, columns, row)? == 0 {
            continue;
        }
        positions.push(row as u32)?;
    }
    Ok(positions)
}
