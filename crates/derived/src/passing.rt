//! The rows of a table that pass a test.
ghost use Rattle.std.specs.Prelude.{◌≡◌, All, IfOk};
ghost use Rattle.derived.specs.Layers.{table_of};
ghost use Rattle.derived.specs.Operators.{range, select};
ghost use Rattle.relations.specs.Answers.{AnswersDue};
ghost use Rattle.relations.specs.Refusals.{range_due};

use crate::Derived;
use crate::derived::gather;
use mk_value::{Same, TableRead};
use relations::{Criterion, DerivedError, check_criteria, positions_in_range};
use std::alloc::Global;

/// The rows that have the values of the criteria, in base order. With no criteria every row.
///
/// # Errors
///
/// The first that is due: `NoProp`, `KeyIsView`, `WrongKind` where a value does not fit its property. Else `Memory`.
pub fn select<T: TableRead + Same + Drop>(
    alloc: Global,
    base: Derived<T>,
    criteria: &[Criterion],
) -> Result<Derived<T>, DerivedError>
    requires equal { All (λ c. c.low ≡ c.high) criteria.now }
    ensures due { AnswersDue (range_due criteria.now base.schema) result }
    ensures ok { IfOk result (λ d. table_of d ≡ select criteria.now (table_of base)) }
{
    range(alloc, base, criteria)
}

/// The rows whose values lie at or between the bounds of the criteria, in base order. With no criteria every row.
///
/// # Errors
///
/// The first that is due: `NoProp`, `KeyIsView`, `WrongKind` where a bound does not fit its property. Else `Memory`.
pub fn range<T: TableRead + Same + Drop>(
    alloc: Global,
    base: Derived<T>,
    criteria: &[Criterion],
) -> Result<Derived<T>, DerivedError>
    ensures due { AnswersDue (range_due criteria.now base.schema) result }
    ensures ok { IfOk result (λ d. table_of d ≡ range criteria.now (table_of base)) }
{
    check_criteria(base.schema(), criteria)?;
    let _size = base.size();
    let positions = positions_in_range(alloc, &base, criteria)?;
    Ok(gather(alloc, base, positions)?)
}
