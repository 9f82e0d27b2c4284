//! The rows of one table under those of another.
ghost use Rattle.std.specs.Prelude.{◌≡◌, IfOk};
ghost use Rattle.std.specs.Result.{result_err};
ghost use Rattle.derived.specs.Layers.{table_of};
ghost use Rattle.derived.specs.Operators.{concat};
ghost use Rattle.relations.specs.Answers.{AnswersDue};
ghost use Rattle.derived.specs.Refusals.{concat_due};

use crate::Derived;
use crate::derived::stack;
use mk_value::{MAX_ROWS, Same, TableRead};
use relations::DerivedError;
use std::alloc::Global;

/// The first's rows, then the second's. It copies none.
///
/// # Errors
///
/// The first that is due: `OtherSchema` where names or kinds differ, `TooManyRows`. Else `Memory`.
pub fn concat<T: TableRead + Same + Drop>(
    alloc: Global,
    a: Derived<T>,
    b: Derived<T>,
) -> Result<Derived<T>, DerivedError>
    ensures due { AnswersDue (concat_due (table_of a) (table_of b)) result }
    ensures ok { IfOk result (λ d. table_of d ≡ concat (table_of a) (table_of b)) }
{
    check_concat(&a, &b)?;
    Ok(stack(alloc, a, b)?)
}

/// Answers the first refusal that two tables under one another are due.
fn check_concat<T: TableRead + Same + Drop>(
    a: &Derived<T>,
    b: &Derived<T>,
) -> Result<(), DerivedError>
    ensures { result_err result ≡ concat_due (table_of a.now) (table_of b.now) }
{
    if !a.schema().is_same(b.schema()) {
        return Err(DerivedError::OtherSchema);
    }
    if a.size() + b.size() > MAX_ROWS {
        return Err(DerivedError::TooManyRows);
    }
    Ok(())
}
