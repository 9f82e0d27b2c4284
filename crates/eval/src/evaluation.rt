//! The value of an expression.
ghost use Rattle.std.specs.Prelude.{map};
ghost use Rattle.derived.specs.Layers.{table_of};
ghost use Rattle.expr_text.specs.Meanings.{query_of};
ghost use Rattle.eval.specs.Parts.{IsWhole};
ghost use Rattle.eval.specs.Values.{Evaluates, value};

use crate::bases::{Bases, bases_of};
use crate::error::EvalError;
use crate::names::Names;
use crate::on_one::on_one;
use crate::on_two::on_two;
use crate::sliced::{as_sliced, slice_sorted};
use derived::Derived;
use expr_text::Expr;
use mk_value::{Same, TableRead};
use std::alloc::Global;
use viewers::Viewer;

/// The table that an expression asks for.
///
/// # Errors
///
/// The first refusal, from the left and from the inside: that of a path, of a name that no viewer has, or of an operator, beside the size of
/// its first table. Else `Memory`, in the place of either.
pub fn eval<T: TableRead + Same + Drop, N: Names<T>, V: Viewer>(
    alloc: Global,
    expr: &Expr,
    names: &N,
    viewers: &[V],
) -> Result<Derived<T>, EvalError>
    requires { IsWhole (query_of expr.now) }
    ensures { Evaluates table_of (value (N.named names.now) (map V.meaning viewers.now) (query_of expr.now)) result }
{
    // Of a sorting that is sliced only the first rows are found.
    if let Some(sliced) = as_sliced(expr) {
        let base = eval(alloc, sliced.base, names, viewers)?;
        return slice_sorted(alloc, base, &sliced);
    }
    match bases_of(expr) {
        Bases::Path(path) => match names.view(path) {
            Ok(derived) => Ok(derived),
            Err(error) => Err(EvalError::Name(error)),
        },
        Bases::One(base) => {
            let base = eval(alloc, base, names, viewers)?;
            on_one(alloc, expr, base, viewers)
        }
        Bases::Two(first, second) => {
            let first = eval(alloc, first, names, viewers)?;
            let second = eval(alloc, second, names, viewers)?;
            on_two(alloc, expr, first, second)
        }
    }
}
