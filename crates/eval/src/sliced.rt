//! A slice of a sorting, of which only the rows are found that may be in it.
ghost use Rattle.std.specs.Prelude.{◌≡◌, IfSome, map};
ghost use Rattle.derived.specs.Layers.{table_of};
ghost use Rattle.derived.specs.Operators.{first_rows, sort as rows_sorted};
ghost use Rattle.expr_text.specs.Meanings.{query_of};
ghost use Rattle.eval.specs.Answers.{Gives};
ghost use Rattle.eval.specs.Parts.{slice_of_sorting, sliced, sorted_by};
ghost use Rattle.eval.specs.Values.{Evaluates, key_of};
ghost use Rattle.relations.specs.Answers.{outcome};
ghost use Rattle.relations.specs.Refusals.{sort_due};

use crate::error::EvalError;
use crate::on_one::{at_size, keys_of};
use derived::{Derived, slice, sort_first};
use expr_text::{Expr, Order};
use mk_value::{Same, TableRead};
use relations::DerivedError;
use std::alloc::Global;

/// A slice of the sorting of an expression.
#[derive(Drop)]
pub(crate) struct Sliced<'a> {
    pub(crate) base: &'a Expr,
    pub(crate) orders: &'a [Order],
    pub(crate) first: u64,
    pub(crate) limit: u64,
    pub(crate) step: i64,
}

/// The expression as a slice of a sorting, where it is one.
pub(crate) fn as_sliced(expr: &Expr) -> Option<Sliced<'_>>
    ensures { IfSome result (λ s. query_of expr.now ≡ sliced (sorted_by (query_of s.base.now) s.orders.now) s.first s.limit s.step) }
{
    match expr {
        Expr::Slice(base, first, limit, step) => of_sorting(base, *first, *limit, *step),
        _ => None,
    }
}

/// The slice of an expression, where that is a sorting.
fn of_sorting(expr: &Expr, first: u64, limit: u64, step: i64) -> Option<Sliced<'_>>
    ensures { IfSome result (λ s. (query_of expr.now ≡ sorted_by (query_of s.base.now) s.orders.now) × (s.first ≡ first) × (s.limit ≡ limit) × (s.step ≡ step)) }
{
    match expr {
        Expr::Sort(base, orders) => Some(Sliced {
            base,
            orders: orders.as_slice(),
            first,
            limit,
            step,
        }),
        _ => None,
    }
}

/// The slice of the sorting of a table.
pub(crate) fn slice_sorted<T: TableRead + Same + Drop>(
    alloc: Global,
    base: Derived<T>,
    sliced: &Sliced<'_>,
) -> Result<Derived<T>, EvalError>
    ensures { Evaluates table_of (slice_of_sorting sliced.now.orders.now sliced.now.first sliced.now.limit sliced.now.step (table_of base)) result }
{
    let size = base.size();
    let sorted = at_size(first_by(alloc, base, sliced.orders, sliced.limit), size)?;
    at_size(
        slice(alloc, sorted, sliced.first, sliced.limit, sliced.step),
        size,
    )
}

/// The first rows in an order.
fn first_by<T: TableRead + Same + Drop>(
    alloc: Global,
    base: Derived<T>,
    orders: &[Order],
    count: u64,
) -> Result<Derived<T>, DerivedError>
    ensures { Gives table_of (outcome (sort_due (map key_of orders.now) base.schema) (first_rows count (rows_sorted (map key_of orders.now) (table_of base)))) result }
{
    let keys = keys_of(alloc, orders)?;
    sort_first(alloc, base, keys.as_slice(), count)
}
