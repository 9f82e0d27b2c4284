//! What operators give of two tables.
ghost use Rattle.derived.specs.Layers.{table_of};
ghost use Rattle.expr_text.specs.Meanings.{query_of};
ghost use Rattle.eval.specs.Parts.{IsOverTwo, given_of_two};
ghost use Rattle.eval.specs.Values.{Evaluates};

use crate::error::EvalError;
use crate::on_one::at_size;
use derived::{Derived, concat};
use expr_text::Expr;
use joins::{different, intersect, join, minus, pair, product, union};
use mk_value::{Same, TableRead};
use std::alloc::Global;

/// What the outermost operator of an expression gives of the values of its two tables.
pub(crate) fn on_two<T: TableRead + Same + Drop>(
    alloc: Global,
    expr: &Expr,
    a: Derived<T>,
    b: Derived<T>,
) -> Result<Derived<T>, EvalError>
    requires { IsOverTwo (query_of expr.now) }
    ensures { Evaluates table_of (given_of_two (query_of expr.now) (table_of a) (table_of b)) result }
{
    let size = a.size();
    match expr {
        Expr::Concat(_, _) => at_size(concat(alloc, a, b), size),
        Expr::Pair(_, _) => at_size(pair(alloc, a, b), size),
        Expr::Product(_, _) => at_size(product(alloc, a, b), size),
        Expr::Union(_, _) => at_size(union(alloc, a, b), size),
        Expr::Intersect(_, _) => at_size(intersect(alloc, a, b), size),
        Expr::Minus(_, _) => at_size(minus(alloc, a, b), size),
        Expr::Different(_, _) => at_size(different(alloc, a, b), size),
        Expr::Join(_, _, keys) => at_size(join(alloc, a, b, keys.as_slice(), false), size),
        Expr::OuterJoin(_, _, keys) => at_size(join(alloc, a, b, keys.as_slice(), true), size),
        _ => unreachable!(),
    }
}
