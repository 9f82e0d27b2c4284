//! What operators give of one table.
ghost use Rattle.std.specs.Prelude.{◌≡◌, ◌<◌, true, false, length, map, IfOk};
ghost use Rattle.derived.specs.Layers.{table_of};
ghost use Rattle.derived.specs.Operators.{range as rows_within, select as rows_with, sort as rows_sorted};
ghost use Rattle.relations.specs.Answers.{outcome};
ghost use Rattle.relations.specs.Criteria.{valued};
ghost use Rattle.relations.specs.Refusals.{literals_due, sort_due};
ghost use Rattle.expr_text.specs.Meanings.{query_of};
ghost use Rattle.eval.specs.Answers.{AsAnswered, Gives, IsRefused};
ghost use Rattle.eval.specs.Parts.{IsOverOne, given_of_one};
ghost use Rattle.eval.specs.Values.{Evaluates, asked as asked_by, bounded as bounded_by, calculated, counted, kept, key_of};

use crate::error::EvalError;
use crate::literals::{bounds_asked, criteria_asked};
use derived::{Derived, project, range, rename, slice, sort, without};
use expr_text::{Bound, Crit, Expr, Order};
use grouping::{counts, group_by, unique};
use joins::join_prop;
use mk_value::{Memory, Name, Same, Sequence, TableRead};
use relations::{DerivedError, Key, check_literals, criteria_of};
use std::alloc::Global;
use viewed::{calc, keep};
use viewers::{Viewer, find as viewer_named};

/// What an operator answered, beside the size of its first table where it was refused.
pub(crate) fn at_size<T: TableRead + Same + Drop>(
    answer: Result<Derived<T>, DerivedError>,
    size: usize,
) -> Result<Derived<T>, EvalError>
    ensures { AsAnswered size answer result }
{
    match answer {
        Ok(derived) => Ok(derived),
        Err(error) => Err(EvalError::Op(error, size as u64)),
    }
}

/// What the outermost operator of an expression gives of the value of its one table.
pub(crate) fn on_one<T: TableRead + Same + Drop, V: Viewer>(
    alloc: Global,
    expr: &Expr,
    base: Derived<T>,
    viewers: &[V],
) -> Result<Derived<T>, EvalError>
    requires { IsOverOne (query_of expr.now) }
    ensures { Evaluates table_of (given_of_one (map V.meaning viewers.now) (query_of expr.now) (table_of base)) result }
{
    let size = base.size();
    match expr {
        Expr::Select(_, criteria) => at_size(select_by(alloc, base, criteria.as_slice()), size),
        Expr::Range(_, bounds) => at_size(range_by(alloc, base, bounds.as_slice()), size),
        Expr::Sort(_, orders) => at_size(sort_by(alloc, base, orders.as_slice()), size),
        Expr::Project(_, names) => at_size(project(alloc, base, names.as_slice()), size),
        Expr::Without(_, names) => at_size(without(alloc, base, names.as_slice()), size),
        Expr::Rename(_, name, new) => at_size(rename(alloc, base, name, new), size),
        Expr::Slice(_, first, limit, step) => {
            at_size(slice(alloc, base, *first, *limit, *step), size)
        }
        Expr::Unique(_) => at_size(unique(alloc, base), size),
        Expr::GroupBy(_, keys, sub) => at_size(group_by(alloc, base, keys.as_slice(), sub), size),
        Expr::Counts(_, keys, count) => counts_by(alloc, base, keys.as_slice(), count),
        Expr::JoinProp(_, sub) => at_size(join_prop(alloc, base, sub, false), size),
        Expr::OuterJoinProp(_, sub) => at_size(join_prop(alloc, base, sub, true), size),
        Expr::Calc(_, viewer, args, new) => {
            calc_by(alloc, base, viewers, viewer, args.as_slice(), new)
        }
        Expr::Keep(_, viewer, args) => keep_by(alloc, base, viewers, viewer, args.as_slice()),
        _ => unreachable!(),
    }
}

/// Each row with the answer of the viewer of a name behind it.
fn calc_by<T: TableRead + Same + Drop, V: Viewer>(
    alloc: Global,
    base: Derived<T>,
    viewers: &[V],
    viewer: &Name,
    args: &[Name],
    new: &Name,
) -> Result<Derived<T>, EvalError>
    ensures { Evaluates table_of (calculated (map V.meaning viewers.now) viewer.now args.now new.now (table_of base)) result }
{
    let size = base.size();
    match viewer_named(viewers, viewer) {
        Some(viewer) => at_size(calc(alloc, base, viewer, args, new), size),
        None => no_viewer(viewer),
    }
}

/// For each key the number of the rows that have it.
///
/// # Errors
///
/// The refusal of `counts`, beside the size of the table. Else `Memory`.
pub fn counts_by<T: TableRead + Same + Drop>(
    alloc: Global,
    base: Derived<T>,
    keys: &[Name],
    count: &Name,
) -> Result<Derived<T>, EvalError>
    requires some { 0 < length keys.now }
    ensures { Evaluates table_of (counted keys.now count.now (table_of base)) result }
{
    let size = base.size();
    at_size(counts(alloc, base, keys, count), size)
}

/// The rows for which the answer of the viewer of a name is not 0.
///
/// # Errors
///
/// `Viewer` where no viewer has the name; the refusal of `keep`, beside the size of the table. Else `Memory`.
pub fn keep_by<T: TableRead + Same + Drop, V: Viewer>(
    alloc: Global,
    base: Derived<T>,
    viewers: &[V],
    viewer: &Name,
    args: &[Name],
) -> Result<Derived<T>, EvalError>
    ensures { Evaluates table_of (kept (map V.meaning viewers.now) viewer.now args.now (table_of base)) result }
{
    let size = base.size();
    match viewer_named(viewers, viewer) {
        Some(viewer) => at_size(keep(alloc, base, viewer, args), size),
        None => no_viewer(viewer),
    }
}

/// The refusal of a viewer's name.
fn no_viewer<T: TableRead + Same + Drop>(name: &Name) -> Result<Derived<T>, EvalError>
    ensures { IsRefused name.now result }
{
    Err(EvalError::Viewer(name.copy()?))
}

/// The rows with these values.
fn select_by<T: TableRead + Same + Drop>(
    alloc: Global,
    base: Derived<T>,
    criteria: &[Crit],
) -> Result<Derived<T>, DerivedError>
    ensures { Gives table_of (outcome (literals_due (map asked_by criteria.now) base.schema) (rows_with (map (valued base.schema) (map asked_by criteria.now)) (table_of base))) result }
{
    let items = criteria_asked(alloc, criteria)?;
    check_literals(base.schema(), &items)?;
    let values = criteria_of(alloc, base.schema(), &items)?;
    derived::select(alloc, base, values.as_slice())
}

/// The rows with each value at or between its bounds.
fn range_by<T: TableRead + Same + Drop>(
    alloc: Global,
    base: Derived<T>,
    bounds: &[Bound],
) -> Result<Derived<T>, DerivedError>
    ensures { Gives table_of (outcome (literals_due (map bounded_by bounds.now) base.schema) (rows_within (map (valued base.schema) (map bounded_by bounds.now)) (table_of base))) result }
{
    let items = bounds_asked(alloc, bounds)?;
    check_literals(base.schema(), &items)?;
    let values = criteria_of(alloc, base.schema(), &items)?;
    range(alloc, base, values.as_slice())
}

/// The rows in an order.
fn sort_by<T: TableRead + Same + Drop>(
    alloc: Global,
    base: Derived<T>,
    orders: &[Order],
) -> Result<Derived<T>, DerivedError>
    ensures { Gives table_of (outcome (sort_due (map key_of orders.now) base.schema) (rows_sorted (map key_of orders.now) (table_of base))) result }
{
    let keys = keys_of(alloc, orders)?;
    sort(alloc, base, keys.as_slice())
}

/// The keys to sort by that these are.
pub(crate) fn keys_of(alloc: Global, orders: &[Order]) -> Result<Sequence<Key>, Memory>
    ensures { IfOk result (λ keys. keys ≡ map key_of orders.now) }
{
    let mut keys = Sequence::new(alloc);
    for order in orders {
        keys.push(key(order)?)?;
    }
    Ok(keys)
}

/// The key to sort by that this is.
fn key(order: &Order) -> Result<Key, Memory>
    ensures { IfOk result (λ key. key ≡ key_of order.now) }
{
    let prop = order.prop.copy()?;
    Ok(Key {
        prop,
        down: order.down,
    })
}
