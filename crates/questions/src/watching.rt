//! Operations that may be watched.
ghost use Rattle.std.specs.Prelude.{◌≡◌, map, true, IfOk, IfSome, None};
ghost use Rattle.computing.specs.Computed.{has_keys};
ghost use Rattle.eval.specs.Literals.{interval_of};
ghost use Rattle.eval.specs.Values.{key_of};
ghost use Rattle.expr_text.specs.InLines.{IsNameAlone, IsOperation};
ghost use Rattle.expr_text.specs.Meanings.{query_of};
ghost use Rattle.live.specs.Putting.{as_watch_error};
ghost use Rattle.live.specs.declared.op.WatchOp.TheVariants as shows;
ghost use Rattle.relations.specs.Criteria.{valued};
ghost use Rattle.questions.specs.Operations.{Shows, computed_by as computation_of, name_alone as name_in, operand as operand_of, operation as operation_of};

use crate::sorted::keys_given;
use computing::Computation;
use eval::{Asked, bounds_asked, criteria_asked};
use expr_text::{Expr, Order};
use live::{WatchError, WatchOp};
use mk_value::{Memory, Name, Schema, Sequence};
use relations::{DerivedError, check_keys, check_literals, criteria_of};
use std::alloc::Global;

/// The name of what an operation is asked of.
pub fn operand(expr: &Expr) -> &Name
    requires { IsOperation (query_of expr.now) }
    ensures { result.now ≡ operand_of (query_of expr.now) }
{
    match expr {
        Expr::Select(source, _) => name_alone(source),
        Expr::Range(source, _) => name_alone(source),
        Expr::Sort(source, _) => name_alone(source),
        Expr::Counts(source, _, _) => name_alone(source),
        Expr::Keep(source, _, _) => name_alone(source),
        _ => unreachable!(),
    }
}

/// The name that an expression is.
fn name_alone(expr: &Expr) -> &Name
    requires { IsNameAlone (query_of expr.now) }
    ensures { result.now ≡ name_in (query_of expr.now) }
{
    match expr {
        Expr::Path(path) => path.name(),
        _ => unreachable!(),
    }
}

/// What a computed watch would show by an operation, where it is counts or a filter.
pub fn computed_by(alloc: Global, expr: &Expr) -> Result<Option<Computation>, Memory>
    requires { IsOperation (query_of expr.now) }
    ensures shows { IfOk result (λ shows. shows ≡ computation_of (query_of expr.now)) }
    ensures keys { IfOk result (λ shows. IfSome shows (λ s. has_keys s ≡ true)) }
{
    match expr {
        Expr::Counts(_, keys, count) => {
            let keys = copies(alloc, keys.as_slice())?;
            Ok(Some(Computation::Counts(keys, count.copy()?)))
        }
        Expr::Keep(_, viewer, props) => {
            let props = copies(alloc, props.as_slice())?;
            Ok(Some(Computation::Filter(viewer.copy()?, props)))
        }
        _ => Ok(None),
    }
}

/// The same names.
fn copies(alloc: Global, names: &[Name]) -> Result<Sequence<Name>, Memory>
    ensures { IfOk result (λ copies. copies ≡ names.now) }
{
    let mut copies = Sequence::new(alloc);
    for name in names {
        copies.push(name.copy()?)?;
    }
    Ok(copies)
}

/// What a selection, a range or a sorting shows of rows of a schema.
///
/// # Errors
///
/// `NoProp`, `WrongKind` by its criteria or its keys. Else `Memory`.
pub fn operation(alloc: Global, expr: &Expr, schema: &Schema) -> Result<WatchOp, WatchError>
    requires whole { IsOperation (query_of expr.now) }
    requires kept { computation_of (query_of expr.now) ≡ None }
    ensures { Shows schema.now (operation_of schema.now (query_of expr.now)) result }
{
    match expr {
        Expr::Select(_, criteria) => {
            let items = criteria_asked(alloc, criteria.as_slice())?;
            within(alloc, schema, &items)
        }
        Expr::Range(_, bounds) => {
            let items = bounds_asked(alloc, bounds.as_slice())?;
            within(alloc, schema, &items)
        }
        Expr::Sort(_, orders) => sorting(alloc, schema, orders.as_slice()),
        _ => unreachable!(),
    }
}

/// The rows within bounds.
fn within(alloc: Global, schema: &Schema, items: &[Asked<'_>]) -> Result<WatchOp, WatchError>
    ensures { Shows schema.now (shows.Range (map (valued schema.now) (map interval_of items.now))) result }
{
    if let Err(error) = check_literals(schema, items) {
        return Err(of_operator(error));
    }
    Ok(WatchOp::Range(criteria_of(alloc, schema, items)?))
}

/// The rows in the order of keys.
fn sorting(alloc: Global, schema: &Schema, orders: &[Order]) -> Result<WatchOp, WatchError>
    ensures { Shows schema.now (shows.Sort (map key_of orders.now)) result }
{
    let keys = keys_given(alloc, orders)?;
    if let Err(error) = check_keys(schema, keys.as_slice()) {
        return Err(of_operator(error));
    }
    Ok(WatchOp::Sort(keys))
}

/// How the refusal of criteria or keys is that of a watch.
fn of_operator(error: DerivedError) -> WatchError
    ensures { result ≡ as_watch_error error }
{
    match error {
        DerivedError::NoProp(_) => WatchError::NoProp,
        _ => WatchError::WrongKind,
    }
}
