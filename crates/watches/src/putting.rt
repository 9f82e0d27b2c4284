//! A watch is put, and its rows are asked for.
ghost use Rattle.std.specs.Prelude.{◌≡◌, ◌<◌, ◌≤◌, [], All, ℕ, List, length, false, None, IfOk, IsErr, OnOk, OnErr, Err};
ghost use Rattle.std.specs.Option.{ForSome};
ghost use Rattle.std.specs.Result.{result_err};
ghost use Rattle.mk_value.specs.Data.{Datum};
ghost use Rattle.mk_value.specs.Heading.{Attribute};
ghost use Rattle.mk_value.specs.Limits.{max_rows};
ghost use Rattle.relations.specs.Rows.{rows_at};
ghost use Rattle.live.specs.Chains.{AreNow, LeadTo, depth};
ghost use Rattle.live.specs.Numbers.{over_of, place_of};
ghost use Rattle.live.specs.Putting.{AnswersPut, IsPut};
ghost use Rattle.watches.specs.Lines.{refusal_of, watch_due};

use live::{WatchError, WatchOp, Watches};
use mk_value::{Memory, Positions, Schema, TableRead};
use relations::{DerivedError, check_criteria, check_keys};
use std::alloc::Global;

/// Whether a watch may be put, whatever memory there is.
///
/// # Errors
///
/// The refusal that is due, as of `put_watch`.
pub fn check_watch(
    watches: &Watches,
    source: Option<u32>,
    op: &WatchOp,
    schema: &Schema,
    is_full: bool,
) -> Result<(), WatchError>
    requires { ForSome source (λ n. place_of watches.now.watches n < length watches.now.watches) }
    ensures { result_err result ≡ watch_due schema.now op.now (depth watches.now.watches (over_of watches.now.watches source)) is_full }
{
    if is_full {
        return Err(refusal(schema, op));
    }
    watches.check(source, op, schema)
}

/// Puts a watch over the root or over another watch, as [`Watches::put`]; where it would be one too many over all roots it is refused as one
/// that stands too deep is, after its own refusals.
///
/// # Errors
///
/// The first that is due: `NoProp`, `WrongKind`, `TooDeep`. Else `Memory`. The watches are then as before.
pub fn put_watch<T: TableRead>(
    watches: &mut Watches,
    source: Option<u32>,
    op: WatchOp,
    rows: &T,
    is_full: bool,
) -> Result<u32, WatchError>
    requires there { ForSome source (λ n. place_of watches.old.watches n < length watches.old.watches) }
    requires few { is_full ≡ false → length watches.old.watches < 64 }
    requires now { AreNow (T.schema rows.now) (T.rows rows.now) watches.old.watches }
    ensures due { AnswersPut (watch_due (T.schema rows.now) op (depth watches.old.watches (over_of watches.old.watches source)) is_full) result }
    ensures put { IfOk result (IsPut (T.schema rows.now) (T.rows rows.now) watches.old.watches (over_of watches.old.watches source) op watches.new.watches) }
    ensures noted { OnOk result (watches.new.noted ≡ None) }
    ensures now { AreNow (T.schema rows.now) (T.rows rows.now) watches.new.watches }
    ensures err { OnErr result (watches.new ≡ watches.old) }
{
    if is_full {
        let refusal = refusal(rows.schema(), &op);
        drop(op);
        return Err(refusal);
    }
    watches.put(source, op, rows)
}

/// The refusal of a watch that would be one too many.
fn refusal(schema: &Schema, op: &WatchOp) -> WatchError
    ensures { result ≡ refusal_of schema.now op.now }
{
    let checked = match op {
        WatchOp::Range(criteria) => check_criteria(schema, criteria.as_slice()),
        WatchOp::Sort(keys) => check_keys(schema, keys.as_slice()),
    };
    match checked {
        Ok(()) => WatchError::TooDeep,
        Err(DerivedError::NoProp(_)) => WatchError::NoProp,
        Err(_) => WatchError::WrongKind,
    }
}

/// The positions of a watch's rows in those of the root, in its order.
pub fn watch_positions<T: TableRead>(
    alloc: Global,
    watches: &Watches,
    watch: u32,
    rows: &T,
) -> Result<Positions, Memory>
    requires there { place_of watches.now.watches watch < length watches.now.watches }
    requires now { AreNow (T.schema rows.now) (T.rows rows.now) watches.now.watches }
    ensures { IfOk result (λ places. LeadTo (T.rows rows.now) watches.now.watches (place_of watches.now.watches watch) places) }
{
    let mut places = Positions::new(alloc);
    for row in 0..watches.len(watch) {
        places.push(watches.at(watch, row) as u32)?;
    }
    Ok(places)
}
