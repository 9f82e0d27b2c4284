//! What a watch is asked by, as it is put: the refusals that are due, and the keys of a sorting that is given none.
ghost use Rattle.std.specs.Prelude.{◌≡◌, None, IfOk};
ghost use Rattle.std.specs.Option.{option_map};
ghost use Rattle.std.specs.Result.{result_err};
ghost use Rattle.relations.specs.Sorting.{all_keys, keys_or_all};
ghost use Rattle.live.specs.Putting.{as_watch_error, spelled};
ghost use Rattle.live.specs.Watching.{MeansAs, op_due};

use crate::error::WatchError;
use crate::op::{Keys, WatchOp};
use mk_value::{Memory, Schema};
use relations::lookup::is_view;
use relations::{DerivedError, Key, check_criteria, check_keys, deciding_keys, merged};
use std::alloc::Global;

/// Answers the refusal that the criteria or the keys are due.
pub(crate) fn check_op(schema: &Schema, op: &WatchOp) -> Result<(), WatchError>
    ensures { result_err result ≡ option_map as_watch_error (op_due schema.now op.now) }
{
    let checked = match op {
        WatchOp::Range(criteria) => check_criteria(schema, criteria.as_slice()),
        WatchOp::Sort(keys) => check_keys(schema, keys.as_slice()),
    };
    match checked {
        Ok(()) => Ok(()),
        Err(error) => Err(as_refusal(&error)),
    }
}

/// The refusal of criteria or keys as that of a watch.
fn as_refusal(error: &DerivedError) -> WatchError
    ensures { result ≡ as_watch_error error.now }
{
    match error {
        DerivedError::NoProp(_) => WatchError::NoProp,
        _ => WatchError::WrongKind,
    }
}

/// The operator, with its keys written out where it is a sorting without keys.
pub(crate) fn spelled(alloc: Global, schema: &Schema, op: WatchOp) -> Result<WatchOp, Memory>
    ensures { IfOk result (λ op2. op2 ≡ spelled schema.now op) }
{
    match op {
        WatchOp::Range(criteria) => Ok(WatchOp::Range(criteria)),
        WatchOp::Sort(keys) => Ok(WatchOp::Sort(keys_or_all(alloc, schema, keys)?)),
    }
}

/// What an operator asks of rows, with each property once: so a row is looked at once by each.
pub(crate) fn asked_once(alloc: Global, op: &WatchOp) -> Result<WatchOp, Memory>
    ensures { IfOk result (MeansAs op.now) }
{
    match op {
        WatchOp::Range(criteria) => Ok(WatchOp::Range(merged(alloc, criteria.as_slice())?)),
        WatchOp::Sort(keys) => Ok(WatchOp::Sort(deciding_keys(alloc, keys.as_slice())?)),
    }
}

/// The keys that are given, or all where none is.
fn keys_or_all(alloc: Global, schema: &Schema, keys: Keys) -> Result<Keys, Memory>
    ensures { IfOk result (λ all. all ≡ keys_or_all schema.now keys) }
{
    if !keys.is_empty() {
        return Ok(keys);
    }
    all_keys(alloc, schema)
}

/// All properties that are no views, upwards.
fn all_keys(alloc: Global, schema: &Schema) -> Result<Keys, Memory>
    ensures { IfOk result (λ keys. keys ≡ all_keys schema.now) }
{
    let mut keys = Keys::new(alloc);
    for col in 0..schema.len() {
        let prop = &schema.as_slice()[col];
        if is_view(&prop.kind) {
            continue;
        }
        let prop = prop.name.copy()?;
        keys.push(Key { prop, down: false })?;
    }
    Ok(keys)
}
