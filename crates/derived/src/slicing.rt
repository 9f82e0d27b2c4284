//! The rows of a table at equal steps.
ghost use Rattle.std.specs.Prelude.{◌≡◌, ◌<◌, ◌≤◌, ◌^◌, false, min, unsigned_abs, IfOk};
ghost use Rattle.mk_value.specs.Limits.{max_rows};
ghost use Rattle.derived.specs.Layers.{table_of};
ghost use Rattle.relations.specs.Positions.{numbers};
ghost use Rattle.derived.specs.Operators.{every, is_backwards, slice, turned_if};
ghost use Rattle.relations.specs.Answers.{AnswersDue};
ghost use Rattle.derived.specs.Refusals.{is_zero, slice_due};

use crate::Derived;
use crate::derived::gather;
use mk_value::{Memory, Positions, Same, TableRead};
use relations::DerivedError;
use std::alloc::Global;

/// With s the step without its sign: the rows FIRST, FIRST + s and so on below LIMIT and the size; reversed where the step is
/// negative.
///
/// # Errors
///
/// `ZeroStep` exactly where the step is 0. Else `Memory`.
pub fn slice<T: TableRead + Same + Drop>(
    alloc: Global,
    base: Derived<T>,
    first: u64,
    limit: u64,
    step: i64,
) -> Result<Derived<T>, DerivedError>
    ensures due { AnswersDue (slice_due step) result }
    ensures ok { IfOk result (λ d. table_of d ≡ slice first limit step (table_of base)) }
{
    if step == 0 {
        return Err(DerivedError::ZeroStep);
    }
    let positions = positions_at_steps(alloc, base.size(), first, limit, step)?;
    Ok(gather(alloc, base, Positions::from(positions))?)
}

/// The positions of the rows of a slice of so many rows.
fn positions_at_steps(
    alloc: Global,
    size: usize,
    first: u64,
    limit: u64,
    step: i64,
) -> Result<Vec<u32>, Memory>
    requires few { size ≤ max_rows }
    requires some { is_zero step ≡ false }
    ensures { IfOk result (λ positions. positions.items ≡ turned_if (is_backwards step) (every (unsigned_abs step) first (numbers (min limit size)))) }
{
    let end = limit.min(size as u64);
    let mut positions = steps(alloc, first, end, step.unsigned_abs())?;
    if step >= 0 {
        return Ok(positions);
    }
    positions.reverse();
    Ok(positions)
}

/// The numbers from the first on at equal steps below the end.
fn steps(alloc: Global, first: u64, end: u64, step: u64) -> Result<Vec<u32>, Memory>
    requires some { 0 < step }
    requires short { step ≤ 2 ^ 63 }
    requires few { end ≤ max_rows }
    ensures { IfOk result (λ positions. positions.items ≡ every step first (numbers end)) }
{
    let mut positions = Vec::new(alloc);
    let mut at = first;
    while at < end {
        positions.push(at as u32)?;
        at += step;
    }
    Ok(positions)
}
