//! The ways along the steps of a path.
ghost use Rattle.std.specs.Prelude.{◌≡◌, Ok, Err, IfOk, MatchResult, IsOk};
ghost use Rattle.view_store.specs.Edits.{table_at};
ghost use Rattle.view_store.specs.Refusals.{rows_at, schema_at};

use crate::EditError;
use mk_value::{Kind, Schema, Step, TableRead};
use tables::Nested;

/// The schema to which the steps lead.
pub(crate) fn find_schema<'a>(schema: &'a Schema, steps: &[Step]) -> Result<&'a Schema, EditError>
    ensures { MatchResult result (λ found. schema_at steps.now schema.now ≡ Ok found.now) (λ e. schema_at steps.now schema.now ≡ Err e) }
{
    let Some((step, rest)) = steps.split_first() else {
        return Ok(schema);
    };
    let Some(col) = schema.find(step.prop.as_str()) else {
        return Err(EditError::NoProp);
    };
    let prop = &schema.as_slice()[col];
    match &prop.kind {
        Kind::V(inner) => find_schema(inner, rest),
        _ => Err(EditError::WrongKind),
    }
}

/// The table to which the steps lead.
pub(crate) fn find_table<'a>(table: Nested<'a>, steps: &[Step]) -> Result<Nested<'a>, EditError>
    requires { IsOk (schema_at steps.now table.schema) }
    ensures rows { MatchResult result (λ found. rows_at steps.now table.entry.schema table.entry.rows ≡ Ok found.rows) (λ e. rows_at steps.now table.entry.schema table.entry.rows ≡ Err e) }
    ensures table { IfOk result (λ found. found ≡ table_at steps.now table.entry) }
{
    let Some((step, rest)) = steps.split_first() else {
        return Ok(table);
    };
    let row = step.row as usize;
    let size = table.size();
    if row >= size {
        return Err(EditError::OutOfRange(size as u64));
    }
    let col = table.schema().find(step.prop.as_str()).unwrap();
    find_table(table.inner(row, col), rest)
}
