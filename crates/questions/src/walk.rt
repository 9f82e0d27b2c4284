//! The ways along the steps of a path.
ghost use Rattle.std.specs.Prelude.{◌≡◌, Ok, Err, IsOk, MatchResult};
ghost use Rattle.eval.specs.Names.{rows_at, schema_at, table_at};
ghost use Rattle.questions.specs.Kept.{table_of};

use eval::NameError;
use mk_value::{Kind, Schema, Step, TableRead};
use tables::{Nested, Shared};

/// The table to which the steps lead. All properties are looked at before a row is.
pub(crate) fn inner_table<'a>(table: &'a Shared, steps: &[Step]) -> Result<Nested<'a>, NameError>
    ensures { MatchResult result (λ found. table_at steps.now (table_of table.now) ≡ Ok (table_of found)) (λ e. table_at steps.now (table_of table.now) ≡ Err e) }
{
    let _schema = inner_schema(table.schema(), steps)?;
    find_table(Nested::of(table), steps)
}

/// The schema to which the steps lead.
fn inner_schema<'a>(schema: &'a Schema, steps: &[Step]) -> Result<&'a Schema, NameError>
    ensures { MatchResult result (λ found. schema_at steps.now schema.now ≡ Ok found.now) (λ e. schema_at steps.now schema.now ≡ Err e) }
{
    let Some((step, rest)) = steps.split_first() else {
        return Ok(schema);
    };
    let Some(col) = schema.find(step.prop.as_str()) else {
        return Err(NameError::NoProp);
    };
    let prop = &schema.as_slice()[col];
    match &prop.kind {
        Kind::V(inner) => inner_schema(inner, rest),
        _ => Err(NameError::WrongKind),
    }
}

/// The table to which the steps lead, all of which name views.
fn find_table<'a>(table: Nested<'a>, steps: &[Step]) -> Result<Nested<'a>, NameError>
    requires { IsOk (schema_at steps.now table.schema) }
    ensures rows { MatchResult result (λ found. rows_at steps.now table.entry.schema table.entry.rows ≡ Ok found.rows) (λ e. rows_at steps.now table.entry.schema table.entry.rows ≡ Err e) }
    ensures schema { MatchResult result (λ found. schema_at steps.now table.entry.schema ≡ Ok found.schema) (λ _. Unit {0}) }
{
    let Some((step, rest)) = steps.split_first() else {
        return Ok(table);
    };
    let row = step.row as usize;
    let size = table.size();
    if row >= size {
        return Err(NameError::OutOfRange(size as u64));
    }
    let col = table.schema().find(step.prop.as_str()).unwrap();
    find_table(table.inner(row, col), rest)
}
