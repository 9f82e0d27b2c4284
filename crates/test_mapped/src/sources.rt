//! Tables and keys from texts.
ghost use Rattle.std.specs.Prelude.{◌<◌, ◌≤◌, IsTrue, length, false, ◌≡◌};
ghost use Rattle.mapped.specs.Keys.{IsKeyFor};
ghost use Rattle.mk_value.specs.Tables.{IsComparable};
ghost use Rattle.mk_value.specs.Values.{datum_of};
ghost use Rattle.mk_value.specs.Kinds.{domain_of};

use mk_value::{HeldRows, Kind, Row, Rows, Schema, Value, rows_fit, to_value};
use std::alloc::Global;
use std::test::Fail;
use struct_text::parse;
use tokens::read_literal;

/// A structure text and a view literal.
pub type Source = (&'static str, &'static str);

/// The table of a structure text and a view literal.
pub fn table(alloc: Global, source: &Source) -> Result<HeldRows, Fail> {
    let (structure, literal) = source;
    let schema = schema_of(alloc, structure)?;
    let rows = rows_of(alloc, &schema, literal)?;
    if !rows_fit(&rows, &schema) {
        return Err(Fail::new("no rows of the schema"));
    }
    Ok(HeldRows::of(schema, rows))
}

/// The schema of a structure text.
fn schema_of(alloc: Global, structure: &str) -> Result<Schema, Fail> {
    Ok(parse(alloc, structure)?.1)
}

/// The rows of a schema that a literal spells.
fn rows_of(alloc: Global, schema: &Schema, literal: &str) -> Result<Rows, Fail> {
    match value_of(alloc, &Kind::V(schema.copy()?), literal)? {
        Value::V(rows) => Ok(rows),
        _ => Err(Fail::new("no rows")),
    }
}

/// The value of a kind that a literal spells.
fn value_of(alloc: Global, kind: &Kind, literal: &str) -> Result<Value, Fail> {
    let literal = read_literal(alloc, literal)?;
    Ok(to_value(alloc, &literal, kind)?)
}

/// The one row of a table, as a key.
pub fn key(alloc: Global, source: &Source) -> Result<Row, Fail> {
    let table = table(alloc, source)?;
    match table.rows().as_slice().first() {
        Some(row) => Ok(row.copy()?),
        None => Err(Fail::new("no key")),
    }
}

/// Whether the values of a key are of the kinds of the first properties, which are no views.
pub fn is_key_for(schema: &Schema, key: &Row) -> bool
    ensures { IsTrue result → IsKeyFor schema.now key.now }
{
    let values = key.as_slice();
    if values.len() > schema.len() {
        return false;
    }
    for at in 0..values.len() {
        let prop = &schema.as_slice()[at];
        if !is_comparable(&values[at], &prop.kind) {
            return false;
        }
    }
    true
}

/// Whether a value has an order with those of a kind.
fn is_comparable(value: &Value, kind: &Kind) -> bool
    ensures { IsTrue result → IsComparable (datum_of value.now) (domain_of kind.now) }
{
    match (value, kind) {
        (Value::I(_), Kind::I) => true,
        (Value::L(_), Kind::L) => true,
        (Value::S(_), Kind::S) => true,
        (Value::B(_), Kind::B) => true,
        _ => false,
    }
}
