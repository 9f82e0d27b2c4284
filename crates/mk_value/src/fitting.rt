ghost use Rattle.std.specs.Prelude.{◌≡◌, ◌↔◌, IsTrue};
ghost use Rattle.mk_value.specs.Data.{AreRowsOf, IsOf, IsRowOf, IsText, default_of as the_default};
ghost use Rattle.mk_value.specs.Values.{datum_of};
ghost use Rattle.mk_value.specs.Kinds.{domain_of};

use crate::limits::{MAX_BYTES, MAX_ROWS};
use crate::{Bytes, Kind, Row, Rows, Schema, Text, Value};
use std::alloc::Global;

/// The value of a property of this kind that was never set: 0, the empty text, the empty byte string, no rows.
/// It needs no memory.
pub fn default_of(alloc: Global, kind: &Kind) -> Value
    ensures { datum_of result ≡ the_default (domain_of kind.now) }
{
    match kind {
        Kind::I => Value::I(0),
        Kind::L => Value::L(0),
        Kind::S => Value::S(Text::new(alloc)),
        Kind::B => Value::B(Bytes::new(alloc)),
        Kind::V(_) => Value::V(Rows::new(alloc)),
    }
}

/// Whether a text may be a value of kind S but for its length: it holds no zero byte.
pub fn is_text(text: &str) -> bool
    ensures { IsTrue result ↔ IsText text.now }
{
    text.as_bytes().iter().all(|byte| *byte != 0)
}

/// Whether the value is of the kind.
#[cycle(fits)]
pub fn fits(value: &Value, kind: &Kind) -> bool
    ensures { IsTrue result ↔ IsOf (datum_of value.now) (domain_of kind.now) }
{
    match (value, kind) {
        (Value::I(number), Kind::I) => {
            let _number = *number;
            true
        }
        (Value::L(number), Kind::L) => {
            let _number = *number;
            true
        }
        (Value::S(text), Kind::S) => text.len() <= MAX_BYTES && is_text(text.as_str()),
        (Value::B(bytes), Kind::B) => bytes.len() <= MAX_BYTES,
        (Value::V(rows), Kind::V(schema)) => rows_fit(rows, schema),
        _ => false,
    }
}

/// Whether the rows may be those of a view of the schema.
#[cycle(fits)]
pub fn rows_fit(rows: &Rows, schema: &Schema) -> bool
    ensures { IsTrue result ↔ AreRowsOf rows.now schema.now }
{
    let rows = rows.as_slice();
    if rows.len() > MAX_ROWS {
        return false;
    }
    for row in rows {
        if !row_fits(row, schema) {
            return false;
        }
    }
    true
}

/// Whether the row is one of the schema: one value for each property, each of its kind.
#[cycle(fits)]
pub fn row_fits(row: &Row, schema: &Schema) -> bool
    ensures { IsTrue result ↔ IsRowOf row.now schema.now }
{
    let values = row.as_slice();
    let props = schema.as_slice();
    if values.len() != props.len() {
        return false;
    }
    for at in 0..values.len() {
        let prop = &props[at];
        if !fits(&values[at], &prop.kind) {
            return false;
        }
    }
    true
}
