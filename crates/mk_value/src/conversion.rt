//! How a literal becomes a value of a kind.

ghost use Rattle.std.specs.Prelude.{◌≡◌, ◌↔◌, IsTrue, IfOk, IsErrOf, map, slice_get};
ghost use Rattle.mk_value.specs.Conversions.{AreShort, CellFits, IsProper, IsShort, IsShortRow, LiteralFits, LiteralRowFits, LiteralsFit, becomes, cell_becomes, row_becomes, rows_become};
ghost use Rattle.mk_value.specs.Data.{IsOf, relation_of, rows_of, tuple_of, values_of};
ghost use Rattle.mk_value.specs.Heading.{heading_of};
ghost use Rattle.mk_value.specs.Kinds.{domain_of};
ghost use Rattle.mk_value.specs.LiteralValues.{literal_of};
ghost use Rattle.mk_value.specs.Values.{datum_of};

use crate::limits::{MAX_BYTES, MAX_ROWS};
use crate::literal::{Literal, LiteralRows, Literals};
use crate::{Kind, Memory, Row, Rows, Schema, Value, default_of};
use std::alloc::Global;
use thiserror::Error;

/// Why a literal is no value of a kind.
#[derive(Clone, Copy, Debug, PartialEq, Eq, Error)]
pub enum FitError {
    #[error("the literal does not fit the kind")]
    WrongKind,
    #[error("a text, a byte string or a view is too long")]
    TooLong,
    #[error("out of memory")]
    Memory,
}

impl From<Memory> for FitError {
    ghost use Rattle.mk_value.specs.declared.conversion.FitError.TheVariants as fit_errors;

    ghost from_gives = { λ _ error. error ≡ fit_errors.Memory };

    fn from(_error: Memory) -> FitError {
        FitError::Memory
    }
}

/// The value of the kind that a literal spells: a number, a text or a byte string as it is, and of a view each row with
/// defaults for the values that are missing at its end.
pub fn to_value(alloc: Global, literal: &Literal, kind: &Kind) -> Result<Value, FitError>
    ensures value { IfOk result (λ value. datum_of value ≡ becomes (literal_of literal.now) (domain_of kind.now)) }
    ensures whole { IfOk result (λ value. IsProper (literal_of literal.now) → IsOf (datum_of value) (domain_of kind.now)) }
    ensures wrong_kind { IsErrOf result FitError.WrongKind ↔ (LiteralFits (literal_of literal.now) (domain_of kind.now) → ⊥) }
    ensures too_long { IsErrOf result FitError.TooLong ↔ (LiteralFits (literal_of literal.now) (domain_of kind.now) × (IsShort (literal_of literal.now) → ⊥)) }
{
    if !literal_fits(literal, kind) {
        return Err(FitError::WrongKind);
    }
    if !is_short(literal) {
        return Err(FitError::TooLong);
    }
    Ok(convert(alloc, literal, kind)?)
}

/// Whether the literal fits the kind, lengths left aside.
#[cycle(literal_fits)]
pub fn literal_fits(literal: &Literal, kind: &Kind) -> bool
    ensures { IsTrue result ↔ LiteralFits (literal_of literal.now) (domain_of kind.now) }
{
    match (literal, kind) {
        (Literal::Number(number), Kind::I) => i32::try_from(*number).is_ok(),
        (Literal::Number(_), Kind::L) => true,
        (Literal::Text(_), Kind::S) => true,
        (Literal::Bytes(_), Kind::B) => true,
        (Literal::View(rows), Kind::V(schema)) => literal_rows_fit(rows, schema),
        _ => false,
    }
}

#[cycle(literal_fits)]
fn literal_rows_fit(rows: &LiteralRows, schema: &Schema) -> bool
    ensures { IsTrue result ↔ LiteralsFit (relation_of rows.now) (heading_of schema.now) }
{
    for row in rows.as_slice() {
        if !literal_row_fits(row, schema) {
            return false;
        }
    }
    true
}

/// Whether the row has at most as many literals as the schema has properties, and each fits.
#[cycle(literal_fits)]
fn literal_row_fits(row: &Literals, schema: &Schema) -> bool
    ensures { IsTrue result ↔ LiteralRowFits (tuple_of row.now) (heading_of schema.now) }
{
    let literals = row.as_slice();
    let props = schema.as_slice();
    if literals.len() > props.len() {
        return false;
    }
    for at in 0..literals.len() {
        let prop = &props[at];
        if !literal_fits(&literals[at], &prop.kind) {
            return false;
        }
    }
    true
}

/// Whether no text, byte string or view in the literal is longer than one may be.
#[cycle(is_short)]
fn is_short(literal: &Literal) -> bool
    ensures { IsTrue result ↔ IsShort (literal_of literal.now) }
{
    match literal {
        Literal::Number(_) => true,
        Literal::Text(text) => text.len() <= MAX_BYTES,
        Literal::Bytes(bytes) => bytes.len() <= MAX_BYTES,
        Literal::View(rows) => rows.len() <= MAX_ROWS && are_short(rows),
    }
}

#[cycle(is_short)]
fn are_short(rows: &LiteralRows) -> bool
    ensures { IsTrue result ↔ AreShort (relation_of rows.now) }
{
    for row in rows.as_slice() {
        if !is_short_row(row) {
            return false;
        }
    }
    true
}

#[cycle(is_short)]
fn is_short_row(row: &Literals) -> bool
    ensures { IsTrue result ↔ IsShortRow (tuple_of row.now) }
{
    for literal in row.as_slice() {
        if !is_short(literal) {
            return false;
        }
    }
    true
}

/// The value of a literal that fits the kind.
#[cycle(convert)]
fn convert(alloc: Global, literal: &Literal, kind: &Kind) -> Result<Value, Memory>
    requires { LiteralFits (literal_of literal.now) (domain_of kind.now) }
    ensures { IfOk result (λ value. datum_of value ≡ becomes (literal_of literal.now) (domain_of kind.now)) }
{
    match (literal, kind) {
        (Literal::Number(number), Kind::I) => Ok(Value::I(*number as i32)),
        (Literal::Number(number), Kind::L) => Ok(Value::L(*number)),
        (Literal::Text(text), Kind::S) => Ok(Value::S(text.copy()?)),
        (Literal::Bytes(bytes), Kind::B) => Ok(Value::B(bytes.copy()?)),
        (Literal::View(rows), Kind::V(schema)) => Ok(Value::V(convert_rows(alloc, rows, schema)?)),
        _ => unreachable!(),
    }
}

#[cycle(convert)]
fn convert_rows(alloc: Global, rows: &LiteralRows, schema: &Schema) -> Result<Rows, Memory>
    requires { LiteralsFit (relation_of rows.now) (heading_of schema.now) }
    ensures { IfOk result (λ converted. converted ≡ rows_of (rows_become (relation_of rows.now) (heading_of schema.now))) }
{
    let mut converted = Rows::new(alloc);
    for row in rows.as_slice() {
        converted.push(convert_row(alloc, row, schema)?)?;
    }
    Ok(converted)
}

/// The row of the literals, with defaults behind them.
#[cycle(convert)]
fn convert_row(alloc: Global, row: &Literals, schema: &Schema) -> Result<Row, Memory>
    requires { LiteralRowFits (tuple_of row.now) (heading_of schema.now) }
    ensures { IfOk result (λ converted. converted ≡ values_of (row_becomes (tuple_of row.now) (heading_of schema.now))) }
{
    let literals = row.as_slice();
    let props = schema.as_slice();
    let mut converted = Row::new(alloc);
    for at in 0..props.len() {
        let prop = &props[at];
        converted.push(convert_cell(alloc, literals, at, &prop.kind)?)?;
    }
    Ok(converted)
}

/// The value at a place of a row: of the literal there, or the default.
#[cycle(convert)]
fn convert_cell(
    alloc: Global,
    literals: &[Literal],
    at: usize,
    kind: &Kind,
) -> Result<Value, Memory>
    requires { CellFits (slice_get (map literal_of literals.now) at) (domain_of kind.now) }
    ensures { IfOk result (λ value. datum_of value ≡ cell_becomes (slice_get (map literal_of literals.now) at) (domain_of kind.now)) }
{
    if at < literals.len() {
        convert(alloc, &literals[at], kind)
    } else {
        Ok(default_of(alloc, kind))
    }
}
