//! Literals against the properties of a schema, and the values that they become.
ghost use Rattle.std.specs.Prelude.{◌≡◌, ◌≤◌, [], ◌∷◌, ◌++◌, length, All, IfErr, IfOk, None, OnOk, true};
ghost use Rattle.std.specs.Result.{result_err};
ghost use Rattle.mk_value.specs.Conversions.{IsProper, becomes};
ghost use Rattle.mk_value.specs.Data.{IsOf, IsRowOf};
ghost use Rattle.mk_value.specs.Heading.{find};
ghost use Rattle.mk_value.specs.Kinds.{domain_of};
ghost use Rattle.mk_value.specs.LiteralValues.{literal_of};
ghost use Rattle.mk_value.specs.Values.{datum_of};
ghost use Rattle.tables.specs.Rows.{completed};
ghost use Rattle.view_store.specs.Fitting.{are_of};
ghost use Rattle.session.specs.Fitting.{all_fit, all_short, fits, is_short};
ghost use Rattle.session.specs.Refusals.{AnswersDue, literal_refusal, literals_refusal, unless};
ghost use Rattle.session.specs.Values.{domain_named, values_for};

use crate::refusals::of_memory;
use cmd_text::Refusal;
use mk_value::{
    FitError, Kind, Literal, Literals, Name, Row, Schema, Value, default_of, literal_fits, to_value,
};
use std::alloc::Global;

/// Answers the refusal of literals for the first properties of a schema: there are more, or one does not fit.
pub fn check_literals(literals: &Literals, schema: &Schema) -> Result<(), Refusal>
    ensures { result_err result ≡ literals_refusal literals.now schema.now }
{
    if literals.len() > schema.len() {
        return Err(Refusal::NoProp);
    }
    if !literals_fit(literals, schema) {
        return Err(Refusal::Kind);
    }
    Ok(())
}

/// Whether each literal fits the property in its place.
fn literals_fit(literals: &Literals, schema: &Schema) -> bool
    requires { length literals.now ≤ length schema.now }
    ensures { result ≡ all_fit literals.now schema.now }
{
    let values = literals.as_slice();
    let props = schema.as_slice();
    for at in 0..values.len() {
        let prop = &props[at];
        if !literal_fits(&values[at], &prop.kind) {
            return false;
        }
    }
    true
}

/// Answers the refusal of a literal for the property of a name: there is none, or it does not fit.
pub fn check_literal(literal: &Literal, schema: &Schema, prop: &Name) -> Result<(), Refusal>
    ensures { result_err result ≡ literal_refusal (literal_of literal.now) schema.now (find schema.now prop.now) }
{
    let Some(at) = schema.find(prop.as_str()) else {
        return Err(Refusal::NoProp);
    };
    let prop = &schema.as_slice()[at];
    if !literal_fits(literal, &prop.kind) {
        return Err(Refusal::Kind);
    }
    Ok(())
}

/// The row of the values that literals become under the first properties of a schema, which they fit.
///
/// # Errors
///
/// `Limit` where a text or a byte string is longer than one may be, or a view has more rows. `Memory`.
pub fn make_row(alloc: Global, literals: &Literals, schema: &Schema) -> Result<Row, Refusal>
    requires few { length literals.now ≤ length schema.now }
    requires fit { all_fit literals.now schema.now ≡ true }
    requires proper { All IsProper literals.now }
    ensures value { IfOk result (λ row. row ≡ values_for schema.now literals.now) }
    ensures whole { IfOk result (λ row. are_of row schema.now ≡ true) }
    ensures due { AnswersDue (unless (all_short literals.now) Refusal.Limit) result }
{
    let values = literals.as_slice();
    let props = schema.as_slice();
    let mut row = Row::new(alloc);
    for at in 0..values.len() {
        let prop = &props[at];
        let value = make_value(alloc, &values[at], &prop.kind)?;
        append(&mut row, value)?;
    }
    Ok(row)
}

/// The row of the values that literals become, with defaults behind them.
///
/// # Errors
///
/// As of `make_row`.
pub fn make_whole_row(alloc: Global, literals: &Literals, schema: &Schema) -> Result<Row, Refusal>
    requires few { length literals.now ≤ length schema.now }
    requires fit { all_fit literals.now schema.now ≡ true }
    requires proper { All IsProper literals.now }
    ensures value { IfOk result (λ row. row ≡ completed schema.now (values_for schema.now literals.now)) }
    ensures whole { IfOk result (λ row. IsRowOf row schema.now) }
    ensures due { AnswersDue (unless (all_short literals.now) Refusal.Limit) result }
{
    let mut row = make_row(alloc, literals, schema)?;
    complete(alloc, &mut row, schema)?;
    Ok(row)
}

/// Appends the defaults of the properties that a row has no values for.
fn complete(alloc: Global, row: &mut Row, schema: &Schema) -> Result<(), Refusal>
    ensures ok { OnOk result (row.new ≡ completed schema.now row.old) }
    ensures memory { IfErr result (λ e. e ≡ Refusal.Memory) }
{
    let props = schema.as_slice();
    for at in row.len()..props.len() {
        let prop = &props[at];
        append(row, default_of(alloc, &prop.kind))?;
    }
    Ok(())
}

/// Appends a value to a row.
fn append(row: &mut Row, value: Value) -> Result<(), Refusal>
    ensures ok { OnOk result (row.new ≡ row.old ++ datum_of value ∷ []) }
    ensures memory { IfErr result (λ e. e ≡ Refusal.Memory) }
{
    row.push(value).map_err(of_memory)
}

/// The value that a literal becomes under the property of a name, which it fits.
///
/// # Errors
///
/// As of `make_value`.
pub fn make_value_of(
    alloc: Global,
    literal: &Literal,
    schema: &Schema,
    prop: &Name,
) -> Result<Value, Refusal>
    requires fit { literal_refusal (literal_of literal.now) schema.now (find schema.now prop.now) ≡ None }
    requires proper { IsProper (literal_of literal.now) }
    ensures value { IfOk result (λ value. datum_of value ≡ becomes (literal_of literal.now) (domain_named schema.now prop.now)) }
    ensures whole { IfOk result (λ value. IsOf (datum_of value) (domain_named schema.now prop.now)) }
    ensures due { AnswersDue (unless (is_short (literal_of literal.now)) Refusal.Limit) result }
{
    let Some(at) = schema.find(prop.as_str()) else {
        unreachable!()
    };
    let prop = &schema.as_slice()[at];
    make_value(alloc, literal, &prop.kind)
}

/// The value that a literal becomes under a kind that it fits.
///
/// # Errors
///
/// `Limit` where a text or a byte string is longer than one may be, or a view has more rows. `Memory`.
pub fn make_value(alloc: Global, literal: &Literal, kind: &Kind) -> Result<Value, Refusal>
    requires fit { fits (literal_of literal.now) (domain_of kind.now) ≡ true }
    requires proper { IsProper (literal_of literal.now) }
    ensures value { IfOk result (λ value. datum_of value ≡ becomes (literal_of literal.now) (domain_of kind.now)) }
    ensures whole { IfOk result (λ value. IsOf (datum_of value) (domain_of kind.now)) }
    ensures due { AnswersDue (unless (is_short (literal_of literal.now)) Refusal.Limit) result }
{
    match to_value(alloc, literal, kind) {
        Ok(value) => Ok(value),
        Err(FitError::WrongKind) => unreachable!(),
        Err(FitError::TooLong) => Err(Refusal::Limit),
        Err(FitError::Memory) => Err(Refusal::Memory),
    }
}
