//! Criteria whose bounds are written as literals: the refusals that they are due, and the criteria that they become.
ghost use Rattle.std.specs.Prelude.{◌≡◌, ◌↔◌, ◌&&◌, map, None, true, false, IfOk, IsTrue};
ghost use Rattle.std.specs.Result.{result_err};
ghost use Rattle.mk_value.specs.Conversions.{becomes};
ghost use Rattle.mk_value.specs.Data.{IsOf};
ghost use Rattle.mk_value.specs.Kinds.{domain_of};
ghost use Rattle.mk_value.specs.LiteralValues.{literal_of};
ghost use Rattle.mk_value.specs.Values.{datum_of};
ghost use Rattle.relations.specs.Criteria.{valued};
ghost use Rattle.relations.specs.Fitting.{fits as fits_domain, is_view as is_view_domain};
ghost use Rattle.relations.specs.Refusals.{a_view, absent, literals_due, unfit};
ghost use Rattle.relations.specs.Rows.{domain_of as domain_of_name, has as has_property};

use crate::checks::{check_named, check_plain};
use crate::criteria::{Criterion, Named};
use crate::error::DerivedError;
use crate::lookup::kind;
use mk_value::{Kind, Literal, MAX_BYTES, Memory, Schema, Sequence, Value, is_text, to_value};
use std::alloc::Global;

/// A criterion whose bounds are literals.
pub trait LiteralBounds: Named {
    ghost use Rattle.relations.specs.Criteria.{Interval};
    ghost use Rattle.std.specs.Prelude.{◌≡◌};

    /// The property, and the bounds as plain values whose numbers are long.
    ghost bounds: { Self → Interval };

    /// The least value that is asked for.
    fn low(&self) -> &Literal
        ensures { literal_of result.now ≡ (bounds self.now).low };

    /// The greatest value that is asked for.
    fn high(&self) -> &Literal
        ensures { literal_of result.now ≡ (bounds self.now).high };

    ghost same_prop: { (x : Self) → (bounds x).prop ≡ Self.prop x };
}

/// Answers the first refusal that criteria with literals are due: all names before all kinds, and these before all literals.
///
/// # Errors
///
/// The first that is due: `NoProp`, `KeyIsView`, `WrongKind` where a literal does not fit its property or is too long for it. Else
/// `Memory`, for the name of the property that is refused.
pub fn check_literals<L: LiteralBounds>(schema: &Schema, items: &[L]) -> Result<(), DerivedError>
    ensures { result_err result ≡ literals_due (map L.bounds items.now) schema.now }
{
    check_named(schema, items)?;
    check_plain(schema, items)?;
    check_each(schema, items)
}

/// The criteria that these become: each literal as the value of its property's kind.
///
/// # Errors
///
/// `Memory`.
pub fn criteria_of<L: LiteralBounds>(
    alloc: Global,
    schema: &Schema,
    items: &[L],
) -> Result<Sequence<Criterion>, Memory>
    requires { literals_due (map L.bounds items.now) schema.now ≡ None }
    ensures { IfOk result (λ criteria. criteria ≡ map (valued schema.now) (map L.bounds items.now)) }
{
    let mut criteria = Sequence::new(alloc);
    for item in items {
        criteria.push(criterion_of(alloc, schema, item)?)?;
    }
    Ok(criteria)
}

/// Refuses the first criterion a literal of which does not fit its property.
fn check_each<L: LiteralBounds>(schema: &Schema, items: &[L]) -> Result<(), DerivedError>
    requires named { absent schema.now (map L.prop items.now) ≡ None }
    requires plain { a_view schema.now (map L.prop items.now) ≡ None }
    ensures { result_err result ≡ unfit schema.now (map (valued schema.now) (map L.bounds items.now)) }
{
    for item in items {
        let name = item.prop();
        if !fits_property(kind(schema, name), item) {
            return Err(DerivedError::WrongKind(name.copy()?));
        }
    }
    Ok(())
}

/// Whether both literals fit a kind.
fn fits_property<L: LiteralBounds>(kind: &Kind, item: &L) -> bool
    requires { is_view_domain (domain_of kind.now) ≡ false }
    ensures { result ≡ (fits_domain (domain_of kind.now) (becomes (L.bounds item.now).low (domain_of kind.now)) && fits_domain (domain_of kind.now) (becomes (L.bounds item.now).high (domain_of kind.now))) }
{
    let low = fits_literal(item.low(), kind);
    let high = fits_literal(item.high(), kind);
    low && high
}

/// Whether a literal fits a kind that is no view, its length included.
fn fits_literal(literal: &Literal, kind: &Kind) -> bool
    requires { is_view_domain (domain_of kind.now) ≡ false }
    ensures { IsTrue result ↔ IsOf (becomes (literal_of literal.now) (domain_of kind.now)) (domain_of kind.now) }
{
    match (literal, kind) {
        (Literal::Number(number), Kind::I) => i32::try_from(*number).is_ok(),
        (Literal::Number(number), Kind::L) => {
            let _number = *number;
            true
        }
        (Literal::Text(text), Kind::S) => text.len() <= MAX_BYTES && is_text(text.as_str()),
        (Literal::Bytes(bytes), Kind::B) => bytes.len() <= MAX_BYTES,
        _ => false,
    }
}

/// The criterion that one becomes.
fn criterion_of<L: LiteralBounds>(
    alloc: Global,
    schema: &Schema,
    item: &L,
) -> Result<Criterion, Memory>
    requires { has_property schema.now (L.prop item.now) ≡ true }
    ensures { IfOk result (λ criterion. criterion ≡ valued schema.now (L.bounds item.now)) }
{
    let name = item.prop();
    let kind = kind(schema, name);
    let low = value_of(alloc, item.low(), kind)?;
    let high = value_of(alloc, item.high(), kind)?;
    let prop = name.copy()?;
    Ok(Criterion { prop, low, high })
}

/// The value of a kind that a literal becomes which fits it. So want of memory is the one error that it may meet.
fn value_of(alloc: Global, literal: &Literal, kind: &Kind) -> Result<Value, Memory>
    ensures { IfOk result (λ value. datum_of value ≡ becomes (literal_of literal.now) (domain_of kind.now)) }
{
    match to_value(alloc, literal, kind) {
        Ok(value) => Ok(value),
        Err(_) => Err(Memory),
    }
}
