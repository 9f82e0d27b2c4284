//! The texts of paths, and of what stands behind the tables of an operator.
ghost use Rattle.std.specs.Prelude.{◌++◌, ◌∷◌, [], pos};
ghost use Rattle.std.specs.Fmt.{signed_decimal};
ghost use Rattle.mk_value.specs.Appending.{Writes};
ghost use Rattle.mk_value.specs.LiteralValues.{literal_of};
ghost use Rattle.mk_value.specs.Literals.{spelled, tokens_of};
ghost use Rattle.mk_value.specs.Tokens.{number as number_token, sign, word};
ghost use Rattle.tokens.specs.Paths.{path_tokens, slash, step_tokens};
ghost use Rattle.expr_text.specs.Arguments.{bounds as the_bounds, criteria as the_criteria, inner as the_inner, named as the_named, names as the_names, orders as the_orders, renamed as the_renamed, rows as the_rows, viewed as the_viewed, viewed_as as the_viewed_as};
ghost use Rattle.expr_text.specs.Spelling.{closing, colon, comma, count, criterion_tokens, equals, order_tokens, range_tokens};
ghost use Rattle.expr_text.specs.Texts.{end_text, listed_text, steps_text};

use crate::literals::{append_literal, append_number, append_str};
use crate::{Bound, Bounds, Crit, Crits, NameList, Order, Orders};
use mk_value::{Literal, Memory, Name, Path, Step, Text};

/// Appends a path.
pub(crate) fn append_path(path: &Path, out: &mut Text) -> Result<(), Memory>
    ensures { Writes result out.old (spelled (path_tokens path.now)) out.new }
{
    append_str(path.name().as_str(), out)?;
    append_steps(path.steps(), out)
}

fn append_steps(steps: &[Step], out: &mut Text) -> Result<(), Memory>
    ensures { Writes result out.old (steps_text steps.now) out.new }
{
    for step in steps {
        append_step(step, out)?;
    }
    Ok(())
}

fn append_step(step: &Step, out: &mut Text) -> Result<(), Memory>
    ensures { Writes result out.old (spelled (step_tokens step.now)) out.new }
{
    append_str("/", out)?;
    append_count(step.row, out)?;
    append_prop(&step.prop, out)
}

fn append_prop(prop: &Name, out: &mut Text) -> Result<(), Memory>
    ensures { Writes result out.old (spelled (sign slash ∷ word prop.now ∷ [])) out.new }
{
    append_str("/", out)?;
    append_name(prop, out)
}

fn append_name(name: &Name, out: &mut Text) -> Result<(), Memory>
    ensures { Writes result out.old (spelled (word name.now ∷ [])) out.new }
{
    append_str(name.as_str(), out)
}

/// Appends a number without a sign in decimal.
fn append_count(number: u64, out: &mut Text) -> Result<(), Memory>
    ensures { Writes result out.old (signed_decimal (pos number)) out.new }
{
    out.push_integer(number)
}

/// Appends `PROP=LITERAL`.
fn append_equal(prop: &Name, value: &Literal, out: &mut Text) -> Result<(), Memory>
    ensures { Writes result out.old (spelled (word prop.now ∷ equals ∷ tokens_of (literal_of value.now))) out.new }
{
    append_str(prop.as_str(), out)?;
    append_str("=", out)?;
    append_literal(value, out)
}

fn append_criterion(criterion: &Crit, out: &mut Text) -> Result<(), Memory>
    ensures { Writes result out.old (spelled (criterion_tokens criterion.now)) out.new }
{
    append_equal(&criterion.prop, &criterion.value, out)
}

fn append_bound(bound: &Bound, out: &mut Text) -> Result<(), Memory>
    ensures { Writes result out.old (spelled (range_tokens bound.now)) out.new }
{
    append_between(&bound.prop, &bound.low, &bound.high, out)
}

/// Appends `PROP=LITERAL:LITERAL`.
fn append_between(prop: &Name, low: &Literal, high: &Literal, out: &mut Text) -> Result<(), Memory>
    ensures { Writes result out.old (spelled (word prop.now ∷ equals ∷ (tokens_of (literal_of low.now) ++ (colon ∷ tokens_of (literal_of high.now))))) out.new }
{
    append_equal(prop, low, out)?;
    append_str(":", out)?;
    append_literal(high, out)
}

fn append_order(order: &Order, out: &mut Text) -> Result<(), Memory>
    ensures { Writes result out.old (spelled (order_tokens order.now)) out.new }
{
    if order.down {
        append_str("-", out)?;
        append_name(&order.prop, out)
    } else {
        append_name(&order.prop, out)
    }
}

fn append_criteria(list: &[Crit], out: &mut Text) -> Result<(), Memory>
    ensures { Writes result out.old (listed_text criterion_tokens list.now) out.new }
{
    for member in list {
        append_str(",", out)?;
        append_criterion(member, out)?;
    }
    Ok(())
}

fn append_bounds(list: &[Bound], out: &mut Text) -> Result<(), Memory>
    ensures { Writes result out.old (listed_text range_tokens list.now) out.new }
{
    for member in list {
        append_str(",", out)?;
        append_bound(member, out)?;
    }
    Ok(())
}

fn append_orders(list: &[Order], out: &mut Text) -> Result<(), Memory>
    ensures { Writes result out.old (listed_text order_tokens list.now) out.new }
{
    for member in list {
        append_str(",", out)?;
        append_order(member, out)?;
    }
    Ok(())
}

fn append_names(list: &[Name], out: &mut Text) -> Result<(), Memory>
    ensures { Writes result out.old (listed_text (λ n. word n ∷ []) list.now) out.new }
{
    for member in list {
        append_str(",", out)?;
        append_name(member, out)?;
    }
    Ok(())
}

pub(crate) fn end_criteria(list: &Crits, out: &mut Text) -> Result<(), Memory>
    ensures { Writes result out.old (end_text (the_criteria list.now)) out.new }
{
    append_criteria(list.as_slice(), out)?;
    append_str(")", out)
}

pub(crate) fn end_bounds(list: &Bounds, out: &mut Text) -> Result<(), Memory>
    ensures { Writes result out.old (end_text (the_bounds list.now)) out.new }
{
    append_bounds(list.as_slice(), out)?;
    append_str(")", out)
}

pub(crate) fn end_orders(list: &Orders, out: &mut Text) -> Result<(), Memory>
    ensures { Writes result out.old (end_text (the_orders list.now)) out.new }
{
    append_orders(list.as_slice(), out)?;
    append_str(")", out)
}

pub(crate) fn end_names(list: &NameList, out: &mut Text) -> Result<(), Memory>
    ensures { Writes result out.old (end_text (the_names list.now)) out.new }
{
    append_names(list.as_slice(), out)?;
    append_str(")", out)
}

pub(crate) fn end_inner(name: &Name, out: &mut Text) -> Result<(), Memory>
    ensures { Writes result out.old (end_text (the_inner name.now)) out.new }
{
    append_str(",", out)?;
    append_str(name.as_str(), out)?;
    append_str(")", out)
}

pub(crate) fn end_renamed(prop: &Name, new: &Name, out: &mut Text) -> Result<(), Memory>
    ensures { Writes result out.old (end_text (the_renamed prop.now new.now)) out.new }
{
    append_str(",", out)?;
    append_str(prop.as_str(), out)?;
    end_inner(new, out)
}

pub(crate) fn end_rows(first: u64, limit: u64, step: i64, out: &mut Text) -> Result<(), Memory>
    ensures { Writes result out.old (end_text (the_rows first limit step)) out.new }
{
    append_str(",", out)?;
    append_count(first, out)?;
    end_limit(limit, step, out)
}

fn end_limit(limit: u64, step: i64, out: &mut Text) -> Result<(), Memory>
    ensures { Writes result out.old (spelled (comma ∷ count limit ∷ comma ∷ number_token step ∷ closing ∷ [])) out.new }
{
    append_str(",", out)?;
    append_count(limit, out)?;
    end_step(step, out)
}

fn end_step(step: i64, out: &mut Text) -> Result<(), Memory>
    ensures { Writes result out.old (spelled (comma ∷ number_token step ∷ closing ∷ [])) out.new }
{
    append_str(",", out)?;
    append_number(step, out)?;
    append_str(")", out)
}

pub(crate) fn end_named(list: &NameList, name: &Name, out: &mut Text) -> Result<(), Memory>
    ensures { Writes result out.old (end_text (the_named list.now name.now)) out.new }
{
    append_names(list.as_slice(), out)?;
    end_new(name, out)
}

/// Appends the name for what is new, and the closing parenthesis.
fn end_new(name: &Name, out: &mut Text) -> Result<(), Memory>
    ensures { Writes result out.old (spelled (colon ∷ word name.now ∷ closing ∷ [])) out.new }
{
    append_str(":", out)?;
    append_str(name.as_str(), out)?;
    append_str(")", out)
}

pub(crate) fn end_viewed(viewer: &Name, list: &NameList, out: &mut Text) -> Result<(), Memory>
    ensures { Writes result out.old (end_text (the_viewed viewer.now list.now)) out.new }
{
    append_str(",", out)?;
    append_str(viewer.as_str(), out)?;
    end_names(list, out)
}

pub(crate) fn end_viewed_as(
    viewer: &Name,
    list: &NameList,
    name: &Name,
    out: &mut Text,
) -> Result<(), Memory>
    ensures { Writes result out.old (end_text (the_viewed_as viewer.now list.now name.now)) out.new }
{
    append_str(",", out)?;
    append_str(viewer.as_str(), out)?;
    end_named(list, name, out)
}
