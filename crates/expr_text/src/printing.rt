//! The texts of expressions.
ghost use Rattle.std.specs.Prelude.{◌≡◌, ◌≤◌, ◌+◌, ◌++◌, ◌∷◌, length, IsOk, OnOk, OnErr};
ghost use Rattle.mk_value.specs.Appending.{Writes};
ghost use Rattle.mk_value.specs.Literals.{spelled};
ghost use Rattle.mk_value.specs.Tokens.{word};
ghost use Rattle.expr_text.specs.Meanings.{query_of};
ghost use Rattle.expr_text.specs.Operators.{word_of};
ghost use Rattle.expr_text.specs.Spelling.{comma, opening, query_text, tokens_of};
ghost use Rattle.expr_text.specs.Texts.{end_tokens, head_tokens, second_tokens};

use crate::literals::append_str;
use crate::tails::{
    append_path, end_bounds, end_criteria, end_inner, end_named, end_names, end_orders,
    end_renamed, end_rows, end_viewed, end_viewed_as,
};
use crate::{Expr, Operator};
use mk_value::{Memory, Text};

/// Appends the text of an expression: the one spelling, without spaces.
///
/// # Errors
///
/// `Memory`, never where the text fits the spare room.
pub fn print_expr(expr: &Expr, out: &mut Text) -> Result<(), Memory>
    ensures ok { OnOk result (out.new.bytes ≡ out.old.bytes ++ query_text (query_of expr.now)) }
    ensures err { OnErr result (out.new.bytes ≡ out.old.bytes) }
    ensures roomy { length (query_text (query_of expr.now)) ≤ out.old.spare → IsOk result }
    ensures spare { out.old.spare ≤ out.new.spare + length (query_text (query_of expr.now)) }
{
    let before = out.len();
    let appended = append_expr(expr, out);
    if appended.is_err() {
        out.truncate(before);
    }
    appended
}

/// Appends the text of an expression, or a front of it.
#[cycle(append_expr)]
fn append_expr(expr: &Expr, out: &mut Text) -> Result<(), Memory>
    ensures { Writes result out.old (query_text (query_of expr.now)) out.new }
{
    append_head(expr, out)?;
    append_second(expr, out)?;
    append_end(expr, out)
}

/// Appends a path, or an operator and its first table.
#[cycle(append_expr)]
fn append_head(expr: &Expr, out: &mut Text) -> Result<(), Memory>
    ensures { Writes result out.old (spelled (head_tokens (query_of expr.now))) out.new }
{
    match expr {
        Expr::Path(path) => append_path(path, out),
        Expr::Select(base, _) => append_one(Operator::Select, base, out),
        Expr::Range(base, _) => append_one(Operator::Range, base, out),
        Expr::Sort(base, _) => append_one(Operator::Sort, base, out),
        Expr::Project(base, _) => append_one(Operator::Project, base, out),
        Expr::Without(base, _) => append_one(Operator::Without, base, out),
        Expr::Rename(base, _, _) => append_one(Operator::Rename, base, out),
        Expr::Slice(base, _, _, _) => append_one(Operator::Slice, base, out),
        Expr::Concat(first, _) => append_one(Operator::Concat, first, out),
        Expr::Pair(first, _) => append_one(Operator::Pair, first, out),
        Expr::Product(first, _) => append_one(Operator::Product, first, out),
        Expr::Unique(base) => append_one(Operator::Unique, base, out),
        Expr::Union(first, _) => append_one(Operator::Union, first, out),
        Expr::Intersect(first, _) => append_one(Operator::Intersect, first, out),
        Expr::Minus(first, _) => append_one(Operator::Minus, first, out),
        Expr::Different(first, _) => append_one(Operator::Different, first, out),
        Expr::GroupBy(base, _, _) => append_one(Operator::GroupBy, base, out),
        Expr::Counts(base, _, _) => append_one(Operator::Counts, base, out),
        Expr::Join(first, _, _) => append_one(Operator::Join, first, out),
        Expr::OuterJoin(first, _, _) => append_one(Operator::OuterJoin, first, out),
        Expr::JoinProp(base, _) => append_one(Operator::JoinProp, base, out),
        Expr::OuterJoinProp(base, _) => append_one(Operator::OuterJoinProp, base, out),
        Expr::Calc(base, _, _, _) => append_one(Operator::Calc, base, out),
        Expr::Keep(base, _, _) => append_one(Operator::Keep, base, out),
    }
}

/// Appends an operator and a table.
#[cycle(append_expr)]
fn append_one(operator: Operator, base: &Expr, out: &mut Text) -> Result<(), Memory>
    ensures { Writes result out.old (spelled (word (word_of operator) ∷ opening ∷ tokens_of (query_of base.now))) out.new }
{
    append_str(operator.word(), out)?;
    append_str("(", out)?;
    append_expr(base, out)
}

/// Appends the second table of an operator behind a comma, if it has one.
#[cycle(append_expr)]
fn append_second(expr: &Expr, out: &mut Text) -> Result<(), Memory>
    ensures { Writes result out.old (spelled (second_tokens (query_of expr.now))) out.new }
{
    match expr {
        Expr::Concat(_, second) => append_other(second, out),
        Expr::Pair(_, second) => append_other(second, out),
        Expr::Product(_, second) => append_other(second, out),
        Expr::Union(_, second) => append_other(second, out),
        Expr::Intersect(_, second) => append_other(second, out),
        Expr::Minus(_, second) => append_other(second, out),
        Expr::Different(_, second) => append_other(second, out),
        Expr::Join(_, second, _) => append_other(second, out),
        Expr::OuterJoin(_, second, _) => append_other(second, out),
        Expr::Path(_)
        | Expr::Select(_, _)
        | Expr::Range(_, _)
        | Expr::Sort(_, _)
        | Expr::Project(_, _)
        | Expr::Without(_, _)
        | Expr::Rename(_, _, _)
        | Expr::Slice(_, _, _, _)
        | Expr::Unique(_)
        | Expr::GroupBy(_, _, _)
        | Expr::Counts(_, _, _)
        | Expr::JoinProp(_, _)
        | Expr::OuterJoinProp(_, _)
        | Expr::Calc(_, _, _, _)
        | Expr::Keep(_, _, _) => append_str("", out),
    }
}

/// Appends a table behind a comma.
#[cycle(append_expr)]
fn append_other(table: &Expr, out: &mut Text) -> Result<(), Memory>
    ensures { Writes result out.old (spelled (comma ∷ tokens_of (query_of table.now))) out.new }
{
    append_str(",", out)?;
    append_expr(table, out)
}

/// Appends what stands behind the tables of an operator, and the closing parenthesis.
fn append_end(expr: &Expr, out: &mut Text) -> Result<(), Memory>
    ensures { Writes result out.old (spelled (end_tokens (query_of expr.now))) out.new }
{
    match expr {
        Expr::Path(_) => append_str("", out),
        Expr::Select(_, list) => end_criteria(list, out),
        Expr::Range(_, list) => end_bounds(list, out),
        Expr::Sort(_, list) => end_orders(list, out),
        Expr::Project(_, list) | Expr::Without(_, list) => end_names(list, out),
        Expr::Rename(_, prop, new) => end_renamed(prop, new, out),
        Expr::Slice(_, first, limit, step) => end_rows(*first, *limit, *step, out),
        Expr::GroupBy(_, list, name) | Expr::Counts(_, list, name) => end_named(list, name, out),
        Expr::Join(_, _, list) | Expr::OuterJoin(_, _, list) => end_names(list, out),
        Expr::JoinProp(_, name) | Expr::OuterJoinProp(_, name) => end_inner(name, out),
        Expr::Calc(_, viewer, list, name) => end_viewed_as(viewer, list, name, out),
        Expr::Keep(_, viewer, list) => end_viewed(viewer, list, out),
        Expr::Unique(_)
        | Expr::Concat(_, _)
        | Expr::Pair(_, _)
        | Expr::Product(_, _)
        | Expr::Union(_, _)
        | Expr::Intersect(_, _)
        | Expr::Minus(_, _)
        | Expr::Different(_, _) => append_str(")", out),
    }
}
