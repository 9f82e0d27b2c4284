//! The value of an expression: its size, its rows as texts, and as a table of its own.
ghost use Rattle.std.specs.Prelude.{◌≡◌, ◌<◌, find, length, map, true, IfOk};
ghost use Rattle.std.specs.Option.{is_some};
ghost use Rattle.std.specs.Result.{result_map_both};
ghost use Rattle.eval.specs.Names.{Named};
ghost use Rattle.expr_text.specs.Arguments.{named, names};
ghost use Rattle.expr_text.specs.Meanings.{query_of};
ghost use Rattle.expr_text.specs.Queries.{one, path as to_path, two};
ghost use Rattle.expr_text.specs.declared.operator.Operator.TheVariants as operators;
ghost use Rattle.eval.specs.Parts.{IsWhole};
ghost use Rattle.mk_value.specs.Literals.{row_text};
ghost use Rattle.mk_value.specs.Names.{same_bytes};
ghost use Rattle.questions.specs.Answers.{Answers, answer, joining, printed, printed_due, size_due};
ghost use Rattle.questions.specs.Kept.{asked_names, stored, table_of};
ghost use Rattle.questions.specs.Told.{told_of_operator};

use crate::error::{QuestionError, of_name, of_operator};
use crate::scope::Scope;
use derived::Derived;
use expr_text::Expr;
use grouping::{counts_size, group_by_size};
use joins::join_size;
use mk_value::{Memory, Name, Path, Row, TableRead, Text, print_row, print_row_of};
use relations::{DerivedError, copy_rows};
use std::alloc::Global;
use tables::{Shared, from_rows, share};
use viewers::Viewer;

/// Rows as they are printed: how many there are, and the text of each with a newline behind it.
#[derive(Debug, Drop)]
pub struct PrintedRows {
    pub count: u64,
    pub lines: Text,
}

impl<V: Viewer> Scope<'_, V> {
    /// The number of rows. If the expression is a sorting, groups, counts or a join, none of its rows is made, and if it names a watch, none is looked at.
    ///
    /// # Errors
    ///
    /// The first refusal of the expression. Else `Memory`.
    pub fn size(&self, alloc: Global, expr: &Expr) -> Result<u64, QuestionError>
        requires { IsWhole (query_of expr.now) }
        ensures { Answers (λ size. size) (size_due (asked_names self.now.names (map V.meaning self.now.viewers.now) self.now.computed.now) (map V.meaning self.now.viewers.now) (query_of expr.now)) result }
    {
        match expr {
            Expr::GroupBy(base, keys, sub) => self.groups(alloc, base, keys.as_slice(), sub),
            Expr::Counts(base, keys, count) => self.counts(alloc, base, keys.as_slice(), count),
            Expr::Join(first, second, keys) => {
                self.pairs(alloc, first, second, keys.as_slice(), false)
            }
            Expr::OuterJoin(first, second, keys) => {
                self.pairs(alloc, first, second, keys.as_slice(), true)
            }
            _ => self.size_unordered(alloc, expr),
        }
    }

    /// The number of rows, in whatever order they are.
    fn size_unordered(&self, alloc: Global, expr: &Expr) -> Result<u64, QuestionError>
        requires { IsWhole (query_of expr.now) }
        ensures { Answers (λ size. size) (size_due (asked_names self.now.names (map V.meaning self.now.viewers.now) self.now.computed.now) (map V.meaning self.now.viewers.now) (query_of expr.now)) result }
    {
        match self.names.watch_named(expr) {
            Some(rows) => Ok(rows.size() as u64),
            None => Ok(self.unordered(alloc, expr)?.size() as u64),
        }
    }

    /// The number of groups.
    fn groups(
        &self,
        alloc: Global,
        base: &Expr,
        keys: &[Name],
        sub: &Name,
    ) -> Result<u64, QuestionError>
        requires { IsWhole (query_of base.now) }
        ensures { Answers (λ size. size) (size_due (asked_names self.now.names (map V.meaning self.now.viewers.now) self.now.computed.now) (map V.meaning self.now.viewers.now) (one operators.GroupBy (query_of base.now) (named keys.now sub.now))) result }
    {
        let table = self.value(alloc, base)?;
        let rows = table.size() as u64;
        told_size(group_by_size(alloc, table, keys, sub), rows)
    }

    /// The number of counts.
    fn counts(
        &self,
        alloc: Global,
        base: &Expr,
        keys: &[Name],
        count: &Name,
    ) -> Result<u64, QuestionError>
        requires { IsWhole (query_of base.now) }
        ensures { Answers (λ size. size) (size_due (asked_names self.now.names (map V.meaning self.now.viewers.now) self.now.computed.now) (map V.meaning self.now.viewers.now) (one operators.Counts (query_of base.now) (named keys.now count.now))) result }
    {
        let table = self.value(alloc, base)?;
        let rows = table.size() as u64;
        told_size(counts_size(alloc, table, keys, count), rows)
    }

    /// The number of pairs of rows that agree on the keys; in an outer join with those of the first that agree with none.
    fn pairs(
        &self,
        alloc: Global,
        first: &Expr,
        second: &Expr,
        keys: &[Name],
        outer: bool,
    ) -> Result<u64, QuestionError>
        requires first { IsWhole (query_of first.now) }
        requires second { IsWhole (query_of second.now) }
        requires some { 0 < length keys.now }
        ensures { Answers (λ size. size) (size_due (asked_names self.now.names (map V.meaning self.now.viewers.now) self.now.computed.now) (map V.meaning self.now.viewers.now) (two (joining outer) (query_of first.now) (query_of second.now) (names keys.now))) result }
    {
        let a = self.value(alloc, first)?;
        let b = self.value(alloc, second)?;
        told_size(join_size(alloc, &a, &b, keys, outer), a.size() as u64)
    }

    /// The rows as they are printed, in order. They are read where they stand: beside their text and what the expression takes, one view in a
    /// row at a time takes memory.
    ///
    /// # Errors
    ///
    /// The first refusal of the expression. Else `Memory`.
    pub fn rows(&self, alloc: Global, expr: &Expr) -> Result<PrintedRows, QuestionError>
        requires { IsWhole (query_of expr.now) }
        ensures { Answers (λ rows. (rows.count, rows.lines.bytes)) (printed_due (asked_names self.now.names (map V.meaning self.now.viewers.now) self.now.computed.now) (map V.meaning self.now.viewers.now) (query_of expr.now)) result }
    {
        Ok(print_rows(alloc, &self.value(alloc, expr)?)?)
    }

    /// The table, which keeps its rows whatever becomes of the views. That of a view or a snapshot is shared; that of a watch or an operator
    /// is made of its rows.
    ///
    /// # Errors
    ///
    /// The first refusal of the expression. Else `Memory`.
    pub fn table(&self, alloc: Global, expr: &Expr) -> Result<Shared, QuestionError>
        requires { IsWhole (query_of expr.now) }
        ensures { Answers table_of (answer (asked_names self.now.names (map V.meaning self.now.viewers.now) self.now.computed.now) (map V.meaning self.now.viewers.now) (query_of expr.now)) result }
    {
        match expr {
            Expr::Path(path) if self.names.is_stored(path.name()) => self.shared(path),
            _ => Ok(gathered(alloc, &self.value(alloc, expr)?)?),
        }
    }

    /// The table to which a path leads from a view or a snapshot, shared.
    ///
    /// # Errors
    ///
    /// The refusal of the path. Else `Memory`.
    fn shared(&self, path: &Path) -> Result<Shared, QuestionError>
        requires { is_some (find (λ (n : Named). same_bytes n.name path.now.name) (stored self.now.names.views self.now.names.snapshots)) ≡ true }
        ensures { Answers table_of (answer (asked_names self.now.names (map V.meaning self.now.viewers.now) self.now.computed.now) (map V.meaning self.now.viewers.now) (to_path path.now)) result }
    {
        match self.names.shared(path) {
            Ok(table) => Ok(table),
            Err(error) => Err(of_name(error)),
        }
    }
}

/// The number of rows that an operator gives, or how it is told that it is refused whose first table has so many rows.
fn told_size(answer: Result<usize, DerivedError>, rows: u64) -> Result<u64, QuestionError>
    ensures { result ≡ result_map_both (λ size. size) (λ error. told_of_operator error rows) answer }
{
    match answer {
        Ok(size) => Ok(size as u64),
        Err(error) => Err(of_operator(error, rows)),
    }
}

/// The rows of a table as columns of their own.
fn gathered(alloc: Global, table: &Derived<Shared>) -> Result<Shared, Memory>
    ensures schema { IfOk result (λ shared. shared.schema ≡ table.now.schema) }
    ensures rows { IfOk result (λ shared. shared.rows ≡ table.now.rows) }
{
    let rows = copy_rows(alloc, table)?;
    let schema = table.schema().copy()?;
    share(alloc, from_rows(alloc, schema, &rows)?)
}

/// Prints the rows of a table, in order.
fn print_rows(alloc: Global, table: &Derived<Shared>) -> Result<PrintedRows, Memory>
    ensures { IfOk result (λ rows. (rows.count, rows.lines.bytes) ≡ printed (map row_text table.now.rows)) }
{
    let count = table.size();
    let mut lines = Text::new(alloc);
    for at in 0..count {
        print_row_of(table, at, &mut lines)?;
        lines.push_str("\n")?;
    }
    Ok(PrintedRows {
        count: count as u64,
        lines,
    })
}

pub(crate) fn text_of_row(alloc: Global, row: &Row) -> Result<Text, Memory>
    ensures { IfOk result (λ text. text.bytes ≡ row_text row.now) }
{
    let mut text = Text::new(alloc);
    print_row(row, &mut text)?;
    Ok(text)
}
