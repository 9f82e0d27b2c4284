//! What a question may use: names, and viewers.
ghost use Rattle.std.specs.Prelude.{◌≡◌, map, true};
ghost use Rattle.std.specs.Result.{result_map_both};
ghost use Rattle.computing.specs.Computed.{has_keys};
ghost use Rattle.derived.specs.Layers.{table_of};
ghost use Rattle.expr_text.specs.Meanings.{query_of};
ghost use Rattle.eval.specs.Names.{view_at};
ghost use Rattle.eval.specs.Parts.{IsWhole};
ghost use Rattle.eval.specs.Values.{at_path};
ghost use Rattle.expr_text.specs.Arguments.{orders};
ghost use Rattle.expr_text.specs.Queries.{one};
ghost use Rattle.expr_text.specs.declared.operator.Operator.TheVariants as operators;
ghost use Rattle.questions.specs.Answers.{Answers, answer, shown_due, source_due};
ghost use Rattle.questions.specs.Kept.{asked_names};
ghost use Rattle.questions.specs.Places.{AnswersUnordered};
ghost use Rattle.questions.specs.Told.{told};

use crate::error::{QuestionError, of_name, of_operator};
use crate::known::Known;
use crate::level::Level;
use crate::sorted::keys_given;
use computing::{AtHand, Computation, Computed, Computing, shown};
use derived::Derived;
use eval::{Names, eval};
use expr_text::{Expr, Order};
use mk_value::{Name, Path, TableRead};
use relations::check_keys;
use std::alloc::Global;
use tables::Shared;
use viewers::Viewer;

/// Names, and viewers, of which the first of a name is asked; and the computed watches, whose names come last and which stand over the views
/// and watches among the names.
#[derive(Drop)]
pub struct Scope<'a, V: Viewer> {
    pub names: Known<'a>,
    pub viewers: &'a [V],
    pub computed: &'a Computing,
}

impl<V: Viewer> Scope<'_, V> {
    /// The table that an expression asks for.
    ///
    /// # Errors
    ///
    /// The first refusal of the expression. Else `Memory`.
    pub(crate) fn value(&self, alloc: Global, expr: &Expr) -> Result<Derived<Shared>, QuestionError>
        requires { IsWhole (query_of expr.now) }
        ensures { Answers table_of (answer (asked_names self.now.names (map V.meaning self.now.viewers.now) self.now.computed.now) (map V.meaning self.now.viewers.now) (query_of expr.now)) result }
    {
        let sources = self.names.sources();
        let filtered = self.level(alloc, &sources, &sources, self.computed.filters());
        let known = self.level(alloc, &self.names, &sources, self.computed.filters());
        let asked = self.level(alloc, &known, &filtered, self.computed.counts());
        self.evaluated(alloc, expr, &asked)
    }

    /// The table that an expression asks for among names.
    ///
    /// # Errors
    ///
    /// The first refusal of the expression. Else `Memory`.
    fn evaluated<N: Names<Shared>>(
        &self,
        alloc: Global,
        expr: &Expr,
        names: &N,
    ) -> Result<Derived<Shared>, QuestionError>
        requires { IsWhole (query_of expr.now) }
        ensures { Answers table_of (answer (N.named names.now) (map V.meaning self.now.viewers.now) (query_of expr.now)) result }
    {
        Ok(eval(alloc, expr, names, self.viewers)?)
    }

    /// The table of a view, a watch or a computed watch, which a watch may be asked of.
    ///
    /// # Errors
    ///
    /// `NoName` where nothing of these has the name. Else `Memory`.
    pub fn source(&self, alloc: Global, name: &Name) -> Result<Derived<Shared>, QuestionError>
        ensures { Answers table_of (source_due self.now.names (map V.meaning self.now.viewers.now) self.now.computed.now name.now) result }
    {
        let sources = self.names.sources();
        let filtered = self.level(alloc, &sources, &sources, self.computed.filters());
        let asked = self.level(alloc, &filtered, &filtered, self.computed.counts());
        let path = Path::new(alloc, name.copy()?);
        seen(&asked, &path)
    }

    /// What a computed watch shows of a table.
    ///
    /// # Errors
    ///
    /// The refusal of its operator; `NoName` where no viewer has the name that it asks. Else `Memory`.
    pub fn shown(
        &self,
        alloc: Global,
        base: Derived<Shared>,
        shows: &Computation,
    ) -> Result<Derived<Shared>, QuestionError>
        requires { has_keys shows.now ≡ true }
        ensures { Answers table_of (shown_due (map V.meaning self.now.viewers.now) shows.now (table_of base)) result }
    {
        Ok(shown(alloc, base, self.viewers, shows)?)
    }

    /// Names, and behind them those of computed watches over sources.
    pub(crate) fn level<'b, N: Names<Shared>, S: AtHand<Shared>>(
        &'b self,
        alloc: Global,
        names: &'b N,
        sources: &'b S,
        watches: &'b [Computed],
    ) -> Level<'b, N, S, V>
        ensures names { N.named result.names.now ≡ N.named names.now }
        ensures sources { S.named result.sources.now ≡ S.named sources.now }
        ensures viewers { result.viewers.now ≡ self.now.viewers.now }
        ensures watches { result.watches.now ≡ watches.now }
    {
        Level {
            names,
            sources,
            viewers: self.viewers,
            watches,
            alloc,
        }
    }

    /// The rows that an expression asks for, in whatever order: where it is a sorting none is made.
    ///
    /// # Errors
    ///
    /// The first refusal of the expression. Else `Memory`.
    pub(crate) fn unordered(
        &self,
        alloc: Global,
        expr: &Expr,
    ) -> Result<Derived<Shared>, QuestionError>
        requires { IsWhole (query_of expr.now) }
        ensures { AnswersUnordered (answer (asked_names self.now.names (map V.meaning self.now.viewers.now) self.now.computed.now) (map V.meaning self.now.viewers.now) (query_of expr.now)) result }
    {
        match expr {
            Expr::Sort(base, keys) => self.unsorted(alloc, base, keys.as_slice()),
            _ => self.value(alloc, expr),
        }
    }

    /// The rows of a sorting, as they stand in the table that it sorts.
    fn unsorted(
        &self,
        alloc: Global,
        base: &Expr,
        keys: &[Order],
    ) -> Result<Derived<Shared>, QuestionError>
        requires { IsWhole (query_of base.now) }
        ensures { AnswersUnordered (answer (asked_names self.now.names (map V.meaning self.now.viewers.now) self.now.computed.now) (map V.meaning self.now.viewers.now) (one operators.Sort (query_of base.now) (orders keys.now))) result }
    {
        let table = self.value(alloc, base)?;
        let keys = keys_given(alloc, keys)?;
        if let Err(error) = check_keys(table.schema(), keys.as_slice()) {
            return Err(of_operator(error, table.size() as u64));
        }
        Ok(table)
    }
}

/// The table to which a path leads among names.
///
/// # Errors
///
/// The refusal of the path. Else `Memory`.
fn seen<N: Names<Shared>>(names: &N, path: &Path) -> Result<Derived<Shared>, QuestionError>
    ensures { Answers table_of (result_map_both (λ t. t) told (at_path (view_at (N.named names.now) path.now))) result }
{
    match names.view(path) {
        Ok(table) => Ok(table),
        Err(error) => Err(of_name(error)),
    }
}
