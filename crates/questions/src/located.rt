//! Where the value of an expression has values that are asked for.
ghost use Rattle.std.specs.Prelude.{◌≡◌, ◌⊎◌, map, IfOk, None};
ghost use Rattle.expr_text.specs.Meanings.{query_of};
ghost use Rattle.eval.specs.Parts.{IsWhole};
ghost use Rattle.eval.specs.Values.{asked};
ghost use Rattle.relations.specs.Criteria.{valued};
ghost use Rattle.relations.specs.Refusals.{literals_due};
ghost use Rattle.questions.specs.Answers.{Answers};
ghost use Rattle.questions.specs.Kept.{asked_names};
ghost use Rattle.questions.specs.Places.{Tests, find_due, locate_due, search_due};

use crate::error::{QuestionError, of_operator};
use crate::in_order::{locate_among, search_among};
use crate::scope::Scope;
use crate::sorted::begin;
use eval::criteria_asked;
use expr_text::{Crit, Expr};
use mk_value::{Schema, Sequence, TableRead};
use relations::{Criterion, check_literals, count_before, count_equal, criteria_of};
use std::alloc::Global;
use viewers::Viewer;

/// Where rows with the values that are asked for stand, or would stand, and how many there are.
#[derive(Clone, Copy, Debug, PartialEq, Eq)]
pub struct Located {
    pub position: u64,
    pub count: u64,
}

impl<V: Viewer> Scope<'_, V> {
    /// The position of the first row, not before a start, with the values of the criteria, if there is one.
    ///
    /// # Errors
    ///
    /// The first refusal of the expression; `NoProp`, `Kind` by the criteria; `Range` where the start is past the rows. Else `Memory`.
    pub fn find(
        &self,
        alloc: Global,
        expr: &Expr,
        start: u64,
        criteria: &[Crit],
    ) -> Result<Option<u64>, QuestionError>
        requires { IsWhole (query_of expr.now) }
        ensures { Answers (λ found. found) (find_due (asked_names self.now.names (map V.meaning self.now.viewers.now) self.now.computed.now) (map V.meaning self.now.viewers.now) (query_of expr.now) start criteria.now) result }
    {
        let table = self.value(alloc, expr)?;
        let size = table.size() as u64;
        let values = tested(alloc, table.schema(), criteria)?;
        if start > size {
            return Err(QuestionError::Range(size));
        }
        let found = relations::find(alloc, &table, values.as_slice(), start as usize)?;
        Ok(found.map(|at| at as u64))
    }

    /// The position in a sorting of the first row that does not come before the values of the criteria; its size where there is none.
    ///
    /// # Errors
    ///
    /// The first refusal of the expression; `NoProp`, `Kind` by the criteria; `Unsorted` where it is no sorting, no view that is kept in the
    /// order of its keys and no watch that is a sorting, of which the criteria name the first keys, in order, each once. Else `Memory`.
    pub fn search(
        &self,
        alloc: Global,
        expr: &Expr,
        criteria: &[Crit],
    ) -> Result<u64, QuestionError>
        requires { IsWhole (query_of expr.now) }
        ensures { Answers (λ position. position) (search_due (asked_names self.now.names (map V.meaning self.now.viewers.now) self.now.computed.now) self.now.names.watches self.now.names.mappings (map V.meaning self.now.viewers.now) (query_of expr.now) criteria.now) result }
    {
        match self.names.in_order(expr) {
            Some(view) => view.search(alloc, criteria),
            None => self.search_watch(alloc, expr, criteria),
        }
    }

    /// The same: of a watch by halving.
    fn search_watch(
        &self,
        alloc: Global,
        expr: &Expr,
        criteria: &[Crit],
    ) -> Result<u64, QuestionError>
        requires { IsWhole (query_of expr.now) }
        ensures { Answers (λ position. position) (search_due (asked_names self.now.names (map V.meaning self.now.viewers.now) self.now.computed.now) self.now.names.watches self.now.names.mappings (map V.meaning self.now.viewers.now) (query_of expr.now) criteria.now) result }
    {
        let Some(rows) = self.names.watch_named(expr) else {
            return self.search_all(alloc, expr, criteria);
        };
        let keys = self.names.known_keys(alloc, expr, rows.schema())?;
        search_among(alloc, &rows, keys.as_slice(), criteria)
    }

    /// The same, where it is not known that the rows stand in the order: those that come before the values are counted.
    fn search_all(
        &self,
        alloc: Global,
        expr: &Expr,
        criteria: &[Crit],
    ) -> Result<u64, QuestionError>
        requires { IsWhole (query_of expr.now) }
        ensures { Answers (λ position. position) (search_due (asked_names self.now.names (map V.meaning self.now.viewers.now) self.now.computed.now) self.now.names.watches self.now.names.mappings (map V.meaning self.now.viewers.now) (query_of expr.now) criteria.now) result }
    {
        let table = self.unordered(alloc, expr)?;
        let values = tested(alloc, table.schema(), criteria)?;
        let keys = self.names.known_keys(alloc, expr, table.schema())?;
        if !begin(criteria, keys.as_slice()) {
            return Err(QuestionError::Unsorted);
        }
        Ok(count_before(&table, keys.as_slice(), values.as_slice()) as u64)
    }

    /// The same position, and the number of rows with the values.
    ///
    /// # Errors
    ///
    /// As of `search`.
    pub fn locate(
        &self,
        alloc: Global,
        expr: &Expr,
        criteria: &[Crit],
    ) -> Result<Located, QuestionError>
        requires { IsWhole (query_of expr.now) }
        ensures { Answers (λ located. located) (locate_due (asked_names self.now.names (map V.meaning self.now.viewers.now) self.now.computed.now) self.now.names.watches self.now.names.mappings (map V.meaning self.now.viewers.now) (query_of expr.now) criteria.now) result }
    {
        match self.names.in_order(expr) {
            Some(view) => view.locate(alloc, criteria),
            None => self.locate_watch(alloc, expr, criteria),
        }
    }

    /// The same: of a watch by halving.
    fn locate_watch(
        &self,
        alloc: Global,
        expr: &Expr,
        criteria: &[Crit],
    ) -> Result<Located, QuestionError>
        requires { IsWhole (query_of expr.now) }
        ensures { Answers (λ located. located) (locate_due (asked_names self.now.names (map V.meaning self.now.viewers.now) self.now.computed.now) self.now.names.watches self.now.names.mappings (map V.meaning self.now.viewers.now) (query_of expr.now) criteria.now) result }
    {
        let Some(rows) = self.names.watch_named(expr) else {
            return self.locate_all(alloc, expr, criteria);
        };
        let keys = self.names.known_keys(alloc, expr, rows.schema())?;
        locate_among(alloc, &rows, keys.as_slice(), criteria)
    }

    /// The same, where it is not known that the rows stand in the order: all are looked at.
    fn locate_all(
        &self,
        alloc: Global,
        expr: &Expr,
        criteria: &[Crit],
    ) -> Result<Located, QuestionError>
        requires { IsWhole (query_of expr.now) }
        ensures { Answers (λ located. located) (locate_due (asked_names self.now.names (map V.meaning self.now.viewers.now) self.now.computed.now) self.now.names.watches self.now.names.mappings (map V.meaning self.now.viewers.now) (query_of expr.now) criteria.now) result }
    {
        let table = self.unordered(alloc, expr)?;
        let values = tested(alloc, table.schema(), criteria)?;
        let keys = self.names.known_keys(alloc, expr, table.schema())?;
        if !begin(criteria, keys.as_slice()) {
            return Err(QuestionError::Unsorted);
        }
        let position = count_before(&table, keys.as_slice(), values.as_slice()) as u64;
        let count = count_equal(alloc, &table, values.as_slice())? as u64;
        Ok(Located { position, count })
    }
}

/// The criteria as values of their properties' kinds, where none is due a refusal.
pub(crate) fn tested(
    alloc: Global,
    schema: &Schema,
    criteria: &[Crit],
) -> Result<Sequence<Criterion>, QuestionError>
    ensures { Tests schema.now criteria.now result }
{
    let items = criteria_asked(alloc, criteria)?;
    if let Err(error) = check_literals(schema, &items) {
        return Err(of_operator(error, 0));
    }
    Ok(criteria_of(alloc, schema, &items)?)
}
