//! Reading expressions.
ghost use Rattle.std.specs.Prelude.{◌≡◌, ◌⊎◌, ◌++◌, ◌∷◌, [], suc, None, Some, IfOk, IfErr, OnOk};
ghost use Rattle.mk_value.specs.Tokens.{word};
ghost use Rattle.tokens.specs.Fronts.{tokens_in};
ghost use Rattle.tokens.specs.Meanings.{pieces_of};
ghost use Rattle.expr_text.specs.Grammar.{IsRefusedAs, Reads, Spells};
ghost use Rattle.expr_text.specs.Meanings.{query_of};
ghost use Rattle.expr_text.specs.Operators.{takes, word_of};
ghost use Rattle.expr_text.specs.Queries.{IsQuery, max_operators};
ghost use Rattle.expr_text.specs.Spelling.{closing, comma, opening, tokens_of};
ghost use Rattle.expr_text.specs.Walk.{a_query, a_sign, run, table_goals};
ghost use Rattle.expr_text.specs.Readers.{flawed_as};
ghost use Rattle.expr_text.specs.declared.error.ExprError.TheVariants.{Memory as want_of_memory};

use crate::reader::Reader;
use crate::{Expr, ExprError, Operator};
use mk_value::Memory;
use std::alloc::Global;
use tokens::{Piece, Sign, cut};

/// How many operators may stand inside one another around a path.
const MAX_OPERATORS: usize = 15;

/// Reads a text that is one expression.
///
/// # Errors
///
/// The first offence of the text: `TooDeep` where the name of a 16th operator inside one another stands left of all else that is wrong, else `Syntax`.
/// `Memory`.
pub fn parse_expr(alloc: Global, text: &str) -> Result<Expr, ExprError>
    ensures reads { IfOk result (λ e. Reads text.now (query_of e)) }
    ensures refused { IfErr result (λ error. (error ≡ want_of_memory) ⊎ IsRefusedAs text.now error) }
{
    let cutting = cut(alloc, text)?;
    let read = read_pieces(alloc, cutting.pieces.as_slice(), text.len());
    match cutting.flaw {
        None => read,
        Some(flaw) => Err(flawed(read, flaw)),
    }
}

/// Reads the expression that the pieces of a text of `end` bytes are.
fn read_pieces(alloc: Global, pieces: &[Piece<'_>], end: usize) -> Result<Expr, ExprError>
    ensures reads { IfOk result (λ e. Spells max_operators (tokens_in (pieces_of pieces.now)) (query_of e)) }
    ensures met { OnOk result (run (pieces_of pieces.now) end (a_query max_operators ∷ []) ≡ None) }
    ensures fails { IfErr result (λ error. (error ≡ want_of_memory) ⊎ (run (pieces_of pieces.now) end (a_query max_operators ∷ []) ≡ Some error)) }
{
    let mut reader = Reader {
        alloc,
        rest: pieces,
        end,
    };
    let expr = reader.expr(MAX_OPERATORS)?;
    reader.over()?;
    Ok(expr)
}

/// How a text with a piece that is no token is refused, where its pieces up to that one were read so.
fn flawed(read: Result<Expr, ExprError>, flaw: usize) -> ExprError
    ensures { result ≡ flawed_as read flaw }
{
    match read {
        Err(ExprError::TooDeep(place)) => ExprError::TooDeep(place),
        Err(ExprError::Memory) => ExprError::Memory,
        _ => ExprError::Syntax(flaw),
    }
}

impl<'a> Reader<'a> {
    ghost use Rattle.expr_text.specs.Readers.{Fails, Meets, rest_of, tokens_left};

    /// Reads an expression with at most `depth` operators inside one another.
    #[cycle(expr)]
    pub fn expr(&mut self, depth: usize) -> Result<Expr, ExprError>
        ensures whole { IfOk result (λ e. IsQuery (query_of e) depth) }
        ensures spells { IfOk result (λ e. tokens_left self.old ≡ tokens_of (query_of e) ++ tokens_left self.new) }
        ensures meets { OnOk result (Meets (a_query depth ∷ []) (rest_of self.old) (rest_of self.new)) }
        ensures fails { IfErr result (Fails (a_query depth ∷ []) (rest_of self.old)) }
    {
        match self.operator(depth)? {
            Some(operator) => self.applied(operator, depth - 1),
            None => Ok(Expr::Path(self.path()?)),
        }
    }

    /// Reads an expression into a box.
    #[cycle(expr)]
    fn table(&mut self, depth: usize) -> Result<Box<Expr>, ExprError>
        ensures whole { IfOk result (λ e. IsQuery (query_of e.value) depth) }
        ensures spells { IfOk result (λ e. tokens_left self.old ≡ tokens_of (query_of e.value) ++ tokens_left self.new) }
        ensures meets { OnOk result (Meets (a_query depth ∷ []) (rest_of self.old) (rest_of self.new)) }
        ensures fails { IfErr result (Fails (a_query depth ∷ []) (rest_of self.old)) }
    {
        let expr = self.expr(depth)?;
        let boxed = in_a_box(self.alloc, expr)?;
        Ok(boxed)
    }

    /// Reads the second table of an operator, behind a comma.
    #[cycle(expr)]
    fn second(&mut self, depth: usize) -> Result<Box<Expr>, ExprError>
        ensures whole { IfOk result (λ e. IsQuery (query_of e.value) depth) }
        ensures spells { IfOk result (λ e. tokens_left self.old ≡ comma ∷ (tokens_of (query_of e.value) ++ tokens_left self.new)) }
        ensures meets { OnOk result (Meets (a_sign 44 ∷ a_query depth ∷ []) (rest_of self.old) (rest_of self.new)) }
        ensures fails { IfErr result (Fails (a_sign 44 ∷ a_query depth ∷ []) (rest_of self.old)) }
    {
        self.sign(Sign::Comma)?;
        self.table(depth)
    }

    /// Reads what stands in the parentheses of an operator.
    #[cycle(expr)]
    fn applied(&mut self, operator: Operator, depth: usize) -> Result<Expr, ExprError>
        ensures whole { IfOk result (λ e. IsQuery (query_of e) (suc depth)) }
        ensures spells { IfOk result (λ e. word (word_of operator) ∷ opening ∷ tokens_left self.old ≡ tokens_of (query_of e) ++ tokens_left self.new) }
        ensures meets { OnOk result (Meets (table_goals depth (takes operator)) (rest_of self.old) (rest_of self.new)) }
        ensures fails { IfErr result (Fails (table_goals depth (takes operator)) (rest_of self.old)) }
    {
        let base = self.table(depth)?;
        match operator {
            Operator::Select => Ok(Expr::Select(base, self.criteria()?)),
            Operator::Range => Ok(Expr::Range(base, self.bounds()?)),
            Operator::Sort => Ok(Expr::Sort(base, self.orders()?)),
            Operator::Project => Ok(Expr::Project(base, self.names()?)),
            Operator::Without => Ok(Expr::Without(base, self.names()?)),
            Operator::Rename => {
                let (prop, new) = self.renamed()?;
                Ok(Expr::Rename(base, prop, new))
            }
            Operator::Slice => {
                let (first, limit, step) = self.rows()?;
                Ok(Expr::Slice(base, first, limit, step))
            }
            Operator::Unique => {
                self.close()?;
                Ok(Expr::Unique(base))
            }
            Operator::GroupBy => {
                let (keys, inner) = self.named()?;
                Ok(Expr::GroupBy(base, keys, inner))
            }
            Operator::Counts => {
                let (keys, count) = self.named()?;
                Ok(Expr::Counts(base, keys, count))
            }
            Operator::JoinProp => Ok(Expr::JoinProp(base, self.inner()?)),
            Operator::OuterJoinProp => Ok(Expr::OuterJoinProp(base, self.inner()?)),
            Operator::Calc => {
                let (viewer, props, new) = self.viewed_as()?;
                Ok(Expr::Calc(base, viewer, props, new))
            }
            Operator::Keep => {
                let (viewer, props) = self.viewed()?;
                Ok(Expr::Keep(base, viewer, props))
            }
            Operator::Join => {
                let other = self.second(depth)?;
                Ok(Expr::Join(base, other, self.names()?))
            }
            Operator::OuterJoin => {
                let other = self.second(depth)?;
                Ok(Expr::OuterJoin(base, other, self.names()?))
            }
            Operator::Concat => Ok(Expr::Concat(base, self.last(depth)?)),
            Operator::Pair => Ok(Expr::Pair(base, self.last(depth)?)),
            Operator::Product => Ok(Expr::Product(base, self.last(depth)?)),
            Operator::Union => Ok(Expr::Union(base, self.last(depth)?)),
            Operator::Intersect => Ok(Expr::Intersect(base, self.last(depth)?)),
            Operator::Minus => Ok(Expr::Minus(base, self.last(depth)?)),
            Operator::Different => Ok(Expr::Different(base, self.last(depth)?)),
        }
    }

    /// Reads the second table of an operator that takes nothing more, and the closing parenthesis.
    #[cycle(expr)]
    fn last(&mut self, depth: usize) -> Result<Box<Expr>, ExprError>
        ensures whole { IfOk result (λ e. IsQuery (query_of e.value) depth) }
        ensures spells { IfOk result (λ e. tokens_left self.old ≡ comma ∷ (tokens_of (query_of e.value) ++ (closing ∷ tokens_left self.new))) }
        ensures meets { OnOk result (Meets (a_sign 44 ∷ a_query depth ∷ a_sign 41 ∷ []) (rest_of self.old) (rest_of self.new)) }
        ensures fails { IfErr result (Fails (a_sign 44 ∷ a_query depth ∷ a_sign 41 ∷ []) (rest_of self.old)) }
    {
        let other = self.second(depth)?;
        self.close()?;
        Ok(other)
    }
}

pub(crate) fn in_a_box(alloc: Global, expr: Expr) -> Result<Box<Expr>, Memory>
    ensures { IfOk result (λ e. e.value ≡ expr) }
{
    let boxed = Box::new(alloc, expr)?;
    Ok(boxed)
}
