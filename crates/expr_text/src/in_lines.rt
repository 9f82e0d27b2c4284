//! Reading what stands in a line beside expressions: lists up to the line's end, and what may be kept up to date.
ghost use Rattle.std.specs.Prelude.{◌≡◌, ◌++◌, ◌∷◌, [], IfOk, IfErr, IfSome, IsNone, OnOk};
ghost use Rattle.mk_value.specs.Tokens.{word};
ghost use Rattle.tokens.specs.Meanings.{token_of};
ghost use Rattle.expr_text.specs.Arguments.{IsTail, criteria as the_criteria};
ghost use Rattle.expr_text.specs.InLines.{AreValues, IsNameAlone, IsOperation, joined_tokens, values_tokens};
ghost use Rattle.expr_text.specs.Meanings.{query_of};
ghost use Rattle.expr_text.specs.Operators.{word_of};
ghost use Rattle.expr_text.specs.Readers.{operator_of as kept_operator};
ghost use Rattle.expr_text.specs.Spelling.{opening, tokens_of};
ghost use Rattle.expr_text.specs.Walk.{a_name, a_sign, an_operation, criteria_goals, form_goals, values as some_values};
ghost use Rattle.expr_text.specs.declared.kept_up.KeptUp.{KeptUp as TheKept};

use crate::kept_up::KeptUp;
use crate::reader::Reader;
use crate::reading::in_a_box;
use crate::{Crits, Expr, ExprError};
use mk_value::{Literals, Path};
use tokens::{Sign, Token};

impl<'a> Reader<'a> {
    ghost use Rattle.expr_text.specs.Readers.{Becomes, Fails, Meets, kept_form, operator_of, rest_of, tokens_left};

    /// Reads literals, as many as are left.
    pub fn values(&mut self) -> Result<Literals, ExprError>
        ensures whole { IfOk result AreValues }
        ensures spells { IfOk result (λ list. tokens_left self.old ≡ values_tokens list ++ tokens_left self.new) }
        ensures meets { OnOk result (Meets (some_values ∷ []) (rest_of self.old) (rest_of self.new)) }
        ensures fails { IfErr result (Fails (some_values ∷ []) (rest_of self.old)) }
    {
        let mut list = Literals::new(self.alloc);
        'members: while !self.rest.is_empty() {
            let member = self.literal()?;
            list.push(member)?;
        }
        Ok(list)
    }

    /// Reads criteria, as many as are left.
    pub fn last_criteria(&mut self) -> Result<Crits, ExprError>
        ensures whole { IfOk result (λ list. IsTail (the_criteria list)) }
        ensures spells { IfOk result (λ list. tokens_left self.old ≡ joined_tokens list ++ tokens_left self.new) }
        ensures meets { OnOk result (Meets criteria_goals (rest_of self.old) (rest_of self.new)) }
        ensures fails { IfErr result (Fails criteria_goals (rest_of self.old)) }
    {
        let mut list = Crits::new(self.alloc);
        let first = self.criterion()?;
        list.push(first)?;
        'members: while !self.rest.is_empty() {
            self.sign(Sign::Comma)?;
            let member = self.criterion()?;
            list.push(member)?;
        }
        Ok(list)
    }

    /// Reads a selection, a range, a sorting, counts or a filter of what a name stands for.
    pub fn operation(&mut self) -> Result<Expr, ExprError>
        ensures whole { IfOk result (λ e. IsOperation (query_of e)) }
        ensures spells { IfOk result (λ e. tokens_left self.old ≡ tokens_of (query_of e) ++ tokens_left self.new) }
        ensures meets { OnOk result (Meets (an_operation ∷ []) (rest_of self.old) (rest_of self.new)) }
        ensures fails { IfErr result (Fails (an_operation ∷ []) (rest_of self.old)) }
    {
        let operator = self.kept_up()?;
        let base = self.named_table()?;
        match operator {
            KeptUp::Select => Ok(Expr::Select(base, self.criteria()?)),
            KeptUp::Range => Ok(Expr::Range(base, self.bounds()?)),
            KeptUp::Sort => Ok(Expr::Sort(base, self.orders()?)),
            KeptUp::Counts => {
                let (keys, count) = self.named()?;
                Ok(Expr::Counts(base, keys, count))
            }
            KeptUp::Keep => {
                let (viewer, props) = self.viewed()?;
                Ok(Expr::Keep(base, viewer, props))
            }
        }
    }

    /// Reads the word of an operator whose rows may be kept up to date.
    fn kept_up(&mut self) -> Result<KeptUp, ExprError>
        ensures spells { IfOk result (λ kept. tokens_left self.old ≡ word (word_of (operator_of kept)) ∷ tokens_left self.new) }
        ensures opens { IfOk result (λ kept. Becomes (an_operation ∷ []) (rest_of self.old) (a_sign 40 ∷ a_name ∷ form_goals (kept_form kept)) (rest_of self.new)) }
        ensures fails { IfErr result (Fails (an_operation ∷ []) (rest_of self.old)) }
    {
        let Some(first) = self.rest.first() else {
            return Err(ExprError::Syntax(self.end));
        };
        let Some(kept) = kept_of(&first.token) else {
            return Err(ExprError::Syntax(first.place));
        };
        self.rest = &self.rest[1..];
        Ok(kept)
    }

    /// Reads the opening parenthesis and the name of the table behind it.
    fn named_table(&mut self) -> Result<Box<Expr>, ExprError>
        ensures whole { IfOk result (λ e. IsNameAlone (query_of e.value)) }
        ensures spells { IfOk result (λ e. tokens_left self.old ≡ opening ∷ (tokens_of (query_of e.value) ++ tokens_left self.new)) }
        ensures meets { OnOk result (Meets (a_sign 40 ∷ a_name ∷ []) (rest_of self.old) (rest_of self.new)) }
        ensures fails { IfErr result (Fails (a_sign 40 ∷ a_name ∷ []) (rest_of self.old)) }
    {
        self.sign(Sign::OpenParenthesis)?;
        let name = self.name()?;
        let boxed = in_a_box(self.alloc, Expr::Path(Path::new(self.alloc, name)))?;
        Ok(boxed)
    }
}

/// The operator whose word a token is.
fn kept_of(token: &Token<'_>) -> Option<KeptUp>
    ensures some { IfSome result (λ kept. token_of token.now ≡ word (word_of (kept_operator kept))) }
    ensures none { IsNone result → (kept : TheKept) → token_of token.now ≡ word (word_of (kept_operator kept)) → ⊥ }
{
    let Token::Word(letters) = token else {
        return None;
    };
    KeptUp::of(letters)
}
