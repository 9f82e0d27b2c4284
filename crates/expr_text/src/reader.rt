//! Reading the parts of an expression from the pieces of its text.
ghost use Rattle.std.specs.Prelude.{◌≡◌, ◌↔◌, ◌<◌, ◌++◌, ◌-◌, ◌∷◌, [], ℕ, ℤ, List, FitsSigned, IfOk, IfErr, IfSome, IsNone, IsOk, IsTrue, IsFalse, OnOk, Some};
ghost use Rattle.std.specs.Int.{w64};
ghost use Rattle.mk_value.specs.LiteralValues.{literal_of};
ghost use Rattle.mk_value.specs.Literals.{tokens_of as literal_tokens};
ghost use Rattle.mk_value.specs.Names.{IsName};
ghost use Rattle.mk_value.specs.Tokens.{word, number as number_token, sign as sign_token};
ghost use Rattle.tokens.specs.Literals.{IsLiteral, max_braces};
ghost use Rattle.tokens.specs.Meanings.{byte_of, token_of};
ghost use Rattle.tokens.specs.Paths.{IsPath, path_tokens};
ghost use Rattle.expr_text.specs.Arguments.{IsCount, IsOrder};
ghost use Rattle.expr_text.specs.Operators.{takes, word_of};
ghost use Rattle.expr_text.specs.Spelling.{comma, count as count_token, minus, opening, order_tokens};
ghost use Rattle.expr_text.specs.Walk.{a_count, a_key, a_literal, a_name, a_number, a_path, a_query, a_sign, end_goals, end_sign, member_goals, more, offence_of, table_goals};
ghost use Rattle.expr_text.specs.declared.operator.Operator.{Operator as TheOperator};

use crate::list::Item;
use crate::{ExprError, Operator, Order};
use mk_value::{Literal, Name, Path};
use std::alloc::Global;
use tokens::{PartError, Piece, Sign, Token, count_of, literal_at, name_of, path_at};

/// The pieces of a text that are left to read, and the text's length. Each call reads one part from the front: where it does, its goals are met
/// and the rest is what stands behind; where it refuses, they fail there.
#[derive(Drop)]
pub struct Reader<'a> {
    pub alloc: Global,
    pub rest: &'a [Piece<'a>],
    pub end: usize,
}

impl<'a> Reader<'a> {
    ghost use Rattle.expr_text.specs.Readers.{Becomes, Fails, Meets, place_behind as place_of, rest_of, tokens_left};

    /// Reads a name.
    pub fn name(&mut self) -> Result<Name, ExprError>
        ensures whole { IfOk result IsName }
        ensures spells { IfOk result (λ name. tokens_left self.old ≡ word name ∷ tokens_left self.new) }
        ensures meets { OnOk result (Meets (a_name ∷ []) (rest_of self.old) (rest_of self.new)) }
        ensures fails { IfErr result (Fails (a_name ∷ []) (rest_of self.old)) }
    {
        let Some(first) = self.rest.first() else {
            return Err(ExprError::Syntax(self.end));
        };
        let Some(name) = name_of(&first.token) else {
            return Err(ExprError::Syntax(first.place));
        };
        self.rest = &self.rest[1..];
        Ok(name)
    }

    /// Reads a number without a sign.
    pub fn count(&mut self) -> Result<u64, ExprError>
        ensures whole { IfOk result IsCount }
        ensures spells { IfOk result (λ n. tokens_left self.old ≡ count_token n ∷ tokens_left self.new) }
        ensures meets { OnOk result (Meets (a_count ∷ []) (rest_of self.old) (rest_of self.new)) }
        ensures fails { IfErr result (Fails (a_count ∷ []) (rest_of self.old)) }
    {
        let Some(first) = self.rest.first() else {
            return Err(ExprError::Syntax(self.end));
        };
        let Some(number) = count_of(&first.token) else {
            return Err(ExprError::Syntax(first.place));
        };
        self.rest = &self.rest[1..];
        Ok(number)
    }

    /// Reads a number.
    pub(crate) fn number(&mut self) -> Result<i64, ExprError>
        ensures whole { IfOk result (λ z. FitsSigned w64 z) }
        ensures spells { IfOk result (λ z. tokens_left self.old ≡ number_token z ∷ tokens_left self.new) }
        ensures meets { OnOk result (Meets (a_number ∷ []) (rest_of self.old) (rest_of self.new)) }
        ensures fails { IfErr result (Fails (a_number ∷ []) (rest_of self.old)) }
    {
        let Some(first) = self.rest.first() else {
            return Err(ExprError::Syntax(self.end));
        };
        let Some(number) = number_of(&first.token) else {
            return Err(ExprError::Syntax(first.place));
        };
        self.rest = &self.rest[1..];
        Ok(number)
    }

    /// Reads a sign.
    pub(crate) fn sign(&mut self, sign: Sign) -> Result<(), ExprError>
        ensures spells { OnOk result (tokens_left self.old ≡ sign_token (byte_of sign) ∷ tokens_left self.new) }
        ensures meets { OnOk result (Meets (a_sign (byte_of sign) ∷ []) (rest_of self.old) (rest_of self.new)) }
        ensures fails { IfErr result (Fails (a_sign (byte_of sign) ∷ []) (rest_of self.old)) }
    {
        let Some(first) = self.rest.first() else {
            return Err(ExprError::Syntax(self.end));
        };
        if !is_sign(&first.token, sign) {
            return Err(ExprError::Syntax(first.place));
        }
        self.rest = &self.rest[1..];
        Ok(())
    }

    /// Reads a path.
    pub fn path(&mut self) -> Result<Path, ExprError>
        ensures whole { IfOk result IsPath }
        ensures spells { IfOk result (λ path. tokens_left self.old ≡ path_tokens path ++ tokens_left self.new) }
        ensures meets { OnOk result (Meets (a_path ∷ []) (rest_of self.old) (rest_of self.new)) }
        ensures fails { IfErr result (Fails (a_path ∷ []) (rest_of self.old)) }
    {
        match path_at(self.alloc, self.rest) {
            Ok((path, taken)) => {
                self.rest = &self.rest[taken..];
                Ok(path)
            }
            Err(PartError::Stuck(count)) => Err(ExprError::Syntax(self.place_behind(count))),
            Err(PartError::Memory) => Err(ExprError::Memory),
        }
    }

    /// Reads a literal.
    pub fn literal(&mut self) -> Result<Literal, ExprError>
        ensures whole { IfOk result (λ literal. IsLiteral max_braces (literal_of literal)) }
        ensures spells { IfOk result (λ literal. tokens_left self.old ≡ literal_tokens (literal_of literal) ++ tokens_left self.new) }
        ensures meets { OnOk result (Meets (a_literal max_braces ∷ []) (rest_of self.old) (rest_of self.new)) }
        ensures fails { IfErr result (Fails (a_literal max_braces ∷ []) (rest_of self.old)) }
    {
        match literal_at(self.alloc, self.rest) {
            Ok((literal, taken)) => {
                self.rest = &self.rest[taken..];
                Ok(literal)
            }
            Err(PartError::Stuck(count)) => Err(ExprError::Syntax(self.place_behind(count))),
            Err(PartError::Memory) => Err(ExprError::Memory),
        }
    }

    /// Reads the sign behind a member of a list, and tells whether the list ends with it.
    pub(crate) fn ends(&mut self, item: Item) -> Result<bool, ExprError>
        ensures end { IfOk result (λ ended. IsTrue ended → tokens_left self.old ≡ sign_token (end_sign item) ∷ tokens_left self.new) }
        ensures comma { IfOk result (λ ended. IsFalse ended → tokens_left self.old ≡ comma ∷ tokens_left self.new) }
        ensures met { IfOk result (λ ended. IsTrue ended → Becomes (more item ∷ []) (rest_of self.old) (end_goals item) (rest_of self.new)) }
        ensures further { IfOk result (λ ended. IsFalse ended → Becomes (more item ∷ []) (rest_of self.old) (member_goals item ++ (more item ∷ [])) (rest_of self.new)) }
        ensures fails { IfErr result (Fails (more item ∷ []) (rest_of self.old)) }
    {
        let Some(first) = self.rest.first() else {
            return Err(ExprError::Syntax(self.end));
        };
        if is_sign(&first.token, item.end()) {
            self.rest = &self.rest[1..];
            return Ok(true);
        }
        if is_sign(&first.token, Sign::Comma) {
            self.rest = &self.rest[1..];
            return Ok(false);
        }
        Err(ExprError::Syntax(first.place))
    }

    /// Reads a property to sort by: a name, or one behind a minus.
    pub(crate) fn key(&mut self) -> Result<Order, ExprError>
        ensures whole { IfOk result IsOrder }
        ensures spells { IfOk result (λ order. tokens_left self.old ≡ order_tokens order ++ tokens_left self.new) }
        ensures meets { OnOk result (Meets (a_key ∷ []) (rest_of self.old) (rest_of self.new)) }
        ensures fails { IfErr result (Fails (a_key ∷ []) (rest_of self.old)) }
    {
        let down = self.minus();
        let prop = self.name()?;
        Ok(Order { prop, down })
    }

    /// Reads a minus, if one stands here.
    fn minus(&mut self) -> bool
        ensures spells { IsTrue result → tokens_left self.old ≡ minus ∷ tokens_left self.new }
        ensures stays { IsFalse result → tokens_left self.old ≡ tokens_left self.new }
        ensures key { Becomes (a_key ∷ []) (rest_of self.old) (a_name ∷ []) (rest_of self.new) }
    {
        let Some(first) = self.rest.first() else {
            return false;
        };
        if !is_sign(&first.token, Sign::Minus) {
            return false;
        }
        self.rest = &self.rest[1..];
        true
    }

    /// Reads the word of an operator and the parenthesis behind it, if they stand here. `depth` operators may stand inside one another.
    pub(crate) fn operator(&mut self, depth: usize) -> Result<Option<Operator>, ExprError>
        ensures deep { IfOk result (λ found. IfSome found (λ _. 0 < depth)) }
        ensures spells { IfOk result (λ found. IfSome found (λ operator. tokens_left self.old ≡ word (word_of operator) ∷ opening ∷ tokens_left self.new)) }
        ensures opens { IfOk result (λ found. IfSome found (λ operator. Becomes (a_query depth ∷ []) (rest_of self.old) (table_goals (depth - 1) (takes operator)) (rest_of self.new))) }
        ensures stays { IfOk result (λ found. IsNone found → tokens_left self.old ≡ tokens_left self.new) }
        ensures path { IfOk result (λ found. IsNone found → Becomes (a_query depth ∷ []) (rest_of self.old) (a_path ∷ []) (rest_of self.new)) }
        ensures fails { IfErr result (Fails (a_query depth ∷ []) (rest_of self.old)) }
    {
        let [first, second, ..] = self.rest else {
            return Ok(None);
        };
        let Some(operator) = operator_of(&first.token) else {
            return Ok(None);
        };
        if !is_sign(&second.token, Sign::OpenParenthesis) {
            return Ok(None);
        }
        if depth == 0 {
            return Err(ExprError::TooDeep(first.place));
        }
        self.rest = &self.rest[2..];
        Ok(Some(operator))
    }

    /// Tests that nothing is left.
    pub fn over(&self) -> Result<(), ExprError>
        ensures spells { OnOk result (tokens_left self.now ≡ []) }
        ensures fails { IfErr result (λ error. offence_of (rest_of self.now) [] ≡ Some error) }
        ensures in_place { tokens_left self.now ≡ [] → IsOk result }
    {
        let Some(first) = self.rest.first() else {
            return Ok(());
        };
        Err(ExprError::Syntax(first.place))
    }

    /// The place of the piece behind so many, or the text's length where there is none.
    fn place_behind(&self, count: usize) -> usize
        ensures { result ≡ place_of count self.now }
    {
        if count < self.rest.len() {
            self.rest[count].place
        } else {
            self.end
        }
    }
}

/// Whether a token is the sign.
fn is_sign(token: &Token<'_>, sign: Sign) -> bool
    ensures { IsTrue result ↔ (token_of token.now ≡ sign_token (byte_of sign)) }
{
    match token {
        Token::Symbol(other) => *other == sign,
        _ => false,
    }
}

/// The operator whose word a token is.
fn operator_of(token: &Token<'_>) -> Option<Operator>
    ensures some { IfSome result (λ operator. token_of token.now ≡ word (word_of operator)) }
    ensures none { IsNone result → (operator : TheOperator) → token_of token.now ≡ word (word_of operator) → ⊥ }
{
    let Token::Word(letters) = token else {
        return None;
    };
    Operator::of(letters)
}

/// The number that a token is.
fn number_of(token: &Token<'_>) -> Option<i64>
    ensures some { IfSome result (λ z. (token_of token.now ≡ number_token z) × FitsSigned w64 z) }
    ensures none { IsNone result → (z : ℤ) → token_of token.now ≡ number_token z → ⊥ }
{
    let Token::Number(number) = token else {
        return None;
    };
    Some(*number)
}
