//! Reading literals.

ghost use Rattle.std.specs.Prelude.{◌≡◌, ◌≤◌, ◌<◌, ◌⊎◌, ℕ, length, take, All, IfOk, IfErr};
ghost use Rattle.mk_value.specs.LiteralValues.{literal_of};
ghost use Rattle.mk_value.specs.Tokens.{sign as plain_sign};
ghost use Rattle.tokens.specs.Fronts.{EndsEarly, IsFirstOffence, IsFirstWrong, Stops};
ghost use Rattle.tokens.specs.Literals.{LiteralTokens, Reads, SpellsLiteral, max_braces};
ghost use Rattle.tokens.specs.Meanings.{characters_of, pieces_of, tokens_of_pieces};
ghost use Rattle.tokens.specs.Parts.{FindsPlain, IsTextLiteral, LiteralIn, ReadsLiteral, ReadsRow, ReadsRows, ReadsValues, RowIn, RowsIn, SomeRowsIn, StopsAt, ValuesIn};
ghost use Rattle.tokens.specs.Standing.{Stands};

use crate::decoding::{bytes_of, characters};
use crate::standing::{is_sign_at, token_of};
use crate::{PartError, Piece, ReadError, Sign, Token, cut};
use mk_value::{Literal, LiteralRows, Literals, Memory, Text as Characters, is_text};
use std::alloc::Global;

/// How deep braces may stand in a literal.
const MAX_BRACES: usize = 8;

/// Reads the literal that stands at the front of the pieces, and tells how many of them it took.
///
/// # Errors
///
/// `Stuck` with the number of pieces that are a front of a literal, where none is whole: the next one, if there is one, cannot go on. `Memory`.
pub fn literal_at(alloc: Global, pieces: &[Piece<'_>]) -> Result<(Literal, usize), PartError>
    ensures within { IfOk result (λ read. read.1 ≤ length pieces.now) }
    ensures spells { IfOk result (λ read. SpellsLiteral (take read.1 (tokens_of_pieces pieces.now)) (literal_of read.0)) }
    ensures stuck { IfErr result (λ error. (error ≡ PartError.Memory) ⊎ ((count : ℕ) × (error ≡ PartError.Stuck count) × Stops LiteralTokens (tokens_of_pieces pieces.now) count)) }
{
    literal_from(alloc, pieces, 0, MAX_BRACES)
}

/// Reads a text that is one literal.
///
/// # Errors
///
/// `NotAValue` exactly where the text is none, with the place of its first offence. `Memory`.
pub fn read_literal(alloc: Global, text: &str) -> Result<Literal, ReadError>
    ensures reads { IfOk result (λ literal. Reads text.now (literal_of literal)) }
    ensures offence { IfErr result (λ error. (error ≡ ReadError.Memory) ⊎ ((place : ℕ) × (error ≡ ReadError.NotAValue place) × IsFirstOffence LiteralTokens text.now place)) }
{
    let cutting = cut(alloc, text)?;
    if let Some(place) = cutting.flaw {
        return Err(ReadError::NotAValue(place));
    }
    whole_literal(alloc, cutting.pieces.as_slice(), text.len())
}

/// Reads the literal that the pieces of a text of `size` bytes are.
fn whole_literal(alloc: Global, pieces: &[Piece<'_>], size: usize) -> Result<Literal, ReadError>
    ensures reads { IfOk result (λ literal. SpellsLiteral (tokens_of_pieces pieces.now) (literal_of literal)) }
    ensures wrong { IfErr result (λ error. (error ≡ ReadError.Memory) ⊎ ((place : ℕ) × (error ≡ ReadError.NotAValue place)
        × (IsFirstWrong LiteralTokens (pieces_of pieces.now) place ⊎ EndsEarly LiteralTokens (pieces_of pieces.now) size place))) }
{
    match literal_at(alloc, pieces) {
        Ok((literal, len)) => {
            if len < pieces.len() {
                return Err(ReadError::NotAValue(pieces[len].place));
            }
            Ok(literal)
        }
        Err(PartError::Stuck(count)) => {
            if count < pieces.len() {
                return Err(ReadError::NotAValue(pieces[count].place));
            }
            Err(ReadError::NotAValue(size))
        }
        Err(PartError::Memory) => Err(ReadError::Memory),
    }
}

/// Reads the literal at a place, with braces at most so deep, and tells where it ends.
#[cycle(literal)]
fn literal_from(
    alloc: Global,
    pieces: &[Piece<'_>],
    at: usize,
    deep: usize,
) -> Result<(Literal, usize), PartError>
    requires { at ≤ length pieces.now }
    ensures reads { IfOk result (λ read. ReadsLiteral (tokens_of_pieces pieces.now) at deep (literal_of read.0) read.1) }
    ensures stops { IfErr result (StopsAt (LiteralIn deep) (tokens_of_pieces pieces.now) at) }
{
    if !is_sign_at(pieces, at, Sign::OpenBrace) {
        return plain_from(alloc, pieces, at);
    }
    if deep == 0 {
        return Err(PartError::Stuck(at));
    }
    let (rows, end) = rows_from(alloc, pieces, at + 1, deep - 1)?;
    Ok((Literal::View(rows), end))
}

/// Reads the literal at a place that is no view, and tells where it ends.
fn plain_from(alloc: Global, pieces: &[Piece<'_>], at: usize) -> Result<(Literal, usize), PartError>
    requires within { at ≤ length pieces.now }
    requires no_brace { Stands (tokens_of_pieces pieces.now) at (plain_sign 123) → ⊥ }
    ensures reads { (deep : ℕ) → IfOk result (λ read. ReadsLiteral (tokens_of_pieces pieces.now) at deep (literal_of read.0) read.1) }
    ensures stops { (deep : ℕ) → IfErr result (StopsAt (LiteralIn deep) (tokens_of_pieces pieces.now) at) }
{
    match plain_literal(alloc, pieces, at)? {
        Some(literal) => Ok((literal, at + 1)),
        None => Err(PartError::Stuck(at)),
    }
}

/// The literal that is the token at a place.
fn plain_literal(alloc: Global, pieces: &[Piece<'_>], at: usize) -> Result<Option<Literal>, Memory>
    ensures { IfOk result (FindsPlain (tokens_of_pieces pieces.now) at) }
{
    let Some(token) = token_of(pieces, at) else {
        return Ok(None);
    };
    match token {
        Token::Number(number) => Ok(Some(Literal::Number(*number))),
        Token::Text(written) => text_literal(alloc, written),
        Token::Bytes(written) => Ok(Some(Literal::Bytes(bytes_of(alloc, written.as_bytes())?))),
        _ => Ok(None),
    }
}

/// The literal of a text that is written so in quotes, unless it holds what no text may.
fn text_literal(alloc: Global, written: &str) -> Result<Option<Literal>, Memory>
    ensures { IfOk result (IsTextLiteral (characters_of written.now)) }
{
    let content = characters(alloc, written.as_bytes())?;
    let Ok(text) = String::from_utf8(content.into_vec()) else {
        return Ok(None);
    };
    if !is_text(text.as_str()) {
        return Ok(None);
    }
    Ok(Some(Literal::Text(Characters::from(text))))
}

/// Reads rows up to the brace that closes them.
#[cycle(literal)]
fn rows_from(
    alloc: Global,
    pieces: &[Piece<'_>],
    at: usize,
    deep: usize,
) -> Result<(LiteralRows, usize), PartError>
    requires { at ≤ length pieces.now }
    ensures reads { IfOk result (λ read. ReadsRows (tokens_of_pieces pieces.now) at deep read.0 read.1) }
    ensures stops { IfErr result (StopsAt (RowsIn deep) (tokens_of_pieces pieces.now) at) }
{
    if is_sign_at(pieces, at, Sign::CloseBrace) {
        return Ok((LiteralRows::new(alloc), at + 1));
    }
    some_rows_from(alloc, pieces, at, deep)
}

/// Reads at least one row, and further ones behind commas, up to the brace that closes them.
#[cycle(literal)]
fn some_rows_from(
    alloc: Global,
    pieces: &[Piece<'_>],
    start: usize,
    deep: usize,
) -> Result<(LiteralRows, usize), PartError>
    requires { start ≤ length pieces.now }
    ensures reads { IfOk result (λ read. ReadsRows (tokens_of_pieces pieces.now) start deep read.0 read.1) }
    ensures stops { IfErr result (StopsAt (SomeRowsIn deep) (tokens_of_pieces pieces.now) start) }
{
    let mut rows = LiteralRows::new(alloc);
    let mut at = start;
    'rows: loop {
        let (row, end) = row_from(alloc, pieces, at, deep)?;
        rows.push(row)?;
        if is_sign_at(pieces, end, Sign::CloseBrace) {
            return Ok((rows, end + 1));
        }
        if !is_sign_at(pieces, end, Sign::Comma) {
            return Err(PartError::Stuck(end));
        }
        at = end + 1;
    }
}

/// Reads the row at a place.
#[cycle(literal)]
fn row_from(
    alloc: Global,
    pieces: &[Piece<'_>],
    at: usize,
    deep: usize,
) -> Result<(Literals, usize), PartError>
    requires { at ≤ length pieces.now }
    ensures reads { IfOk result (λ read. ReadsRow (tokens_of_pieces pieces.now) at deep read.0 read.1) }
    ensures stops { IfErr result (StopsAt (RowIn deep) (tokens_of_pieces pieces.now) at) }
{
    if !is_sign_at(pieces, at, Sign::OpenParenthesis) {
        return Err(PartError::Stuck(at));
    }
    values_from(alloc, pieces, at + 1, deep)
}

/// Reads at least one value, and further ones behind commas, up to the parenthesis that closes them.
#[cycle(literal)]
fn values_from(
    alloc: Global,
    pieces: &[Piece<'_>],
    start: usize,
    deep: usize,
) -> Result<(Literals, usize), PartError>
    requires { start ≤ length pieces.now }
    ensures reads { IfOk result (λ read. ReadsValues (tokens_of_pieces pieces.now) start deep read.0 read.1) }
    ensures stops { IfErr result (StopsAt (ValuesIn deep) (tokens_of_pieces pieces.now) start) }
{
    let mut row = Literals::new(alloc);
    let mut at = start;
    'values: loop {
        let (literal, end) = literal_from(alloc, pieces, at, deep)?;
        row.push(literal)?;
        if is_sign_at(pieces, end, Sign::CloseParenthesis) {
            return Ok((row, end + 1));
        }
        if !is_sign_at(pieces, end, Sign::Comma) {
            return Err(PartError::Stuck(end));
        }
        at = end + 1;
    }
}
