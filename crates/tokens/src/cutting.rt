//! Cutting a text into tokens.
ghost use Rattle.std.specs.Prelude.{◌≡◌, ◌≤◌, ◌+◌, ℕ, List, Option as Maybe, length, drop, Contains, IfOk, IfErr, IfSome, IfNone, IsOk};
ghost use Rattle.std.specs.List.{prefix_len};
ghost use Rattle.tokens.specs.Cutting.{CutsUpTo, IsNoToken, Piece as plain_piece, inline_pieces, signs};
ghost use Rattle.tokens.specs.Finding.{Finds, FindsPiece, form_at, is_space};
ghost use Rattle.tokens.specs.Meanings.{byte_of, piece_of};
ghost use Rattle.tokens.specs.declared.form.Form.TheVariants.{Single as single_form};

use crate::form::{Form, form_of};
use crate::quoted::{bytes_token, text_token};
use crate::run::{negative_token, run_token};
use crate::{Piece, Pieces, Sign, Token};
use mk_value::Memory;
use std::alloc::Global;

/// The tokens of a text, up to its first piece that is no token.
#[derive(Drop)]
pub struct Cutting<'a> {
    pub pieces: Pieces<'a>,
    /// The place of the first piece that is no token; none where all are.
    pub flaw: Option<usize>,
}

/// Cuts a text into tokens, up to the first piece that is none. At most eight tokens take no memory.
///
/// # Errors
///
/// `Memory`.
pub fn cut<'a>(alloc: Global, text: &'a str) -> Result<Cutting<'a>, Memory>
    ensures cuts { IfOk result (λ cutting. CutsUpTo text.now cutting.pieces cutting.flaw) }
    ensures in_place { (pieces : List plain_piece) → (flaw : Maybe ℕ) → CutsUpTo text.now pieces flaw → length pieces ≤ inline_pieces → IsOk result }
{
    let bytes = text.as_bytes();
    let mut pieces = Pieces::new(alloc);
    let mut end = 0;
    'pieces: loop {
        match next_piece(bytes, end) {
            Ok(Some((piece, next))) => {
                pieces.push(piece)?;
                end = next;
            }
            Ok(None) => return Ok(Cutting { pieces, flaw: None }),
            Err(place) => {
                let flaw = Some(place);
                return Ok(Cutting { pieces, flaw });
            }
        }
    }
}

/// A law of cutting, for any text: it is cut into tokens up to some place, at which it ends or its first piece that is no token stands.
pub fn some_cutting(text: &str)
    ensures { (pieces : List plain_piece) × (flaw : Maybe ℕ) × CutsUpTo text.now pieces flaw }
{
    let bytes = text.as_bytes();
    let mut end = 0;
    'pieces: loop {
        match next_piece(bytes, end) {
            Ok(Some((_, next))) => end = next,
            Ok(None) => return,
            Err(_) => return,
        }
    }
}

/// The first piece of the bytes from a place on, and where it ends, unless spaces alone stand there.
///
/// # Errors
///
/// The place of the first piece, where it is no token.
fn next_piece(bytes: &[u8], from: usize) -> Result<Option<(Piece<'_>, usize)>, usize>
    requires { from ≤ length bytes.now }
    ensures found { IfOk result (FindsPiece from bytes.now) }
    ensures fails { IfErr result (IsNoToken from (drop from bytes.now)) }
{
    let at = from + space_len(&bytes[from..]);
    if at == bytes.len() {
        return Ok(None);
    }
    let Some((token, len)) = token_at(&bytes[at..]) else {
        return Err(at);
    };
    Ok(Some((Piece { place: at, token }, at + len)))
}

/// How many spaces stand at the front of the bytes.
fn space_len(bytes: &[u8]) -> usize
    ensures run { result ≡ prefix_len is_space bytes.now }
    ensures within { result ≤ length bytes.now }
{
    let mut len = 0;
    while len < bytes.len() && bytes[len] == b' ' {
        len += 1;
    }
    len
}

/// The token at the front of the bytes, and the length of its spelling.
fn token_at(bytes: &[u8]) -> Option<(Token<'_>, usize)>
    ensures { Finds bytes.now result }
{
    match form_of(bytes) {
        Form::Text => text_token(bytes),
        Form::Bytes => bytes_token(bytes),
        Form::Negative => negative_token(bytes),
        Form::Run => run_token(bytes),
        Form::Single => sign_token(bytes),
    }
}

/// The sign at the front of the bytes.
fn sign_token(bytes: &[u8]) -> Option<(Token<'_>, usize)>
    requires { form_at bytes.now ≡ single_form }
    ensures { Finds bytes.now result }
{
    let sign = sign_of(*bytes.first()?)?;
    Some((Token::Symbol(sign), 1))
}

/// The sign that a byte is.
fn sign_of(byte: u8) -> Option<Sign>
    ensures some { IfSome result (λ sign. byte_of sign ≡ byte) }
    ensures none { IfNone result (Contains signs byte → ⊥) }
{
    match byte {
        b'(' => Some(Sign::OpenParenthesis),
        b')' => Some(Sign::CloseParenthesis),
        b'{' => Some(Sign::OpenBrace),
        b'}' => Some(Sign::CloseBrace),
        b',' => Some(Sign::Comma),
        b'/' => Some(Sign::Slash),
        b':' => Some(Sign::Colon),
        b'=' => Some(Sign::Equals),
        b'-' => Some(Sign::Minus),
        _ => None,
    }
}
