//! What stands at a place of pieces.

ghost use Rattle.std.specs.Prelude.{◌≡◌, ◌↔◌, ◌<◌, ◌≤◌, ◌^◌, ℕ, ℤ, pos, List, length, IfSome, IfNone, IsTrue};
ghost use Rattle.mk_value.specs.Names.{IsName};
ghost use Rattle.mk_value.specs.Tokens.{Token as plain_token, number as plain_number, sign as plain_sign, word as plain_word};
ghost use Rattle.tokens.specs.Meanings.{byte_of, token_of, tokens_of_pieces};
ghost use Rattle.tokens.specs.Standing.{Stands};

use crate::{Piece, Sign, Token, count_of, name_of};
use mk_value::Name;

/// The token at a place.
pub(crate) fn token_of<'p, 'a>(pieces: &'p [Piece<'a>], at: usize) -> Option<&'p Token<'a>>
    ensures some { IfSome result (λ token. Stands (tokens_of_pieces pieces.now) at (token_of token.now)) }
    ensures within { IfSome result (λ token. at < length pieces.now) }
    ensures none { IfNone result (length pieces.now ≤ at) }
{
    if at < pieces.len() {
        Some(&pieces[at].token)
    } else {
        None
    }
}

/// Whether the sign stands at a place.
pub(crate) fn is_sign_at(pieces: &[Piece<'_>], at: usize, sign: Sign) -> bool
    ensures stands { IsTrue result ↔ Stands (tokens_of_pieces pieces.now) at (plain_sign (byte_of sign)) }
    ensures within { IsTrue result → at < length pieces.now }
{
    match token_of(pieces, at) {
        Some(Token::Symbol(other)) => *other == sign,
        _ => false,
    }
}

/// The name at a place, if one stands there.
pub(crate) fn word_at(pieces: &[Piece<'_>], at: usize) -> Option<Name>
    ensures some { IfSome result (λ name. Stands (tokens_of_pieces pieces.now) at (plain_word name)) }
    ensures name { IfSome result IsName }
    ensures within { IfSome result (λ name. at < length pieces.now) }
    ensures none { IfNone result ((name : List ℕ) → IsName name → Stands (tokens_of_pieces pieces.now) at (plain_word name) → ⊥) }
{
    name_of(token_of(pieces, at)?)
}

/// The number without a sign at a place, if one stands there.
pub(crate) fn row_at(pieces: &[Piece<'_>], at: usize) -> Option<u64>
    ensures some { IfSome result (λ row. Stands (tokens_of_pieces pieces.now) at (plain_number (pos row))) }
    ensures small { IfSome result (λ row. row < 2 ^ 63) }
    ensures within { IfSome result (λ row. at < length pieces.now) }
    ensures none { IfNone result ((row : ℕ) → Stands (tokens_of_pieces pieces.now) at (plain_number (pos row)) → ⊥) }
{
    count_of(token_of(pieces, at)?)
}
