ghost use Rattle.std.specs.Prelude.{◌≡◌, ◌∷◌, ◌<◌, ◌^◌, [], ℕ, List, pos, IfSome, IsNone};
ghost use Rattle.mk_value.specs.Names.{IsName};
ghost use Rattle.mk_value.specs.Tokens.{number as plain_number, word as plain_word};
ghost use Rattle.tokens.specs.Meanings.{token_of};

use mk_value::Name;

/// A sign.
#[derive(Clone, Copy, Debug, PartialEq, Eq)]
pub enum Sign {
    OpenParenthesis,
    CloseParenthesis,
    OpenBrace,
    CloseBrace,
    Comma,
    Slash,
    Colon,
    Equals,
    Minus,
}

/// A token. It lends from the text that it was cut from.
#[derive(Debug, Drop)]
pub enum Token<'a> {
    /// A name: 1 to 31 ASCII letters, digits or `_`, the first no digit.
    Word(&'a str),
    /// A number of 64 bits.
    Number(i64),
    /// What stands in quotes, as it is written: its escapes are read where a literal is made of it.
    Text(&'a str),
    /// The pairs of digits of a byte string, as they are written.
    Bytes(&'a str),
    Symbol(Sign),
}

/// A token and the place of its first byte in its text. It takes 32 bytes.
#[derive(Debug, Drop)]
pub struct Piece<'a> {
    pub place: usize,
    pub token: Token<'a>,
}

/// The name that a token is.
pub fn name_of(token: &Token<'_>) -> Option<Name>
    ensures some { IfSome result (λ name. (token_of token.now ≡ plain_word name) × IsName name) }
    ensures none { IsNone result → (name : List ℕ) → IsName name → token_of token.now ≡ plain_word name → ⊥ }
{
    let Token::Word(word) = token else {
        return None;
    };
    Name::from_bytes(word.as_bytes())
}

/// The number without a sign that a token is. It has 63 bits.
pub fn count_of(token: &Token<'_>) -> Option<u64>
    ensures some { IfSome result (λ n. (token_of token.now ≡ plain_number (pos n)) × (n < 2 ^ 63)) }
    ensures none { IsNone result → (n : ℕ) → token_of token.now ≡ plain_number (pos n) → ⊥ }
{
    let Token::Number(number) = token else {
        return None;
    };
    u64::try_from(*number).ok()
}
