//! Texts and byte strings: the tokens in quotes.

ghost use Rattle.std.specs.Prelude.{◌≡◌, ◌+◌, ◌≤◌, ◌<◌, ◌∷◌, List, [], ℕ, length, drop, slice_index, IfOk, option_map, IfSome, IfNone};
ghost use Rattle.mk_value.specs.Tokens.{escaped, hex_digit as digit_of, hex_pair};
ghost use Rattle.tokens.specs.Finding.{Finds, FindsByte, FindsQuoted, IsByte, IsTextByte, form_at};
ghost use Rattle.tokens.specs.declared.form.Form.TheVariants.{Bytes as bytes_form, Text as text_form};

use crate::Token;
use crate::form::begins_with_quote;

/// The text at the front of the bytes, and the length of what spells it.
pub(crate) fn text_token(bytes: &[u8]) -> Option<(Token<'_>, usize)>
    requires { form_at bytes.now ≡ text_form }
    ensures { Finds bytes.now result }
{
    let end = characters_end(&bytes[1..])?;
    match str::from_utf8(&bytes[1..end]) {
        Ok(written) => Some((Token::Text(written), end + 1)),
        Err(_) => None,
    }
}

/// The byte string at the front of the bytes, and the length of what spells it.
pub(crate) fn bytes_token(bytes: &[u8]) -> Option<(Token<'_>, usize)>
    requires { form_at bytes.now ≡ bytes_form }
    ensures { Finds bytes.now result }
{
    let end = pairs_end(&bytes[2..])?;
    match str::from_utf8(&bytes[2..end + 1]) {
        Ok(written) => Some((Token::Bytes(written), end + 2)),
        Err(_) => None,
    }
}

/// Where the quote behind characters ends.
fn characters_end(bytes: &[u8]) -> Option<usize>
    ensures { FindsQuoted escaped IsTextByte bytes.now result }
{
    let mut at = 0;
    while let Some((_, len)) = character_at(&bytes[at..]) {
        at += len;
    }
    if begins_with_quote(&bytes[at..]) {
        Some(at + 1)
    } else {
        None
    }
}

/// The byte of a text that is written at the front of the bytes, and the length of what stands for it.
fn character_at(bytes: &[u8]) -> Option<(u8, usize)>
    ensures { FindsByte escaped IsTextByte bytes.now result }
{
    let (first, rest) = bytes.split_first()?;
    match *first {
        b'\\' => Some((escape_at(rest)?, 2)),
        b'"' | b'\n' | 0 => None,
        byte => Some((byte, 1)),
    }
}

/// What a backslash and the first of the bytes stand for.
fn escape_at(bytes: &[u8]) -> Option<u8>
    ensures some { IfSome result (λ byte. (0 < length bytes.now) × (escaped byte ≡ 92 ∷ slice_index bytes.now 0 ∷ []) × IsTextByte byte) }
    ensures none { IfNone result ((byte next : ℕ) → (rest : List ℕ) → bytes.now ≡ next ∷ rest → escaped byte ≡ 92 ∷ next ∷ [] → ⊥) }
{
    match bytes.first()? {
        b'"' => Some(b'"'),
        b'\\' => Some(b'\\'),
        b'n' => Some(b'\n'),
        _ => None,
    }
}

/// Where the quote behind pairs of digits of base 16 ends.
fn pairs_end(bytes: &[u8]) -> Option<usize>
    ensures { FindsQuoted hex_pair IsByte bytes.now result }
{
    let mut at = 0;
    while let Some((_, len)) = pair_at(&bytes[at..]) {
        at += len;
    }
    if begins_with_quote(&bytes[at..]) {
        Some(at + 1)
    } else {
        None
    }
}

/// The byte whose two digits stand at the front of the bytes, and their number.
fn pair_at(bytes: &[u8]) -> Option<(u8, usize)>
    ensures { FindsByte hex_pair IsByte bytes.now result }
{
    if bytes.len() < 2 {
        return None;
    }
    let high = digit_value(bytes[0])?;
    let low = digit_value(bytes[1])?;
    Some((16 * high + low, 2))
}

/// What a digit of base 16 in lower case stands for.
fn digit_value(byte: u8) -> Option<u8>
    ensures some { IfSome result (λ value. (value < 16) × (digit_of value ≡ byte)) }
    ensures none { IfNone result ((value : ℕ) → value < 16 → digit_of value ≡ byte → ⊥) }
{
    match byte {
        b'0'..=b'9' => Some(byte - b'0'),
        b'a'..=b'f' => Some(byte - b'a' + 10),
        _ => None,
    }
}
