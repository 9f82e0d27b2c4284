//! Words and numbers: the tokens that are runs of letters, digits and `_`.

ghost use Rattle.std.specs.Prelude.{◌≡◌, ◌+◌, ◌≤◌, ◌<◌, ℕ, ℤ, length, drop, take, IfSome, IfNone, FitsSigned};
ghost use Rattle.std.specs.Fmt.{signed_decimal};
ghost use Rattle.std.specs.Int.{w64};
ghost use Rattle.std.specs.List.{prefix_len};
ghost use Rattle.mk_value.specs.Names.{is_name_byte as name_byte};
ghost use Rattle.tokens.specs.Finding.{Finds, form_at};
ghost use Rattle.tokens.specs.declared.form.Form.TheVariants.{Negative as negative_form, Run as run_form};

use crate::Token;
use crate::form::is_name_byte;
use mk_value::Name;

/// The word or the number that is the whole run at the front of the bytes, and its length.
pub(crate) fn run_token(bytes: &[u8]) -> Option<(Token<'_>, usize)>
    requires { form_at bytes.now ≡ run_form }
    ensures { Finds bytes.now result }
{
    let len = run_len(bytes);
    let Ok(run) = str::from_utf8(&bytes[..len]) else {
        return None;
    };
    if Name::is_name(run) {
        return Some((Token::Word(run), len));
    }
    let number = number_of(run)?;
    Some((Token::Number(number), len))
}

/// The number that is `-` and the whole run behind it at the front of the bytes, and its length.
pub(crate) fn negative_token(bytes: &[u8]) -> Option<(Token<'_>, usize)>
    requires { form_at bytes.now ≡ negative_form }
    ensures { Finds bytes.now result }
{
    let len = 1 + run_len(&bytes[1..]);
    let Ok(run) = str::from_utf8(&bytes[..len]) else {
        return None;
    };
    let number = number_of(run)?;
    Some((Token::Number(number), len))
}

/// How many letters, digits and `_` stand at the front of the bytes.
fn run_len(bytes: &[u8]) -> usize
    ensures run { result ≡ prefix_len name_byte bytes.now }
    ensures within { result ≤ length bytes.now }
{
    let mut len = 0;
    while len < bytes.len() && is_name_byte(bytes[len]) {
        len += 1;
    }
    len
}

/// The number that a text spells. Each number has one spelling: what is read is written again and compared.
fn number_of(text: &str) -> Option<i64>
    ensures some { IfSome result (λ number. FitsSigned w64 number × (text.now ≡ signed_decimal number)) }
    ensures none { IfNone result ((number : ℤ) → FitsSigned w64 number → text.now ≡ signed_decimal number → ⊥) }
{
    let Ok(number) = text.parse::<i64>() else {
        return None;
    };
    let mut digits = itoa::Buffer::new();
    if digits.format(number) == text {
        Some(number)
    } else {
        None
    }
}
