//! The form of a token, told by its first two bytes.

ghost use Rattle.std.specs.Prelude.{◌≡◌, ◌==◌};
ghost use Rattle.std.specs.Char.{is_ascii_digit};
ghost use Rattle.mk_value.specs.Names.{is_name_byte as name_byte};
ghost use Rattle.tokens.specs.Cutting.{begins_with};
ghost use Rattle.tokens.specs.Finding.{form_at, is_quote};

/// The form that a token has.
#[derive(Clone, Copy, Debug, PartialEq, Eq)]
pub(crate) enum Form {
    /// A text in quotes.
    Text,
    /// A byte string: `x` and a quote.
    Bytes,
    /// A number below zero: `-` and a digit.
    Negative,
    /// A run of letters, digits and `_`: a word, or another number.
    Run,
    /// A single byte: a sign.
    Single,
}

/// The only form that a token at the front of the bytes may have.
pub(crate) fn form_of(bytes: &[u8]) -> Form
    ensures { result ≡ form_at bytes.now }
{
    let Some((first, rest)) = bytes.split_first() else {
        return Form::Single;
    };
    if *first == b'"' {
        Form::Text
    } else if *first == b'x' && begins_with_quote(rest) {
        Form::Bytes
    } else if *first == b'-' && begins_with_digit(rest) {
        Form::Negative
    } else if is_name_byte(*first) {
        Form::Run
    } else {
        Form::Single
    }
}

/// Whether a quote is the first of the bytes.
pub(crate) fn begins_with_quote(bytes: &[u8]) -> bool
    ensures { result ≡ begins_with is_quote bytes.now }
{
    match bytes.first() {
        Some(first) => *first == b'"',
        None => false,
    }
}

/// Whether a digit is the first of the bytes.
fn begins_with_digit(bytes: &[u8]) -> bool
    ensures { result ≡ begins_with is_ascii_digit bytes.now }
{
    match bytes.first() {
        Some(first) => first.is_ascii_digit(),
        None => false,
    }
}

/// Whether a byte may stand in a name.
pub(crate) fn is_name_byte(byte: u8) -> bool
    ensures { result ≡ name_byte byte }
{
    byte.is_ascii_alphanumeric() || byte == b'_'
}
