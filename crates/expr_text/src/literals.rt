//! The texts of literals.

ghost use Rattle.std.specs.Prelude.{◌≡◌, ◌<◌, ◌++◌, ◌∷◌, [], map};
ghost use Rattle.std.specs.Char.{encode_utf8};
ghost use Rattle.std.specs.Fmt.{signed_decimal};
ghost use Rattle.std.specs.List.{flat_map};
ghost use Rattle.mk_value.specs.Appending.{Writes};
ghost use Rattle.mk_value.specs.LiteralValues.{literal_of};
ghost use Rattle.mk_value.specs.Literals.{joined_rows_text, more_rows_text, more_values_text, row_text, rows_text, value_text, values_text};
ghost use Rattle.mk_value.specs.Tokens.{escaped, hex_digit as digit_of, hex_pair, hex_quoted, quoted};

use mk_value::{Literal, LiteralRows, Literals, Memory, Text};

/// Appends a piece that is at hand.
pub(crate) fn append_str(piece: &str, out: &mut Text) -> Result<(), Memory>
    ensures { Writes result out.old piece.now out.new }
{
    out.push_str(piece)
}

/// Appends a number in decimal.
pub(crate) fn append_number(number: i64, out: &mut Text) -> Result<(), Memory>
    ensures { Writes result out.old (signed_decimal number) out.new }
{
    out.push_integer(number)
}

/// Appends a text in quotes, with its escapes.
fn append_text(text: &str, out: &mut Text) -> Result<(), Memory>
    ensures { Writes result out.old (quoted text.now) out.new }
{
    append_str("\"", out)?;
    append_characters(text, out)?;
    append_str("\"", out)
}

/// Appends the characters of a text as they stand inside quotes.
fn append_characters(text: &str, out: &mut Text) -> Result<(), Memory>
    ensures { Writes result out.old (flat_map escaped text.now) out.new }
{
    for character in text.chars() {
        append_character(character, out)?;
    }
    Ok(())
}

/// Appends a character as it stands inside quotes.
fn append_character(character: char, out: &mut Text) -> Result<(), Memory>
    ensures { Writes result out.old (flat_map escaped (encode_utf8 character)) out.new }
{
    match character {
        '"' => append_str("\\\"", out),
        '\\' => append_str("\\\\", out),
        '\n' => append_str("\\n", out),
        _ => out.push(character),
    }
}

/// Appends a byte string as pairs of digits of base 16 behind `x`, in quotes.
fn append_bytes(bytes: &[u8], out: &mut Text) -> Result<(), Memory>
    ensures { Writes result out.old (hex_quoted bytes.now) out.new }
{
    append_str("x\"", out)?;
    append_pairs(bytes, out)?;
    append_str("\"", out)
}

/// Appends the bytes as pairs of digits of base 16.
fn append_pairs(bytes: &[u8], out: &mut Text) -> Result<(), Memory>
    ensures { Writes result out.old (flat_map hex_pair bytes.now) out.new }
{
    for byte in bytes {
        append_pair(*byte, out)?;
    }
    Ok(())
}

/// Appends a byte as two digits of base 16.
fn append_pair(byte: u8, out: &mut Text) -> Result<(), Memory>
    ensures { Writes result out.old (hex_pair byte) out.new }
{
    out.push(hex_digit(byte / 16))?;
    out.push(hex_digit(byte % 16))
}

/// A digit of base 16, in lower case.
fn hex_digit(digit: u8) -> char
    requires { digit < 16 }
    ensures { encode_utf8 result ≡ digit_of digit ∷ [] }
{
    let byte = if digit < 10 {
        b'0' + digit
    } else {
        b'a' + (digit - 10)
    };
    char::from(byte)
}

/// Appends the text of a literal.
#[cycle(append_literal)]
pub(crate) fn append_literal(literal: &Literal, out: &mut Text) -> Result<(), Memory>
    ensures { Writes result out.old (value_text (literal_of literal.now)) out.new }
{
    match literal {
        Literal::Number(number) => append_number(*number, out),
        Literal::Text(text) => append_text(text.as_str(), out),
        Literal::Bytes(bytes) => append_bytes(bytes.as_slice(), out),
        Literal::View(rows) => append_rows(rows, out),
    }
}

#[cycle(append_literal)]
fn append_row(row: &Literals, out: &mut Text) -> Result<(), Memory>
    ensures { Writes result out.old (row_text row.now) out.new }
{
    append_str("(", out)?;
    append_values(row.as_slice(), out)?;
    append_str(")", out)
}

/// Appends literals joined by commas.
#[cycle(append_literal)]
fn append_values(values: &[Literal], out: &mut Text) -> Result<(), Memory>
    ensures { Writes result out.old (values_text (map literal_of values.now)) out.new }
{
    let Some((first, rest)) = values.split_first() else {
        return Ok(());
    };
    append_literal(first, out)?;
    append_more_values(rest, out)
}

/// Appends the literals behind a row's first, each behind a comma.
#[cycle(append_literal)]
fn append_more_values(values: &[Literal], out: &mut Text) -> Result<(), Memory>
    ensures { Writes result out.old (more_values_text (map literal_of values.now)) out.new }
{
    for value in values {
        append_str(",", out)?;
        append_literal(value, out)?;
    }
    Ok(())
}

#[cycle(append_literal)]
fn append_rows(rows: &LiteralRows, out: &mut Text) -> Result<(), Memory>
    ensures { Writes result out.old (rows_text rows.now) out.new }
{
    append_str("{", out)?;
    append_joined_rows(rows.as_slice(), out)?;
    append_str("}", out)
}

/// Appends rows joined by commas.
#[cycle(append_literal)]
fn append_joined_rows(rows: &[Literals], out: &mut Text) -> Result<(), Memory>
    ensures { Writes result out.old (joined_rows_text rows.now) out.new }
{
    let Some((first, rest)) = rows.split_first() else {
        return Ok(());
    };
    append_row(first, out)?;
    append_more_rows(rest, out)
}

/// Appends the rows behind a view's first, each behind a comma.
#[cycle(append_literal)]
fn append_more_rows(rows: &[Literals], out: &mut Text) -> Result<(), Memory>
    ensures { Writes result out.old (more_rows_text rows.now) out.new }
{
    for row in rows {
        append_str(",", out)?;
        append_row(row, out)?;
    }
    Ok(())
}
