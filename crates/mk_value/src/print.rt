//! The texts of values and rows.

ghost use Rattle.std.specs.Prelude.{◌≡◌, ◌≤◌, ◌<◌, ◌+◌, ◌++◌, ◌∷◌, [], length, map, drop, slice_index_or, IsOk, OnOk, OnErr};
ghost use Rattle.std.specs.List.{flat_map};
ghost use Rattle.std.specs.Char.{encode_utf8};
ghost use Rattle.std.specs.Fmt.{signed_decimal};
ghost use Rattle.std.specs.Str.{IsUtf8};
ghost use Rattle.mk_value.specs.Appending.{Writes};
ghost use Rattle.mk_value.specs.Data.{cell};
ghost use Rattle.mk_value.specs.Literals.{joined_rows_text, more_rows_text, more_values_text, row_text, rows_text, value_text, values_text};
ghost use Rattle.mk_value.specs.Tokens.{escaped, hex_digit as digit_of, hex_pair, hex_quoted, quoted};
ghost use Rattle.mk_value.specs.Values.{datum_of};

use crate::{Lent, Memory, Row, Rows, TableRead, Text, Value};

/// Appends the text of a value: the one literal without spaces that spells it.
pub fn print_value(value: &Value, out: &mut Text) -> Result<(), Memory>
    ensures ok { OnOk result (out.new.bytes ≡ out.old.bytes ++ value_text (datum_of value.now)) }
    ensures err { OnErr result (out.new.bytes ≡ out.old.bytes) }
    ensures roomy { length (value_text (datum_of value.now)) ≤ out.old.spare → IsOk result }
    ensures spare { out.old.spare ≤ out.new.spare + length (value_text (datum_of value.now)) }
{
    let before = out.len();
    let appended = append_value(value, out);
    if appended.is_err() {
        out.truncate(before);
    }
    appended
}

/// Appends the text of a row: its values in parentheses, all of them.
pub fn print_row(row: &Row, out: &mut Text) -> Result<(), Memory>
    ensures ok { OnOk result (out.new.bytes ≡ out.old.bytes ++ row_text row.now) }
    ensures err { OnErr result (out.new.bytes ≡ out.old.bytes) }
    ensures roomy { length (row_text row.now) ≤ out.old.spare → IsOk result }
    ensures spare { out.old.spare ≤ out.new.spare + length (row_text row.now) }
{
    let before = out.len();
    let appended = append_row(row, out);
    if appended.is_err() {
        out.truncate(before);
    }
    appended
}

/// Appends the text of a row of a table. A number, a text or a byte string is read where it stands; a view is copied, and its copy let go
/// before the next value.
///
/// # Errors
///
/// `Memory`, and a front of the row's text may have been appended.
pub fn print_row_of<T: TableRead>(table: &T, row: usize, out: &mut Text) -> Result<(), Memory>
    requires { row < length (T.rows table.now) }
    ensures { OnOk result (out.new.bytes ≡ out.old.bytes ++ row_text (slice_index_or (T.rows table.now) row [])) }
{
    // A row has a value for each property, and there is one at least.
    let _size = table.size();
    let columns = table.schema().len();
    append_str("(", out)?;
    append_cell(table, row, 0, out)?;
    append_more_cells(table, row, columns, out)?;
    append_str(")", out)
}

/// Appends the texts of the values behind a row's first, each behind a comma.
fn append_more_cells<T: TableRead>(
    table: &T,
    row: usize,
    columns: usize,
    out: &mut Text,
) -> Result<(), Memory>
    requires row_in { row < length (T.rows table.now) }
    requires columns { columns ≡ length (T.schema table.now) }
    ensures { OnOk result (out.new.bytes ≡ out.old.bytes ++ more_values_text (drop 1 (slice_index_or (T.rows table.now) row []))) }
{
    // A row has as many values as there are columns.
    let _size = table.size();
    for col in 1..columns {
        append_str(",", out)?;
        append_cell(table, row, col, out)?;
    }
    Ok(())
}

/// Appends the text of one value of a table.
fn append_cell<T: TableRead>(
    table: &T,
    row: usize,
    col: usize,
    out: &mut Text,
) -> Result<(), Memory>
    requires row_in { row < length (T.rows table.now) }
    requires col_in { col < length (T.schema table.now) }
    ensures { OnOk result (out.new.bytes ≡ out.old.bytes ++ value_text (cell (T.rows table.now) row col)) }
{
    // Each value of a table is of its property.
    let _size = table.size();
    match table.lend(row, col) {
        Lent::I(number) => append_number(i64::from(number), out),
        Lent::L(number) => append_number(number, out),
        Lent::S(text) => append_lent_text(text, out),
        Lent::B(bytes) => append_bytes(bytes, out),
        Lent::V(_) => print_value(&table.get(row, col)?, out),
    }
}

/// Appends in quotes the text that these bytes are.
fn append_lent_text(bytes: &[u8], out: &mut Text) -> Result<(), Memory>
    requires { IsUtf8 bytes.now }
    ensures { Writes result out.old (quoted bytes.now) out.new }
{
    match str::from_utf8(bytes) {
        Ok(text) => append_text(text, out),
        Err(_) => unreachable!(),
    }
}

/// Appends a piece that is at hand.
fn append_str(piece: &str, out: &mut Text) -> Result<(), Memory>
    ensures { Writes result out.old piece.now out.new }
{
    out.push_str(piece)
}

/// Appends a text in quotes, with its escapes.
fn append_text(text: &str, out: &mut Text) -> Result<(), Memory>
    ensures { Writes result out.old (quoted text.now) out.new }
{
    append_str("\"", out)?;
    append_characters(text, out)?;
    append_str("\"", out)
}

/// Appends the characters of a text as they stand inside quotes.
fn append_characters(text: &str, out: &mut Text) -> Result<(), Memory>
    ensures { Writes result out.old (flat_map escaped text.now) out.new }
{
    for character in text.chars() {
        append_character(character, out)?;
    }
    Ok(())
}

/// Appends a character as it stands inside quotes.
fn append_character(character: char, out: &mut Text) -> Result<(), Memory>
    ensures { Writes result out.old (flat_map escaped (encode_utf8 character)) out.new }
{
    match character {
        '"' => append_str("\\\"", out),
        '\\' => append_str("\\\\", out),
        '\n' => append_str("\\n", out),
        _ => out.push(character),
    }
}

/// Appends a byte string as pairs of digits of base 16 behind `x`, in quotes.
fn append_bytes(bytes: &[u8], out: &mut Text) -> Result<(), Memory>
    ensures { Writes result out.old (hex_quoted bytes.now) out.new }
{
    append_str("x\"", out)?;
    append_pairs(bytes, out)?;
    append_str("\"", out)
}

/// Appends the bytes as pairs of digits of base 16.
fn append_pairs(bytes: &[u8], out: &mut Text) -> Result<(), Memory>
    ensures { Writes result out.old (flat_map hex_pair bytes.now) out.new }
{
    for byte in bytes {
        append_pair(*byte, out)?;
    }
    Ok(())
}

/// Appends a byte as two digits of base 16.
fn append_pair(byte: u8, out: &mut Text) -> Result<(), Memory>
    ensures { Writes result out.old (hex_pair byte) out.new }
{
    out.push(hex_digit(byte / 16))?;
    out.push(hex_digit(byte % 16))
}

/// A digit of base 16, in lower case.
fn hex_digit(digit: u8) -> char
    requires { digit < 16 }
    ensures { encode_utf8 result ≡ digit_of digit ∷ [] }
{
    let byte = if digit < 10 {
        b'0' + digit
    } else {
        b'a' + (digit - 10)
    };
    char::from(byte)
}

#[cycle(append_value)]
fn append_value(value: &Value, out: &mut Text) -> Result<(), Memory>
    ensures { Writes result out.old (value_text (datum_of value.now)) out.new }
{
    match value {
        Value::I(number) => append_number(i64::from(*number), out),
        Value::L(number) => append_number(*number, out),
        Value::S(text) => append_text(text.as_str(), out),
        Value::B(bytes) => append_bytes(bytes.as_slice(), out),
        Value::V(rows) => append_rows(rows, out),
    }
}

/// Appends a number in decimal.
fn append_number(number: i64, out: &mut Text) -> Result<(), Memory>
    ensures { Writes result out.old (signed_decimal number) out.new }
{
    out.push_integer(number)
}

#[cycle(append_value)]
fn append_row(row: &Row, out: &mut Text) -> Result<(), Memory>
    ensures { Writes result out.old (row_text row.now) out.new }
{
    append_str("(", out)?;
    append_values(row.as_slice(), out)?;
    append_str(")", out)
}

/// Appends values joined by commas.
#[cycle(append_value)]
fn append_values(values: &[Value], out: &mut Text) -> Result<(), Memory>
    ensures { Writes result out.old (values_text (map datum_of values.now)) out.new }
{
    let Some((first, rest)) = values.split_first() else {
        return Ok(());
    };
    append_value(first, out)?;
    append_more_values(rest, out)
}

/// Appends the values behind a row's first, each behind a comma.
#[cycle(append_value)]
fn append_more_values(values: &[Value], out: &mut Text) -> Result<(), Memory>
    ensures { Writes result out.old (more_values_text (map datum_of values.now)) out.new }
{
    for value in values {
        append_str(",", out)?;
        append_value(value, out)?;
    }
    Ok(())
}

#[cycle(append_value)]
fn append_rows(rows: &Rows, out: &mut Text) -> Result<(), Memory>
    ensures { Writes result out.old (rows_text rows.now) out.new }
{
    append_str("{", out)?;
    append_joined_rows(rows.as_slice(), out)?;
    append_str("}", out)
}

/// Appends rows joined by commas.
#[cycle(append_value)]
fn append_joined_rows(rows: &[Row], out: &mut Text) -> Result<(), Memory>
    ensures { Writes result out.old (joined_rows_text rows.now) out.new }
{
    let Some((first, rest)) = rows.split_first() else {
        return Ok(());
    };
    append_row(first, out)?;
    append_more_rows(rest, out)
}

/// Appends the rows behind a view's first, each behind a comma.
#[cycle(append_value)]
fn append_more_rows(rows: &[Row], out: &mut Text) -> Result<(), Memory>
    ensures { Writes result out.old (more_rows_text rows.now) out.new }
{
    for row in rows {
        append_str(",", out)?;
        append_row(row, out)?;
    }
    Ok(())
}
