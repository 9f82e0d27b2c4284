ghost use Rattle.std.specs.Prelude.{◌≡◌, ◌≤◌, ◌+◌, ◌++◌, ◌<◌, ◌^◌, length, decimal};
ghost use Rattle.std.specs.Fmt.{signed_decimal};
ghost use Rattle.sample.specs.Edits.{IsOfRows, edit_line, edit_of, rows_after};

use mk_value::Text;

/// What a line of a sample edits.
#[derive(Clone, Copy, Debug, PartialEq, Eq)]
pub(crate) enum Edit {
    /// The quantity of a row is set.
    Set { row: u64, quantity: u64 },
    /// A row is removed.
    Remove { row: u64 },
    /// What was edited so far is committed.
    Commit,
    /// A row is added.
    Add { id: u64, name: u64, quantity: i64 },
}

/// What is taken off a drawn number for the quantity of a new row.
const OFFSET: i64 = 1_073_741_824;

/// The edit that a drawn number asks for, where the view has so many rows.
pub(crate) fn edit_of(drawn: u64, rows: u64) -> Edit
    requires { drawn < 2 ^ 31 }
    ensures value { result ≡ edit_of drawn rows }
    ensures there { IsOfRows result rows }
{
    let kind = drawn % 8;
    if kind == 5 && rows > 0 {
        Edit::Set {
            row: drawn % rows,
            quantity: drawn % 1000,
        }
    } else if kind == 6 && rows > 0 {
        Edit::Remove { row: drawn % rows }
    } else if kind == 7 {
        Edit::Commit
    } else {
        Edit::Add {
            id: drawn % 100_000,
            name: drawn % 977,
            quantity: drawn as i64 - OFFSET,
        }
    }
}

/// The number of rows after an edit.
pub(crate) fn rows_after(edit: Edit, rows: u64) -> u64
    requires { rows + 1 < 2 ^ 64 }
    ensures { result ≡ rows_after edit rows }
{
    match edit {
        Edit::Remove { .. } => rows.saturating_sub(1),
        Edit::Add { .. } => rows + 1,
        Edit::Set { .. } | Edit::Commit => rows,
    }
}

/// Writes the line of an edit.
pub(crate) fn write_edit(edit: Edit, line: &mut Text)
    requires { 80 ≤ line.old.spare }
    ensures bytes { line.new.bytes ≡ line.old.bytes ++ edit_line edit }
    ensures short { length line.new.bytes ≤ length line.old.bytes + 80 }
    ensures room { line.old.spare + length line.old.bytes ≤ line.new.spare + length line.new.bytes }
{
    match edit {
        Edit::Set { row, quantity } => write_set(row, quantity, line),
        Edit::Remove { row } => write_remove(row, line),
        Edit::Commit => append("commit", line),
        Edit::Add { id, name, quantity } => write_add(id, name, quantity, line),
    }
}

fn write_set(row: u64, quantity: u64, line: &mut Text)
    requires { 80 ≤ line.old.spare }
    ensures bytes { line.new.bytes ≡ line.old.bytes ++ edit_line (Edit.Set row quantity) }
    ensures short { length line.new.bytes ≤ length line.old.bytes + 80 }
    ensures room { line.old.spare + length line.old.bytes ≤ line.new.spare + length line.new.bytes }
{
    append("set item ", line);
    append_number(row, line);
    append(" qty ", line);
    append_number(quantity, line);
}

fn write_remove(row: u64, line: &mut Text)
    requires { 80 ≤ line.old.spare }
    ensures bytes { line.new.bytes ≡ line.old.bytes ++ edit_line (Edit.Remove row) }
    ensures short { length line.new.bytes ≤ length line.old.bytes + 80 }
    ensures room { line.old.spare + length line.old.bytes ≤ line.new.spare + length line.new.bytes }
{
    append("remove item ", line);
    append_number(row, line);
    append(" 1", line);
}

fn write_add(id: u64, name: u64, quantity: i64, line: &mut Text)
    requires { 80 ≤ line.old.spare }
    ensures bytes { line.new.bytes ≡ line.old.bytes ++ edit_line (Edit.Add id name quantity) }
    ensures short { length line.new.bytes ≤ length line.old.bytes + 80 }
    ensures room { line.old.spare + length line.old.bytes ≤ line.new.spare + length line.new.bytes }
{
    append("add item ", line);
    append_number(id, line);
    append(" \"n", line);
    append_number(name, line);
    append("\" ", line);
    append_quantity(quantity, line);
}

/// Appends a number of at most 20 digits.
fn append_number(number: u64, line: &mut Text)
    requires { 20 ≤ line.old.spare }
    ensures bytes { line.new.bytes ≡ line.old.bytes ++ decimal number }
    ensures short { length line.new.bytes ≤ length line.old.bytes + 20 }
    ensures spare { line.old.spare ≤ line.new.spare + 20 }
    ensures room { line.old.spare + length line.old.bytes ≤ line.new.spare + length line.new.bytes }
{
    has_20_digits(number);
    let _ = line.push_integer(number);
}

/// Appends a quantity, with its sign where it is negative.
fn append_quantity(quantity: i64, line: &mut Text)
    requires { 21 ≤ line.old.spare }
    ensures bytes { line.new.bytes ≡ line.old.bytes ++ signed_decimal quantity }
    ensures short { length line.new.bytes ≤ length line.old.bytes + 21 }
    ensures room { line.old.spare + length line.old.bytes ≤ line.new.spare + length line.new.bytes }
{
    has_20_digits_and_sign(quantity);
    let _ = line.push_integer(quantity);
}

/// Appends a text that fits.
pub(crate) fn append(text: &str, line: &mut Text)
    requires { length text.now ≤ line.old.spare }
    ensures bytes { line.new.bytes ≡ line.old.bytes ++ text.now }
    ensures short { length line.new.bytes ≡ length line.old.bytes + length text.now }
    ensures spare { line.old.spare ≤ line.new.spare + length text.now }
    ensures room { line.old.spare + length line.old.bytes ≤ line.new.spare + length line.new.bytes }
{
    let _ = line.push_str(text);
}

/// A number of 64 bits has at most 20 digits.
fn has_20_digits(number: u64)
    ensures { length (decimal number) ≤ 20 }
{}

/// A signed number of 64 bits has at most 20 digits and a sign.
fn has_20_digits_and_sign(number: i64)
    ensures { length (signed_decimal number) ≤ 21 }
{}
