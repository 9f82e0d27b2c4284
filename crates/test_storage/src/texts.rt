//! Paths, rows and values from texts, and texts of views.
use mk_value::{Kind, Memory, Name, Path, Row, TableRead, Text, Value, print_value, to_value};
use std::alloc::Global;
use std::test::Fail;
use struct_text::print;
use tables::Shared;
use tokens::{Piece, cut, path_at, read_literal};
use view_store::Views;

/// How many letters a `~` stands for in the texts of tables: with one more a value is a memo.
const LETTERS: usize = 512;

/// A text with the letters for which each `~` stands.
pub fn spelled(alloc: Global, text: &str) -> Result<Text, Memory> {
    let mut out = Text::new(alloc);
    for character in text.chars() {
        match character {
            '~' => push_letters(&mut out)?,
            _ => out.push(character)?,
        }
    }
    Ok(out)
}

fn push_letters(out: &mut Text) -> Result<(), Memory> {
    for _letter in 0..LETTERS {
        out.push('a')?;
    }
    Ok(())
}

/// The name that a text spells.
pub fn name(text: &str) -> Result<Name, Fail> {
    match Name::from_bytes(text.as_bytes()) {
        Some(name) => Ok(name),
        None => Err(Fail::new("no name")),
    }
}

/// The path that a text spells, such as `book/0/phones`.
pub fn path(alloc: Global, text: &str) -> Result<Path, Fail> {
    let cutting = cut(alloc, text)?;
    whole_path(alloc, cutting.pieces.as_slice())
}

/// The path that all of the pieces are.
fn whole_path(alloc: Global, pieces: &[Piece<'_>]) -> Result<Path, Fail> {
    let (path, taken) = path_at(alloc, pieces)?;
    if taken < pieces.len() {
        return Err(Fail::new("no path"));
    }
    Ok(path)
}

/// The value of a kind that a literal spells.
fn value(alloc: Global, literal: &str, kind: &Kind) -> Result<Value, Fail> {
    let text = spelled(alloc, literal)?;
    let literal = read_literal(alloc, text.as_str())?;
    Ok(to_value(alloc, &literal, kind)?)
}

/// The value that a literal spells for a property of the view at a path.
pub fn value_for(
    alloc: Global,
    views: &Views,
    path: &Path,
    prop: &Name,
    literal: &str,
) -> Result<Value, Fail> {
    let schema = views.schema(path)?;
    let Some(at) = schema.find(prop.as_str()) else {
        return Err(Fail::new("no such property"));
    };
    let prop = &schema.as_slice()[at];
    value(alloc, literal, &prop.kind)
}

/// The first row that a literal spells of the view at a path.
pub fn row_for(alloc: Global, views: &Views, path: &Path, literal: &str) -> Result<Row, Fail> {
    let kind = Kind::V(views.schema(path)?.copy()?);
    first_row(&value(alloc, literal, &kind)?)
}

fn first_row(value: &Value) -> Result<Row, Fail> {
    let Value::V(rows) = value else {
        return Err(Fail::new("no view"));
    };
    match rows.as_slice().first() {
        Some(row) => Ok(row.copy()?),
        None => Err(Fail::new("no row")),
    }
}

/// The views in order: of each its structure text, and its rows as a literal.
pub fn shown(alloc: Global, views: &Views) -> Result<Text, Memory> {
    let mut out = Text::new(alloc);
    for (name, table) in views.names().as_slice().iter().zip(views.tables()) {
        show(alloc, name, table, &mut out)?;
    }
    Ok(out)
}

fn show(alloc: Global, name: &Name, table: &Shared, out: &mut Text) -> Result<(), Memory> {
    print(name, table.schema(), out)?;
    let rows = table.table().to_rows(alloc)?;
    print_value(&Value::V(rows), out)
}
