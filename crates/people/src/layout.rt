//! Rows as a table whose columns stand under one another.
use crate::rows::{cells, count_rows};
use std::alloc::{AllocError, Global};
use unicode_width::{UnicodeWidthChar, UnicodeWidthStr};

/// The greatest width of a column. A longer text is cut.
pub const MAX_COLUMN: usize = 40;

/// What stands between two columns.
const GAP: &str = "  ";

/// A value as it is shown.
#[derive(Drop)]
struct Cell {
    text: String,
    /// It stands at the right of its column, as numbers do.
    is_right: bool,
}

/// The rows of a reply, a line each, as a table under these names. Texts stand without their quotes, and of a view the number of its rows is shown.
/// With no names there is no heading.
pub fn table(alloc: Global, names: &[&str], rows: &str) -> Result<String, AllocError> {
    let mut widths: Vec<usize> = Vec::new(alloc);
    for (at, name) in names.iter().enumerate() {
        widen(&mut widths, at, name.width())?;
    }
    for row in rows.lines() {
        for (at, cell) in shown_cells(alloc, row)?.iter().enumerate() {
            widen(&mut widths, at, cell.text.as_str().width())?;
        }
    }
    let mut out = String::new(alloc);
    if !names.is_empty() {
        write_names(&mut out, names, &widths)?;
    }
    for row in rows.lines() {
        write_row(&mut out, &shown_cells(alloc, row)?, &widths)?;
    }
    Ok(out)
}

/// The column at a place is at least so wide.
fn widen(widths: &mut Vec<usize>, at: usize, width: usize) -> Result<(), AllocError> {
    match widths.get_mut(at) {
        Some(known) => *known = (*known).max(width),
        None => widths.push(width)?,
    }
    Ok(())
}

fn width_at(widths: &[usize], at: usize) -> usize {
    widths.get(at).copied().unwrap_or(0)
}

/// Writes the names, and a line under them.
fn write_names(out: &mut String, names: &[&str], widths: &[usize]) -> Result<(), AllocError> {
    for (at, name) in names.iter().enumerate() {
        if at > 0 {
            out.push_str(GAP)?;
        }
        out.push_str(name)?;
        if at + 1 < names.len() {
            pad(out, ' ', width_at(widths, at), name.width())?;
        }
    }
    out.push_str("\n")?;
    for at in 0..names.len() {
        if at > 0 {
            out.push_str(GAP)?;
        }
        pad(out, '-', width_at(widths, at), 0)?;
    }
    out.push_str("\n")
}

fn write_row(out: &mut String, row: &[Cell], widths: &[usize]) -> Result<(), AllocError> {
    for (at, cell) in row.iter().enumerate() {
        if at > 0 {
            out.push_str(GAP)?;
        }
        let width = cell.text.as_str().width();
        if cell.is_right {
            pad(out, ' ', width_at(widths, at), width)?;
            out.push_str(cell.text.as_str())?;
        } else {
            out.push_str(cell.text.as_str())?;
            if at + 1 < row.len() {
                pad(out, ' ', width_at(widths, at), width)?;
            }
        }
    }
    out.push_str("\n")
}

/// Fills up to a width what has this width.
fn pad(out: &mut String, with: char, width: usize, has: usize) -> Result<(), AllocError> {
    for _ in has..width {
        out.push(with)?;
    }
    Ok(())
}

/// The values of a row as they are shown.
fn shown_cells(alloc: Global, row: &str) -> Result<Vec<Cell>, AllocError> {
    let mut shown = Vec::new(alloc);
    for cell in cells(alloc, row.as_bytes())? {
        shown.push(shown_cell(alloc, cell)?)?;
    }
    Ok(shown)
}

/// A value as it is shown.
fn shown_cell(alloc: Global, cell: &[u8]) -> Result<Cell, AllocError> {
    if cell.first() == Some(&b'{') {
        return view_cell(alloc, count_rows(cell));
    }
    let text = std::str::from_utf8(cell).unwrap_or("?");
    match text
        .strip_prefix('"')
        .and_then(|rest| rest.strip_suffix('"'))
    {
        Some(inner) => Ok(Cell {
            text: cut_text(alloc, inner)?,
            is_right: false,
        }),
        None => Ok(Cell {
            text: cut_text(alloc, text)?,
            is_right: !text.starts_with('x'),
        }),
    }
}

/// A view as the number of its rows.
fn view_cell(alloc: Global, rows: usize) -> Result<Cell, AllocError> {
    let mut text = String::new(alloc);
    let mut buffer = itoa::Buffer::new();
    text.push_str(buffer.format(rows))?;
    text.push_str(if rows == 1 { " row" } else { " rows" })?;
    Ok(Cell {
        text,
        is_right: false,
    })
}

/// A text that was printed within quotes: a quote and a backslash stand for themselves, a newline stays `\n`, and what is too long is cut.
fn cut_text(alloc: Global, printed: &str) -> Result<String, AllocError> {
    let is_long = printed.width() > MAX_COLUMN;
    let mut text = String::new(alloc);
    let mut width = 0usize;
    let mut is_escaped = false;
    for c in printed.chars() {
        if c == '\\' && !is_escaped {
            is_escaped = true;
            continue;
        }
        if is_escaped && c == 'n' {
            text.push('\\')?;
            width = width.saturating_add(1);
        }
        is_escaped = false;
        width = width.saturating_add(c.width().unwrap_or(1));
        if is_long && width >= MAX_COLUMN {
            text.push('…')?;
            break;
        }
        text.push(c)?;
    }
    Ok(text)
}
