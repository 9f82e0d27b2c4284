//! The names of the columns that a line shows.
use std::alloc::{AllocError, Global};

/// The operators whose rows have the properties of their first argument.
const KEEPING: [&str; 11] = [
    "select",
    "range",
    "sort",
    "slice",
    "unique",
    "keep",
    "concat",
    "union",
    "intersect",
    "minus",
    "different",
];

/// The view whose properties the rows of an expression have, if that shows without looking at any view: a name, or operators over it that keep the
/// properties.
pub fn view_of(expression: &str) -> Option<&str> {
    let mut rest = expression.trim_ascii();
    for _ in 0..16 {
        let Some((operator, arguments)) = rest.split_once('(') else {
            break;
        };
        if !KEEPING.iter().any(|known| *known == operator.trim_ascii()) {
            return None;
        }
        rest = arguments;
    }
    let name = match rest.find(|c: char| c == ',' || c == ')') {
        Some(end) => rest.get(..end).unwrap_or_default(),
        None => rest,
    };
    let name = name.trim_ascii();
    if name.is_empty() || name.contains('/') || name.contains('(') {
        return None;
    }
    Some(name)
}

/// The names of the properties of a view, by the lines of `struct`; none if it lists no such view.
pub fn properties<'a>(
    alloc: Global,
    structures: &'a str,
    view: &str,
) -> Result<Vec<&'a str>, AllocError> {
    for line in structures.lines() {
        if let Some((name, rest)) = line.split_once('[')
            && name == view
            && let Some(list) = rest.strip_suffix("]")
        {
            return names(alloc, list);
        }
    }
    Ok(Vec::new(alloc))
}

/// The names in a list of properties: what stands in front of a kind, and not within brackets.
fn names<'a>(alloc: Global, list: &'a str) -> Result<Vec<&'a str>, AllocError> {
    let mut names = Vec::new(alloc);
    let mut depth = 0u32;
    let mut from = 0;
    for (at, byte) in list.as_bytes().iter().enumerate() {
        match *byte {
            b'[' => {
                if depth == 0 {
                    names.push(list.get(from..at).unwrap_or_default())?;
                }
                depth = depth.saturating_add(1);
            }
            b']' => depth = depth.saturating_sub(1),
            b':' if depth == 0 => names.push(list.get(from..at).unwrap_or_default())?,
            b',' if depth == 0 => from = at + 1,
            _ => {}
        }
    }
    Ok(names)
}
