//! Printed rows, cut into their values.
use std::alloc::{AllocError, Global};

/// How far a text of values has been read: how deep in braces and parentheses, and whether within quotes.
#[derive(Clone, Copy)]
struct Cut {
    depth: u32,
    is_quoted: bool,
    is_escaped: bool,
}

impl Cut {
    fn new() -> Cut {
        Cut {
            depth: 0,
            is_quoted: false,
            is_escaped: false,
        }
    }

    /// Goes one byte on.
    fn pass(&mut self, byte: u8) {
        if self.is_escaped {
            self.is_escaped = false;
        } else if self.is_quoted {
            self.is_escaped = byte == b'\\';
            self.is_quoted = byte != b'"';
        } else {
            match byte {
                b'"' => self.is_quoted = true,
                b'(' | b'{' => self.depth = self.depth.saturating_add(1),
                b')' | b'}' => self.depth = self.depth.saturating_sub(1),
                _ => {}
            }
        }
    }

    /// Whether a byte that comes next stands outside of quotes, this deep.
    fn is_at(&self, depth: u32) -> bool {
        self.depth == depth && !self.is_quoted
    }
}

/// The values of a printed row, `("Ann",{("x",1)},1970)` say, each as it is printed. What is no row has none.
pub fn cells<'a>(alloc: Global, row: &'a [u8]) -> Result<Vec<&'a [u8]>, AllocError> {
    let mut cells = Vec::new(alloc);
    let Some(inner) = row
        .strip_prefix(b"(".as_slice())
        .and_then(|rest| rest.strip_suffix(b")".as_slice()))
    else {
        return Ok(cells);
    };
    let mut cut = Cut::new();
    let mut from = 0;
    for (at, byte) in inner.iter().enumerate() {
        if *byte == b',' && cut.is_at(0) {
            cells.push(inner.get(from..at).unwrap_or_default())?;
            from = at + 1;
        }
        cut.pass(*byte);
    }
    cells.push(inner.get(from..).unwrap_or_default())?;
    Ok(cells)
}

/// How many rows a printed view has, `{("x",1),("y",2)}` say.
pub fn count_rows(view: &[u8]) -> usize {
    let mut cut = Cut::new();
    let mut rows = 0usize;
    for byte in view {
        if *byte == b'(' && cut.is_at(1) {
            rows = rows.saturating_add(1);
        }
        cut.pass(*byte);
    }
    rows
}
