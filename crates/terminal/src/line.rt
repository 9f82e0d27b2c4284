//! Lines on their way from the input to the session.
ghost use Rattle.std.specs.Prelude.{◌≤◌, length};

use std::alloc::{AllocError, Global};

/// Bytes that were taken from the input and are not handed on yet.
#[derive(Drop)]
pub(crate) struct Typed {
    bytes: Vec<u8>,
    from: usize,
}

impl Typed {
    pub fn new(alloc: Global) -> Typed {
        Typed {
            bytes: Vec::new(alloc),
            from: 0,
        }
    }

    /// Puts more bytes behind those that are left.
    pub fn append(&mut self, bytes: &[u8]) -> Result<(), AllocError> {
        if self.from >= self.bytes.len() {
            self.bytes.clear();
            self.from = 0;
        }
        self.bytes.extend_from_slice(bytes)
    }

    /// How many bytes are left.
    pub fn len(&self) -> usize {
        self.left().len()
    }

    fn left(&self) -> &[u8] {
        self.bytes.get(self.from..).unwrap_or_default()
    }

    /// How long the first line of what is left is, with its newline, if it is whole.
    pub fn line_len(&self) -> Option<usize> {
        let at = self.left().iter().position(|byte| *byte == b'\n')?;
        Some(at.saturating_add(1))
    }

    /// Hands so many bytes on.
    pub fn hand_on(&mut self, count: usize, line: &mut Line) -> Result<(), AllocError> {
        line.replace(self.left().get(..count).unwrap_or_default())?;
        self.from = self.from.saturating_add(count);
        Ok(())
    }
}

/// A line, or a piece of one that is very long, that the session takes in pieces.
#[derive(Drop)]
pub(crate) struct Line {
    bytes: Vec<u8>,
    given: usize,
}

impl Line {
    pub fn new(alloc: Global) -> Line {
        Line {
            bytes: Vec::new(alloc),
            given: 0,
        }
    }

    /// Other bytes come in its place.
    pub fn replace(&mut self, bytes: &[u8]) -> Result<(), AllocError> {
        self.bytes.clear();
        self.given = 0;
        self.bytes.extend_from_slice(bytes)
    }

    /// The line as a text. One that is none is shown as if it were empty.
    pub fn text(&self) -> &str {
        std::str::from_utf8(&self.bytes).unwrap_or_default()
    }

    pub fn as_bytes(&self) -> &[u8] {
        &self.bytes
    }

    /// Gives the next bytes into the front of a piece, and their number: 0 where none are left.
    pub fn give(&mut self, into: &mut [u8]) -> usize
        ensures { result ≤ length into.new }
    {
        let left = self.bytes.get(self.given..).unwrap_or_default();
        let count = left.len().min(into.len());
        into[..count].copy_from_slice(&left[..count]);
        self.given = self.given.saturating_add(count);
        count
    }
}
