ghost use Rattle.std.specs.Prelude.{◌≡◌, ◌++◌, ◌∷◌, [], length, map, OnOk, OnErr};

use crate::{Bytes as ByteString, Memory, Text as Characters};
use std::alloc::Global;
use std::marker::Model;

/// A value as it is written, before a kind is chosen for it.
#[cycle(literal)]
#[derive(Debug, Drop)]
pub enum Literal {
    /// A number, of kind I or L.
    Number(i64),
    /// A text.
    Text(Characters),
    /// A byte string.
    Bytes(ByteString),
    /// The rows of a view. Each may have fewer values than the view has properties.
    View(LiteralRows),
}

/// A list of literals, such as the values of a row.
#[cycle(literal)]
#[derive(Debug, Drop)]
pub struct Literals {
    items: Vec<Literal>,
}

/// The rows of a view as they are written.
#[cycle(literal)]
#[derive(Debug, Drop)]
pub struct LiteralRows {
    items: Vec<Literals>,
}

impl Model for Literals {
    ghost use Rattle.std.specs.Prelude.{List, map};
    ghost use Rattle.mk_value.specs.Data.{Datum, row_weight};
    ghost use Rattle.mk_value.specs.DataCode.{row_code};

    ghost Value = { List Datum };

    ghost coded = { row_code };

    ghost use Rattle.mk_value.specs.LiteralValues.{literal_of};

    ghost view = { λ r. map literal_of r.items.items };

    ghost size = { row_weight };

    ghost use Rattle.mk_value.specs.LiteralFalls.{literals_fall};

    ghost size_decreases = { λ r _. literals_fall r };
}

impl Model for LiteralRows {
    ghost use Rattle.std.specs.Prelude.{List};
    ghost use Rattle.mk_value.specs.Data.{Datum, rows_weight};
    ghost use Rattle.mk_value.specs.DataCode.{rows_code};

    ghost Value = { List (List Datum) };

    ghost coded = { rows_code };

    ghost view = { λ r. r.items.items };

    ghost size = { rows_weight };

    ghost use Rattle.mk_value.specs.LiteralFalls.{literal_rows_fall};

    ghost size_decreases = { λ r _. literal_rows_fall r };
}

impl Literals {
    ghost use Rattle.mk_value.specs.LiteralValues.{literal_of};

    /// The empty list.
    pub fn new(alloc: Global) -> Literals
        ensures { result ≡ [] }
    {
        Literals {
            items: Vec::new(alloc),
        }
    }

    /// Appends a literal.
    pub fn push(&mut self, literal: Literal) -> Result<(), Memory>
        ensures ok { OnOk result (self.new ≡ self.old ++ literal_of literal ∷ []) }
        ensures err { OnErr result (self.new ≡ self.old) }
    {
        self.items.push(literal)?;
        Ok(())
    }

    pub fn as_slice(&self) -> &[Literal]
        ensures { map literal_of result.now ≡ self.now }
    {
        self.items.as_slice()
    }

    /// The number of literals.
    pub fn len(&self) -> usize
        ensures { result ≡ length self.now }
    {
        self.items.len()
    }
}

impl LiteralRows {
    /// No rows.
    pub fn new(alloc: Global) -> LiteralRows
        ensures { result ≡ [] }
    {
        LiteralRows {
            items: Vec::new(alloc),
        }
    }

    /// Appends a row.
    pub fn push(&mut self, row: Literals) -> Result<(), Memory>
        ensures ok { OnOk result (self.new ≡ self.old ++ row ∷ []) }
        ensures err { OnErr result (self.new ≡ self.old) }
    {
        self.items.push(row)?;
        Ok(())
    }

    pub fn as_slice(&self) -> &[Literals]
        ensures { result.now ≡ self.now }
    {
        self.items.as_slice()
    }

    /// The number of rows.
    pub fn len(&self) -> usize
        ensures { result ≡ length self.now }
    {
        self.items.len()
    }
}
