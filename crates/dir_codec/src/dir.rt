// Directories as values.
ghost use Rattle.std.specs.Prelude.{◌≡◌, ◌++◌, ◌∷◌, [], length, map, IfOk, OnErr, OnOk};

use bit_pack::Width;
use mk_value::{Memory, Name, Schema, Sequence, Span, Text};
use std::alloc::Global;
use std::marker::Model;

/// A long value of a column: its row, and where its block stands.
#[derive(Clone, Copy, Debug, PartialEq, Eq)]
pub struct Memo {
    pub row: u32,
    pub span: Span,
}

/// The long values of a column, by row.
pub type Memos = Sequence<Memo>;

/// What a directory has of a column.
#[cycle(dir)]
#[derive(Debug, Drop)]
pub enum DirCol {
    /// Numbers: their width, and where their block stands.
    Ints {
        width: Width,
        span: Span,
    },
    /// Texts or byte strings: the width of their sizes, and where the sizes, the short values and each long value stand.
    Blobs {
        width: Width,
        sizes: Span,
        short: Span,
        memos: Memos,
    },
    /// A body for each row.
    Views(DirBodies),
}

/// What a directory has of a table.
#[cycle(dir)]
#[derive(Debug, Drop)]
pub struct DirBody {
    pub rows: u32,
    pub cols: DirCols,
}

/// The columns of a table, in the order of its properties.
#[cycle(dir)]
#[derive(Debug, Drop)]
pub struct DirCols {
    items: Vec<DirCol>,
}

/// The tables of a view column, by row.
#[cycle(dir)]
#[derive(Debug, Drop)]
pub struct DirBodies {
    items: Vec<DirBody>,
}

impl Model for DirCols {
    ghost use Rattle.std.specs.Prelude.{List, map};
    ghost use Rattle.dir_codec.specs.Dir.{Entry};
    ghost use Rattle.dir_codec.specs.DirCode.{columns_code, columns_weight};

    ghost Value = { List Entry };

    ghost coded = { columns_code };

    ghost use Rattle.dir_codec.specs.Values.{entry_of};

    ghost view = { λ c. map entry_of c.items.items };

    ghost size = { columns_weight };

    ghost use Rattle.dir_codec.specs.DirFalls.{columns_fall};

    ghost size_decreases = { λ c _. columns_fall c };
}

impl Model for DirBodies {
    ghost use Rattle.std.specs.Prelude.{List, map};
    ghost use Rattle.dir_codec.specs.Dir.{Body};
    ghost use Rattle.dir_codec.specs.DirCode.{tables_code, tables_weight};

    ghost Value = { List Body };

    ghost coded = { tables_code };

    ghost use Rattle.dir_codec.specs.Values.{body_of};

    ghost view = { λ b. map body_of b.items.items };

    ghost size = { tables_weight };

    ghost use Rattle.dir_codec.specs.DirFalls.{tables_fall};

    ghost size_decreases = { λ b _. tables_fall b };
}

impl DirCols {
    ghost use Rattle.dir_codec.specs.Values.{entry_of};

    /// No columns.
    pub fn new(alloc: Global) -> DirCols
        ensures { result ≡ [] }
    {
        DirCols {
            items: Vec::new(alloc),
        }
    }

    /// No columns, with room for so many and no more: a directory has those of each table inside a row.
    ///
    /// # Errors
    ///
    /// `Memory`.
    pub fn with_capacity(alloc: Global, count: usize) -> Result<DirCols, Memory>
        ensures { IfOk result (λ cols. cols ≡ []) }
    {
        Ok(DirCols {
            items: Vec::with_capacity(alloc, count)?,
        })
    }

    /// Appends a column.
    pub fn push(&mut self, col: DirCol) -> Result<(), Memory>
        ensures ok { OnOk result (self.new ≡ self.old ++ entry_of col ∷ []) }
        ensures err { OnErr result (self.new ≡ self.old) }
    {
        self.items.push(col)?;
        Ok(())
    }

    pub fn as_slice(&self) -> &[DirCol]
        ensures { map entry_of result.now ≡ self.now }
    {
        self.items.as_slice()
    }
}

impl DirBodies {
    ghost use Rattle.dir_codec.specs.Values.{body_of};

    /// No tables.
    pub fn new(alloc: Global) -> DirBodies
        ensures { result ≡ [] }
    {
        DirBodies {
            items: Vec::new(alloc),
        }
    }

    /// Appends a table.
    pub fn push(&mut self, body: DirBody) -> Result<(), Memory>
        ensures ok { OnOk result (self.new ≡ self.old ++ body_of body ∷ []) }
        ensures err { OnErr result (self.new ≡ self.old) }
    {
        self.items.push(body)?;
        Ok(())
    }

    pub fn as_slice(&self) -> &[DirBody]
        ensures { map body_of result.now ≡ self.now }
    {
        self.items.as_slice()
    }
}

/// A note of a commit.
#[derive(Debug, Drop)]
pub struct Note {
    /// The number of the commit that it is of.
    pub number: u64,
    pub text: Text,
}

/// The notes of a file, oldest first.
pub type Notes = Sequence<Note>;

/// What a directory has of a view.
#[derive(Debug, Drop)]
pub struct DirView {
    pub name: Name,
    pub schema: Schema,
    pub body: DirBody,
}

/// The views of a directory, in order.
pub type DirViews = Sequence<DirView>;

/// The directory of a commit.
#[derive(Debug, Drop)]
pub struct Dir {
    pub views: DirViews,
    pub notes: Notes,
}
