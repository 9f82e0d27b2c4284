//! What a commit takes up of its file.
ghost use Rattle.std.specs.Prelude.{◌≡◌, ◌∷◌, []};
ghost use Rattle.mk_value.specs.Heading.{Domain};
ghost use Rattle.free_space.specs.Extents.{extent_len};
ghost use Rattle.tables.specs.Blocks.{plain_columns};
ghost use Rattle.tables.specs.Cells.{IsWholeColumn};
ghost use Rattle.tables.specs.Columns.{home_of, integers, texts};
ghost use Rattle.tables.specs.Rests.{blocks, blocks_of};
ghost use Rattle.tables.specs.Stored.{stored_of};
ghost use Rattle.recovery.specs.Commits.{IsCommit, plain_views};
ghost use Rattle.recovery.specs.Keeping.{commit_in};
ghost use Rattle.commit_plan.specs.Following.{commit_spans};
ghost use Rattle.commit_plan.specs.Plain.{plain_of, plain_tables};
ghost use Rattle.commit_plan.specs.Usage.{Adds, held, usage_of};

use bytes_col::{BytesCol, BytesHome};
use free_space::extent_len;
use int_col::IntCol;
use mk_value::Span;
use recovery::Kept;
use tables::{Block, Col, Nested, Table, Tables};
use view_store::Views;

/// What blocks take up: the sum of their extents in bytes, and how many of them have bytes. Each stands still at 2^64 - 1.
#[derive(Clone, Copy, Debug, PartialEq, Eq)]
pub struct Usage {
    pub bytes: u64,
    pub blocks: u64,
}

/// What the blocks of a commit take up, its directory among them. It takes no memory, and time in the number of tables, columns and
/// blocks.
pub fn measure(kept: &Kept) -> Usage
    requires { IsCommit (commit_in kept.now) }
    ensures { result ≡ usage_of (commit_spans (commit_in kept.now)) }
{
    let mut usage = Usage {
        bytes: 0,
        blocks: 0,
    };
    views_usage(&kept.views, &mut usage);
    usage.add(kept.dir);
    usage
}

/// Adds the blocks of views.
fn views_usage(views: &Views, usage: &mut Usage)
    ensures { Adds (blocks (plain_views views.now)) usage.old usage.new }
{
    'tables: for table in views.tables() {
        table_usage(table.table(), usage);
    }
}

/// Adds the blocks of a table.
#[cycle(measuring)]
fn table_usage(table: &Table, usage: &mut Usage)
    ensures { Adds (blocks (plain_columns table.now)) usage.old usage.new }
{
    'cols: for col in table.cols().as_slice() {
        col_usage(col, usage);
    }
}

/// Adds the blocks of a column of a table.
#[cycle(measuring)]
fn col_usage(col: &Col, usage: &mut Usage)
    ensures { (e : Domain) → IsWholeColumn e (stored_of col.now) → Adds (blocks (plain_of e (stored_of col.now))) usage.old usage.new }
{
    match col {
        Col::Ints(column) => ints_usage(column, usage),
        Col::Blobs(column) => blobs_usage(column, usage),
        Col::Views(tables) => tables_usage(tables, usage),
    }
}

/// Adds the blocks of the tables in the rows of a view column.
#[cycle(measuring)]
fn tables_usage(tables: &Tables, usage: &mut Usage)
    ensures { Adds (blocks (plain_tables tables.now)) usage.old usage.new }
{
    'rows: for row in 0..tables.len() {
        nested_usage(tables.get(row), usage);
    }
}

/// Adds the blocks of a table in a row.
#[cycle(measuring)]
fn nested_usage(table: Nested<'_>, usage: &mut Usage)
    ensures { Adds (blocks (plain_columns table.entry)) usage.old usage.new }
{
    match table.own() {
        Ok(own) => table_usage(own.table(), usage),
        Err(blocks) => usage.add_blocks(blocks),
    }
}

/// Adds the block of a column of numbers.
fn ints_usage(column: &IntCol, usage: &mut Usage)
    ensures { Adds (blocks_of (home_of (integers column.now))) usage.old usage.new }
{
    match column.home() {
        Some(block) => usage.add(block),
        None => usage.add_all(&[]),
    }
}

/// Adds the blocks of a column of texts or byte strings.
fn blobs_usage(column: &BytesCol, usage: &mut Usage)
    ensures { Adds (blocks_of (home_of (texts column.now))) usage.old usage.new }
{
    match column.home() {
        Some(home) => usage.add_home(home),
        None => usage.add_all(&[]),
    }
}

impl Usage {
    fn add_home(&mut self, home: &BytesHome)
        ensures { Adds (home.now.sizes ∷ home.now.short ∷ home.now.memos) self.old self.new }
    {
        self.add(home.sizes);
        self.add(home.short);
        self.add_all(home.memos.as_slice());
    }

    fn add_all(&mut self, spans: &[Span])
        ensures { Adds spans.now self.old self.new }
    {
        'spans: for span in spans {
            self.add(*span);
        }
    }

    fn add_blocks(&mut self, blocks: &[Block])
        ensures { Adds blocks.now self.old self.new }
    {
        'placed: for block in blocks {
            self.add(block.span());
        }
    }

    fn add(&mut self, span: Span)
        ensures { Adds (span ∷ []) self.old self.new }
    {
        let Usage { bytes, blocks } = *self;
        self.bytes = bytes.saturating_add(extent(span.len));
        if span.len > 0 {
            self.blocks = blocks.saturating_add(1);
        }
    }
}

/// The length of the extent of a block of so many bytes.
#[tactic(auto, unfolding(free_space::specs::Extents::extent_len))]
fn extent(len: u64) -> u64
    ensures { result ≡ held (extent_len len) }
{
    if len > u64::MAX - 15 {
        return u64::MAX;
    }
    extent_len(len)
}
