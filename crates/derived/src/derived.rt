//! Derived tables, read value by value through what they are made of.
ghost use Rattle.std.specs.Prelude.{◌≡◌, ◌<◌, ◌+◌, ◌≤◌, ◌++◌, length, map, slice_index_or, All, IfOk, IsOkAnd};
ghost use Rattle.mk_value.specs.Data.{AreRowsOf};
ghost use Rattle.mk_value.specs.Limits.{max_rows};
ghost use Rattle.mk_value.specs.Tables.{AreNumbers, column_numbers, domain_at};
ghost use Rattle.derived.specs.Joining.{zipped};
ghost use Rattle.derived.specs.Layers.{table_of};
ghost use Rattle.relations.specs.Columns.{AreColumns, properties_at, values_at};
ghost use Rattle.derived.specs.Operators.{with_rows};
ghost use Rattle.relations.specs.Rows.{rows_at};

use mk_value::{HeldRows, Lent, Memory, Positions, Rows, Same, Schema, TableRead, Value};
use relations::{Columns, cmp_lents};
use std::alloc::Global;
use std::cmp::Ordering;
use std::marker::Model;

/// A table made of others: a schema and rows, at most 16,777,216.
#[cycle(derived)]
#[derive(Drop)]
pub struct Derived<T: TableRead + Same + Drop> {
    node: Node<T>,
}

#[cycle(derived)]
#[derive(Drop)]
enum Node<T: TableRead + Same + Drop> {
    /// A table of another kind.
    Leaf(T),
    /// Rows of its own.
    Held(HeldRows),
    /// The rows of a table at these positions.
    Rows(Box<Derived<T>>, Positions),
    /// The columns of a table at these places, under this schema.
    Columns(Box<Derived<T>>, Columns, Schema),
    /// The rows of a table, so many, then those of another of the same schema.
    Stacked(Box<Derived<T>>, usize, Box<Derived<T>>),
    /// Each row of a table beside the row of another at the same place, of that in these columns, under this schema.
    Beside(Box<Derived<T>>, Box<Derived<T>>, Columns, Schema),
}

impl<T: TableRead + Same + Drop> Model for Derived<T> {
    ghost use Rattle.derived.specs.Layers.{Layered, layered_code};

    ghost Value = { Layered };

    ghost coded = { layered_code };

    ghost use Rattle.derived.specs.Nodes.{layered, IsWholeNode};

    ghost view = { λ d. layered T.schema T.rows d.node };

    ghost invariant = { λ d. IsWholeNode T.schema T.rows d.node };

    ghost size = { λ d. d.layers };

    ghost use Rattle.derived.specs.NodeFalls.{derived_falls};

    ghost size_decreases = { λ d _. derived_falls T.TableRead d };
}

impl<T: TableRead + Same + Drop> TableRead for Derived<T> {
    ghost schema = { λ d. d.schema };

    ghost rows = { λ d. d.rows };

    fn schema(&self) -> &Schema {
        match &self.node {
            Node::Leaf(table) => table.schema(),
            Node::Held(held) => held.schema(),
            Node::Rows(base, _) => base.schema(),
            Node::Columns(_, _, schema) => schema,
            Node::Stacked(first, _, _) => first.schema(),
            Node::Beside(_, _, _, schema) => schema,
        }
    }

    fn size(&self) -> usize {
        match &self.node {
            Node::Leaf(table) => table.size(),
            Node::Held(held) => held.size(),
            Node::Rows(_, positions) => positions.len(),
            Node::Columns(base, _, _) => base.size(),
            Node::Stacked(_, size, second) => *size + second.size(),
            Node::Beside(first, _, _, _) => first.size(),
        }
    }

    fn get(&self, row: usize, col: usize) -> Result<Value, Memory> {
        match &self.node {
            Node::Leaf(table) => table.get(row, col),
            Node::Held(held) => held.get(row, col),
            Node::Rows(base, positions) => base.get(positions.as_slice()[row] as usize, col),
            Node::Columns(base, columns, _) => base.get(row, columns.as_slice()[col]),
            Node::Stacked(first, size, second) => {
                if row < *size {
                    first.get(row, col)
                } else {
                    second.get(row - *size, col)
                }
            }
            Node::Beside(first, second, columns, schema) => {
                let width = schema.len() - columns.len();
                if col < width {
                    first.get(row, col)
                } else {
                    second.get(row, columns.as_slice()[col - width])
                }
            }
        }
    }

    fn lend(&self, row: usize, col: usize) -> Lent<'_> {
        match &self.node {
            Node::Leaf(table) => table.lend(row, col),
            Node::Held(held) => held.lend(row, col),
            Node::Rows(base, positions) => base.lend(positions.as_slice()[row] as usize, col),
            Node::Columns(base, columns, _) => base.lend(row, columns.as_slice()[col]),
            Node::Stacked(first, size, second) => {
                if row < *size {
                    first.lend(row, col)
                } else {
                    second.lend(row - *size, col)
                }
            }
            Node::Beside(first, second, columns, schema) => {
                let width = schema.len() - columns.len();
                if col < width {
                    first.lend(row, col)
                } else {
                    second.lend(row, columns.as_slice()[col - width])
                }
            }
        }
    }

    fn fill(&self, col: usize, from: usize, into: &mut [i64]) {
        match &self.node {
            Node::Leaf(table) => table.fill(col, from, into),
            Node::Held(held) => held.fill(col, from, into),
            Node::Rows(base, positions) => {
                let end = from + into.len();
                fill_at(base, col, &positions.as_slice()[from..end], into)
            }
            Node::Columns(base, columns, _) => base.fill(columns.as_slice()[col], from, into),
            Node::Stacked(first, size, second) => {
                let size = *size;
                if from + into.len() <= size {
                    first.fill(col, from, into)
                } else if size <= from {
                    second.fill(col, from - size, into)
                } else {
                    let (firsts, seconds) = into.split_at_mut(size - from);
                    first.fill(col, from, firsts);
                    second.fill(col, 0, seconds)
                }
            }
            Node::Beside(first, second, columns, schema) => {
                let width = schema.len() - columns.len();
                if col < width {
                    first.fill(col, from, into)
                } else {
                    second.fill(columns.as_slice()[col - width], from, into)
                }
            }
        }
    }

    fn cmp_cell(&self, row: usize, col: usize, with: &Value) -> Ordering {
        match &self.node {
            Node::Leaf(table) => table.cmp_cell(row, col, with),
            Node::Held(held) => held.cmp_cell(row, col, with),
            Node::Rows(base, positions) => {
                base.cmp_cell(positions.as_slice()[row] as usize, col, with)
            }
            Node::Columns(base, columns, _) => base.cmp_cell(row, columns.as_slice()[col], with),
            Node::Stacked(first, size, second) => {
                if row < *size {
                    first.cmp_cell(row, col, with)
                } else {
                    second.cmp_cell(row - *size, col, with)
                }
            }
            Node::Beside(first, second, columns, schema) => {
                let width = schema.len() - columns.len();
                if col < width {
                    first.cmp_cell(row, col, with)
                } else {
                    second.cmp_cell(row, columns.as_slice()[col - width], with)
                }
            }
        }
    }

    fn cmp_rows(&self, a: usize, b: usize, col: usize) -> Ordering {
        match &self.node {
            Node::Leaf(table) => table.cmp_rows(a, b, col),
            Node::Held(held) => held.cmp_rows(a, b, col),
            Node::Rows(base, positions) => {
                let positions = positions.as_slice();
                base.cmp_rows(positions[a] as usize, positions[b] as usize, col)
            }
            Node::Columns(base, columns, _) => base.cmp_rows(a, b, columns.as_slice()[col]),
            Node::Stacked(_, _, _) => cmp_lents(self.lend(a, col), self.lend(b, col)),
            Node::Beside(first, second, columns, schema) => {
                let width = schema.len() - columns.len();
                if col < width {
                    first.cmp_rows(a, b, col)
                } else {
                    second.cmp_rows(a, b, columns.as_slice()[col - width])
                }
            }
        }
    }
}

/// Reads the numbers of a column at these positions.
fn fill_at<T: TableRead + Same + Drop>(
    base: &Derived<T>,
    col: usize,
    positions: &[u32],
    into: &mut [i64],
)
    requires col_in { col < length base.now.schema }
    requires rows_in { All (λ i. i < length base.now.rows) positions.now }
    requires numbers { AreNumbers (domain_at base.now.schema col) }
    requires as_many { length into.old ≡ length positions.now }
    ensures { into.new ≡ column_numbers (rows_at base.now.rows positions.now) col }
{
    // Its size says that each cell is of its column's kind.
    let _size = base.size();
    for at in 0..into.len() {
        into[at] = base.lend(positions[at] as usize, col).number();
    }
}

/// The derived table that a table is. It takes no memory.
///
/// # Errors
///
/// None: it always succeeds.
pub fn leaf<T: TableRead + Same + Drop>(table: T) -> Result<Derived<T>, Memory>
    ensures { IsOkAnd result (λ d. table_of d ≡ record { schema = T.schema table; rows = T.rows table }) }
{
    let _schema = table.schema();
    let _size = table.size();
    Ok(Derived {
        node: Node::Leaf(table),
    })
}

/// The derived table of rows of its own. It takes no memory.
///
/// # Errors
///
/// None: it always succeeds.
pub fn held<T: TableRead + Same + Drop>(schema: Schema, rows: Rows) -> Result<Derived<T>, Memory>
    requires { AreRowsOf rows schema }
    ensures { IsOkAnd result (λ d. table_of d ≡ record { schema = schema; rows = rows }) }
{
    let _width = schema.len();
    Ok(Derived {
        node: Node::Held(HeldRows::of(schema, rows)),
    })
}

/// The rows of a table at these positions, in their order.
///
/// # Errors
///
/// `Memory`.
pub fn pick<T: TableRead + Same + Drop>(
    alloc: Global,
    base: T,
    positions: Positions,
) -> Result<Derived<T>, Memory>
    requires few { length positions ≤ max_rows }
    requires in_range { All (λ i. i < length (T.rows base)) positions }
    ensures { IfOk result (λ d. table_of d ≡ record { schema = T.schema base; rows = rows_at (T.rows base) positions }) }
{
    gather(alloc, leaf(base)?, positions)
}

/// The rows of a derived table at these positions, in their order. A position may come more than once.
///
/// Positions in a table that has columns of another go below the columns, and positions in a table that has rows of another become
/// positions in that other: so a chain of operators on one table is read through columns and positions once, however long it is.
///
/// # Errors
///
/// `Memory`.
pub fn gather<T: TableRead + Same + Drop>(
    alloc: Global,
    base: Derived<T>,
    positions: Positions,
) -> Result<Derived<T>, Memory>
    requires few { length positions ≤ max_rows }
    requires in_range { All (λ i. i < length base.rows) positions }
    ensures { IfOk result (λ d. table_of d ≡ with_rows (table_of base) (rows_at base.rows positions)) }
{
    match base.node {
        Node::Columns(inner, columns, schema) => {
            let rows = with_positions(alloc, Box::into_inner(inner), positions)?;
            over_columns(alloc, rows, columns, schema)
        }
        _ => with_positions(alloc, base, positions),
    }
}

/// The rows of a table at these positions, where a table at positions gives its own.
fn with_positions<T: TableRead + Same + Drop>(
    alloc: Global,
    base: Derived<T>,
    positions: Positions,
) -> Result<Derived<T>, Memory>
    requires few { length positions ≤ max_rows }
    requires in_range { All (λ i. i < length base.rows) positions }
    ensures { IfOk result (λ d. table_of d ≡ with_rows (table_of base) (rows_at base.rows positions)) }
{
    match base.node {
        Node::Rows(inner, below) => {
            let positions = composed(below.as_slice(), positions);
            over_rows(alloc, Box::into_inner(inner), positions)
        }
        _ => over_rows(alloc, base, positions),
    }
}

/// The rows of a table at these positions, as one more layer.
fn over_rows<T: TableRead + Same + Drop>(
    alloc: Global,
    base: Derived<T>,
    positions: Positions,
) -> Result<Derived<T>, Memory>
    requires few { length positions ≤ max_rows }
    requires in_range { All (λ i. i < length base.rows) positions }
    ensures { IfOk result (λ d. table_of d ≡ with_rows (table_of base) (rows_at base.rows positions)) }
{
    let _width = base.schema().len();
    let _size = base.size();
    let base = Box::new(alloc, base)?;
    Ok(Derived {
        node: Node::Rows(base, positions),
    })
}

/// The columns of a derived table at these places, under a schema of the same kinds. Those of a table that has columns of another
/// are columns of that other.
pub(crate) fn with_columns<T: TableRead + Same + Drop>(
    alloc: Global,
    base: Derived<T>,
    columns: Columns,
    schema: Schema,
) -> Result<Derived<T>, Memory>
    requires { AreColumns base.schema columns schema }
    ensures { IfOk result (λ d. table_of d ≡ record { schema = schema; rows = map (values_at columns) base.rows }) }
{
    match base.node {
        Node::Columns(inner, below, _) => {
            let columns = columns_below(alloc, below.as_slice(), &columns)?;
            over_columns(alloc, Box::into_inner(inner), columns, schema)
        }
        _ => over_columns(alloc, base, columns, schema),
    }
}

/// The columns of a table at these places, as one more layer.
fn over_columns<T: TableRead + Same + Drop>(
    alloc: Global,
    base: Derived<T>,
    columns: Columns,
    schema: Schema,
) -> Result<Derived<T>, Memory>
    requires { AreColumns base.schema columns schema }
    ensures { IfOk result (λ d. table_of d ≡ record { schema = schema; rows = map (values_at columns) base.rows }) }
{
    let _width = schema.len();
    let _size = base.size();
    let base = Box::new(alloc, base)?;
    Ok(Derived {
        node: Node::Columns(base, columns, schema),
    })
}

/// The positions that others have at these places.
fn composed(below: &[u32], positions: Positions) -> Positions
    requires { All (λ i. i < length below.now) positions }
    ensures { result ≡ map (λ i. slice_index_or below.now i 0) positions }
{
    let mut composed = positions.into_vec();
    look_up(&mut composed, below);
    Positions::from(composed)
}

/// Puts in the place of each position the one that stands there in another list.
fn look_up(positions: &mut [u32], below: &[u32])
    requires { All (λ i. i < length below.now) positions.old }
    ensures { positions.new ≡ map (λ i. slice_index_or below.now i 0) positions.old }
{
    for position in positions.iter_mut() {
        *position = below[*position as usize];
    }
}

/// The columns that others have at these places.
fn columns_below(alloc: Global, below: &[usize], columns: &Columns) -> Result<Columns, Memory>
    requires { All (λ j. j < length below.now) columns.now }
    ensures { IfOk result (λ composed. composed ≡ map (λ j. slice_index_or below.now j 0) columns.now) }
{
    let mut composed = Columns::new(alloc);
    for column in columns.as_slice() {
        composed.push(below[*column])?;
    }
    Ok(composed)
}

/// The rows of a derived table, then these.
///
/// # Errors
///
/// `Memory`.
pub fn extend<T: TableRead + Same + Drop>(
    alloc: Global,
    base: Derived<T>,
    more: Rows,
) -> Result<Derived<T>, Memory>
    requires whole { AreRowsOf more base.schema }
    requires few { length base.rows + length more ≤ max_rows }
    ensures { IfOk result (λ d. table_of d ≡ with_rows (table_of base) (base.rows ++ more)) }
{
    let schema = base.schema().copy()?;
    let more = held(schema, more)?;
    stack(alloc, base, more)
}

/// The rows of a derived table, then those of another of the same schema. It copies none.
///
/// # Errors
///
/// `Memory`.
pub fn stack<T: TableRead + Same + Drop>(
    alloc: Global,
    first: Derived<T>,
    second: Derived<T>,
) -> Result<Derived<T>, Memory>
    requires same { second.schema ≡ first.schema }
    requires few { length first.rows + length second.rows ≤ max_rows }
    ensures { IfOk result (λ d. table_of d ≡ with_rows (table_of first) (first.rows ++ second.rows)) }
{
    let _width = first.schema().len();
    let _more = second.size();
    let size = first.size();
    let first = Box::new(alloc, first)?;
    let second = Box::new(alloc, second)?;
    Ok(Derived {
        node: Node::Stacked(first, size, second),
    })
}

/// Each row of a derived table beside the row of another at the same place, of that in these columns. It copies none.
///
/// # Errors
///
/// `Memory`.
pub fn beside<T: TableRead + Same + Drop>(
    alloc: Global,
    first: Derived<T>,
    second: Derived<T>,
    columns: Columns,
    schema: Schema,
) -> Result<Derived<T>, Memory>
    requires as_many { length second.rows ≡ length first.rows }
    requires in_range { All (λ j. j < length second.schema) columns }
    requires schemas { schema ≡ first.schema ++ properties_at second.schema columns }
    ensures { IfOk result (λ d. table_of d ≡ record { schema = schema; rows = zipped (λ one two. one ++ values_at columns two) first.rows second.rows }) }
{
    let _width = schema.len();
    let _sizes = (first.size(), second.size());
    let first = Box::new(alloc, first)?;
    let second = Box::new(alloc, second)?;
    Ok(Derived {
        node: Node::Beside(first, second, columns, schema),
    })
}
