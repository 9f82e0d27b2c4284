//! The stream of a root.
ghost use Rattle.std.specs.Prelude.{◌≡◌, ◌^◌, ◌++◌, ◌<◌, ◌≤◌, length, slice_index_or, [], IfOk, OnOk};
ghost use Rattle.std.specs.Int.{cast_unsigned, w32, w64};
ghost use Rattle.std.specs.List.{flat_map};
ghost use Rattle.byteorder.specs.Endian.{little_bytes};
ghost use Rattle.mk_value.specs.Appending.{Writes};
ghost use Rattle.mk_value.specs.Data.{cell};
ghost use Rattle.mk_value.specs.Limits.{max_structure};
ghost use Rattle.stream_codec.specs.Stream.{counted, spelled, spelled_rows, spelled_value, spelled_view};
ghost use Rattle.struct_text.specs.Spelling.{spelling};
ghost use Rattle.tables.specs.Tables.{IsTable};

use crate::lengths::{stream_length, structure_text};
use byteorder::{ByteOrder, LittleEndian};
use mk_value::{Bytes, Lent, Memory, Name, TableRead};
use std::alloc::Global;
use tables::Nested;
use view_store::Root;

/// What each stream begins with.
pub(crate) const SIGNATURE: [u8; 8] = [b'M', b'K', b'S', b'T', 1, 0, 0, 0];

/// The stream of the views of a root, in one room that is taken at once.
///
/// A table that several rows share is written for each of them: the stream may be far longer than what the root takes.
///
/// # Errors
///
/// `Memory`, also where no room is as long as the stream.
pub fn save(alloc: Global, root: &Root) -> Result<Bytes, Memory>
    ensures { IfOk result (λ stream. stream.bytes ≡ spelled root.now) }
{
    let mut out = Bytes::with_room(alloc, stream_length(alloc, root)?)?;
    out.push_slice(&SIGNATURE)?;
    write_views(alloc, &mut out, root)?;
    Ok(out)
}

/// The views behind their number.
fn write_views(alloc: Global, out: &mut Bytes, root: &Root) -> Result<(), Memory>
    ensures { OnOk result (out.new.bytes ≡ out.old.bytes ++ (little_bytes 4 (length root.now) ++ flat_map spelled_view root.now)) }
{
    let names = root.names().as_slice();
    let tables = root.tables();
    write_count(out, names.len())?;
    for at in 0..names.len() {
        write_view(alloc, out, &names[at], &Nested::of(&tables[at]))?;
    }
    Ok(())
}

/// A view: its structure text behind its length, and its rows behind their number.
fn write_view(alloc: Global, out: &mut Bytes, name: &Name, table: &Nested<'_>) -> Result<(), Memory>
    requires { length (spelling name.now table.now.schema) ≤ max_structure }
    ensures { OnOk result (out.new.bytes ≡ out.old.bytes ++ spelled_view (record { name = name.now; table = table.now })) }
{
    let text = structure_text(alloc, name, table.schema())?;
    write_counted(out, text.as_str().as_bytes())?;
    write_rows(out, table)
}

/// The rows of a table behind their number.
#[cycle(write)]
fn write_rows(out: &mut Bytes, table: &Nested<'_>) -> Result<(), Memory>
    ensures { Writes result out.old (spelled_rows table.now.rows) out.new }
{
    write_count(out, table.len())?;
    for row in 0..table.len() {
        write_row(out, table, row)?;
    }
    Ok(())
}

/// The values of a row.
#[cycle(write)]
fn write_row(out: &mut Bytes, table: &Nested<'_>, row: usize) -> Result<(), Memory>
    requires whole { IsTable table.now }
    requires row_in { row < length table.now.rows }
    ensures { Writes result out.old (flat_map spelled_value (slice_index_or table.now.rows row [])) out.new }
{
    for col in 0..table.schema().len() {
        write_value(out, table, row, col)?;
    }
    Ok(())
}

/// The value at a row and a column.
#[cycle(write)]
fn write_value(out: &mut Bytes, table: &Nested<'_>, row: usize, col: usize) -> Result<(), Memory>
    requires whole { IsTable table.now }
    requires row_in { row < length table.now.rows }
    requires col_in { col < length table.now.schema }
    ensures { Writes result out.old (spelled_value (cell table.now.rows row col)) out.new }
{
    match table.lend(row, col) {
        Lent::I(number) => write_integer(out, number),
        Lent::L(number) => write_long(out, number),
        Lent::S(text) => write_counted(out, text),
        Lent::B(bytes) => write_counted(out, bytes),
        Lent::V(_) => write_rows(out, &table.inner(row, col)),
    }
}

/// Bytes behind their number.
fn write_counted(out: &mut Bytes, content: &[u8]) -> Result<(), Memory>
    requires { length content.now < 2 ^ 32 }
    ensures { Writes result out.old (counted content.now) out.new }
{
    write_count(out, content.len())?;
    out.push_slice(content)
}

/// A number of bytes, rows or views in four bytes.
fn write_count(out: &mut Bytes, count: usize) -> Result<(), Memory>
    requires { count < 2 ^ 32 }
    ensures { Writes result out.old (little_bytes 4 count) out.new }
{
    let mut field = [0; 4];
    LittleEndian::write_u32(&mut field, count as u32);
    out.push_slice(&field)
}

/// A number of kind I in four bytes.
fn write_integer(out: &mut Bytes, number: i32) -> Result<(), Memory>
    ensures { Writes result out.old (little_bytes 4 (cast_unsigned w32 number)) out.new }
{
    let mut field = [0; 4];
    LittleEndian::write_i32(&mut field, number);
    out.push_slice(&field)
}

/// A number of kind L in eight bytes.
fn write_long(out: &mut Bytes, number: i64) -> Result<(), Memory>
    ensures { Writes result out.old (little_bytes 8 (cast_unsigned w64 number)) out.new }
{
    let mut field = [0; 8];
    LittleEndian::write_i64(&mut field, number);
    out.push_slice(&field)
}
