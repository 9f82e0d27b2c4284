// Directories as bytes: each call appends what a part is spelled as.
ghost use Rattle.std.specs.Prelude.{◌≡◌, ◌++◌, length, map, IfOk, OnOk};
ghost use Rattle.byteorder.specs.Endian.{little_bytes};
ghost use Rattle.dir_codec.specs.Dir.{Entry, bodies_from, entries_from, spelled, spelled_bodies, spelled_entries, spelled_entry, spelled_memo, spelled_note, spelled_notes, spelled_span, spelled_view};
ghost use Rattle.dir_codec.specs.Parts.{spelled_memos, spelled_numbers, spelled_structure, spelled_views};
ghost use Rattle.dir_codec.specs.Values.{dir_of, entry_of, note_of, view_of};

use crate::dir::{
    Dir, DirBodies, DirBody, DirCol, DirCols, DirView, DirViews, Memo, Memos, Note, Notes,
};
use bit_pack::Width;
use byteorder::{ByteOrder, LittleEndian};
use mk_value::{Bytes, Memory, Name, Schema, Span, Text};
use std::alloc::Global;
use struct_text::print;

/// The bytes of a directory, in time and memory linear in their number.
///
/// A value that may stand under no mark is written all the same, as it is spelled; `decode` never gives it back.
///
/// # Errors
///
/// `Memory` where memory ran out.
pub fn encode(alloc: Global, dir: &Dir) -> Result<Bytes, Memory>
    ensures { IfOk result (λ bytes. bytes.bytes ≡ spelled (dir_of dir.now)) }
{
    let mut out = Bytes::new(alloc);
    write_views(alloc, &mut out, &dir.views)?;
    write_notes(&mut out, &dir.notes)?;
    Ok(out)
}

/// A number in eight bytes.
fn write_8(out: &mut Bytes, number: u64) -> Result<(), Memory>
    ensures { OnOk result (out.new.bytes ≡ out.old.bytes ++ little_bytes 8 number) }
{
    let mut field = [0; 8];
    LittleEndian::write_u64(&mut field, number);
    out.push_slice(&field)
}

/// The lowest four bytes of a number.
fn write_4(out: &mut Bytes, number: u64) -> Result<(), Memory>
    ensures { OnOk result (out.new.bytes ≡ out.old.bytes ++ little_bytes 4 number) }
{
    let mut field = [0; 8];
    LittleEndian::write_u64(&mut field, number);
    out.push_slice(&field[..4])
}

fn write_span(out: &mut Bytes, span: &Span) -> Result<(), Memory>
    ensures { OnOk result (out.new.bytes ≡ out.old.bytes ++ spelled_span span.now) }
{
    write_8(out, span.place)?;
    write_8(out, span.len)
}

fn write_memo(out: &mut Bytes, memo: &Memo) -> Result<(), Memory>
    ensures { OnOk result (out.new.bytes ≡ out.old.bytes ++ spelled_memo memo.now) }
{
    write_4(out, u64::from(memo.row))?;
    write_span(out, &memo.span)
}

fn write_memos(out: &mut Bytes, memos: &Memos) -> Result<(), Memory>
    ensures { OnOk result (out.new.bytes ≡ out.old.bytes ++ (little_bytes 4 (length memos.now) ++ spelled_memos memos.now)) }
{
    write_4(out, memos.len() as u64)?;
    for memo in memos.as_slice() {
        write_memo(out, memo)?;
    }
    Ok(())
}

/// A width, and the span of the block of numbers of that width.
fn write_numbers(out: &mut Bytes, width: Width, block: &Span) -> Result<(), Memory>
    ensures { OnOk result (out.new.bytes ≡ out.old.bytes ++ spelled_numbers (width, block.now)) }
{
    out.push(width.bits())?;
    write_span(out, block)
}

/// A column of texts or byte strings.
fn write_strings(
    out: &mut Bytes,
    width: Width,
    sizes: &Span,
    short: &Span,
    memos: &Memos,
) -> Result<(), Memory>
    ensures { OnOk result (out.new.bytes ≡ out.old.bytes ++ spelled_entry (Entry.strings width sizes.now short.now memos.now)) }
{
    write_numbers(out, width, sizes)?;
    write_span(out, short)?;
    write_memos(out, memos)
}

#[cycle(write)]
fn write_column(out: &mut Bytes, column: &DirCol) -> Result<(), Memory>
    ensures { OnOk result (out.new.bytes ≡ out.old.bytes ++ spelled_entry (entry_of column.now)) }
{
    match column {
        DirCol::Ints { width, span } => write_numbers(out, *width, span),
        DirCol::Blobs {
            width,
            sizes,
            short,
            memos,
        } => write_strings(out, *width, sizes, short, memos),
        DirCol::Views(bodies) => write_bodies(out, bodies),
    }
}

#[cycle(write)]
fn write_columns(out: &mut Bytes, columns: &DirCols) -> Result<(), Memory>
    ensures { OnOk result (out.new.bytes ≡ out.old.bytes ++ spelled_entries (entries_from columns.now)) }
{
    for column in columns.as_slice() {
        write_column(out, column)?;
    }
    Ok(())
}

#[cycle(write)]
fn write_bodies(out: &mut Bytes, bodies: &DirBodies) -> Result<(), Memory>
    ensures { OnOk result (out.new.bytes ≡ out.old.bytes ++ spelled_bodies (bodies_from bodies.now)) }
{
    for body in bodies.as_slice() {
        write_body(out, body)?;
    }
    Ok(())
}

#[cycle(write)]
fn write_body(out: &mut Bytes, body: &DirBody) -> Result<(), Memory>
    ensures { OnOk result (out.new.bytes ≡ out.old.bytes
        ++ (little_bytes 4 body.now.rows ++ spelled_entries (entries_from body.now.cols))) }
{
    write_4(out, u64::from(body.rows))?;
    write_columns(out, &body.cols)
}

/// A structure text, behind its length.
fn write_structure(
    alloc: Global,
    out: &mut Bytes,
    name: &Name,
    schema: &Schema,
) -> Result<(), Memory>
    ensures { OnOk result (out.new.bytes ≡ out.old.bytes ++ spelled_structure name.now schema.now) }
{
    let mut text = Text::new(alloc);
    print(name, schema, &mut text)?;
    write_4(out, text.len() as u64)?;
    out.push_slice(text.as_str().as_bytes())
}

fn write_view(alloc: Global, out: &mut Bytes, view: &DirView) -> Result<(), Memory>
    ensures { OnOk result (out.new.bytes ≡ out.old.bytes ++ spelled_view (view_of view.now)) }
{
    write_structure(alloc, out, &view.name, &view.schema)?;
    write_body(out, &view.body)
}

fn write_views(alloc: Global, out: &mut Bytes, views: &DirViews) -> Result<(), Memory>
    ensures { OnOk result (out.new.bytes ≡ out.old.bytes ++ spelled_views views.now) }
{
    write_4(out, views.len() as u64)?;
    for view in views.as_slice() {
        write_view(alloc, out, view)?;
    }
    Ok(())
}

fn write_note(out: &mut Bytes, note: &Note) -> Result<(), Memory>
    ensures { OnOk result (out.new.bytes ≡ out.old.bytes ++ spelled_note (note_of note.now)) }
{
    write_8(out, note.number)?;
    write_4(out, note.text.len() as u64)?;
    out.push_slice(note.text.as_str().as_bytes())
}

/// The notes behind their count, or nothing.
fn write_notes(out: &mut Bytes, notes: &Notes) -> Result<(), Memory>
    ensures { OnOk result (out.new.bytes ≡ out.old.bytes ++ spelled_notes (map note_of notes.now)) }
{
    if notes.is_empty() {
        return Ok(());
    }
    write_4(out, notes.len() as u64)?;
    for note in notes.as_slice() {
        write_note(out, note)?;
    }
    Ok(())
}
