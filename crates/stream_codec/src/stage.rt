//! What is due of a stream, and how it is taken.
ghost use Rattle.std.specs.Prelude.{◌≡◌, ◌⊎◌, ◌↔◌, ◌+◌, ◌<◌, [], List, ℕ, length, ◌^◌, IfErr, IfOk, IsTrue, OnOk, MatchOption, MatchResult};
ghost use Rattle.mk_value.specs.Heading.{Attribute};
ghost use Rattle.struct_text.specs.Spelling.{Spells};
ghost use Rattle.stream_codec.specs.declared.error.LoadError.TheVariants as load_error;
ghost use Rattle.stream_codec.specs.declared.stage.Stage.TheVariants as stages;
ghost use Rattle.stream_codec.specs.Stages.{IsLoading, IsNextLen, IsStage, Passes, due_in};
ghost use Rattle.stream_codec.specs.RowsInPlace.{EndsRow, HasNextLen, IsRows, MayEndRow, RefusesInPlace, TakesInPlace};
ghost use Rattle.stream_codec.specs.Steps.{Refuses};
ghost use Rattle.stream_codec.specs.Stream.{signature};
ghost use Rattle.view_store.specs.Views.{NamedTable};

use crate::counts::read_count;
use crate::error::LoadError;
use crate::partial_table::PartialTable;
use crate::partial_view::{PartialView, Settled, next_field_len, settle, take_field};
use crate::saving::SIGNATURE;
use mk_value::{MAX_ROWS, MAX_STRUCTURE, MAX_VIEWS, Memory, Name, Schema};
use std::alloc::Global;
use std::mem;
use struct_text::{StructError, parse};
use view_store::{Root, empty_table};

/// What is due next of a stream. The views that came whole stand in a root beside it.
#[derive(Drop)]
pub(crate) enum Stage {
    /// The opening.
    Opening,
    /// The number of views.
    ViewCount,
    /// So many views more, or the end where there are none: the length of a structure text.
    Views {
        left: u32,
    },
    /// A structure text of so many bytes, at least one, and so many views behind it.
    Structure {
        len: u32,
        left: u32,
    },
    /// The number of rows of a view, and so many views behind it.
    RowCount {
        name: Name,
        schema: Schema,
        left: u32,
    },
    /// The rows of a view, and so many views behind it.
    Rows {
        view: PartialView,
        left: u32,
    },
}

/// How many bytes the field has that is due, or nothing at the end.
pub(crate) fn field_len(stage: &Stage) -> Option<usize>
    requires { IsStage stage.now }
    ensures { (views : List NamedTable) → MatchOption result (due_in views stage.now ≡ []) (IsNextLen (due_in views stage.now)) }
{
    match stage {
        Stage::Opening => Some(8),
        Stage::ViewCount => Some(4),
        Stage::Views { left: 0 } => None,
        Stage::Views { .. } => Some(4),
        Stage::Structure { len, .. } => Some(*len as usize),
        Stage::RowCount { .. } => Some(4),
        Stage::Rows { view, .. } => Some(next_field_len(view)),
    }
}

/// Takes the field that is due, which stands at this place. A field of rows is taken in place.
pub(crate) fn take(
    stage: &mut Stage,
    root: &mut Root,
    alloc: Global,
    field: &[u8],
    place: u64,
) -> Result<(), LoadError>
    requires whole { IsLoading root.old stage.old }
    requires long { IsNextLen (due_in root.old stage.old) (length field.now) }
    requires fits { place + length field.now < 2 ^ 64 }
    ensures taken { OnOk result (Passes root.old stage.old field.now root.new stage.new) }
    ensures refused { IfErr result (Refuses (due_in root.old stage.old) field.now place) }
{
    if is_rows(stage) {
        return take_row_field(stage, root, alloc, field, place);
    }
    let before = mem::replace(stage, Stage::Opening);
    *stage = take_outside(before, root, alloc, field, place)?;
    Ok(())
}

/// Whether rows come next.
fn is_rows(stage: &Stage) -> bool
    ensures { IsTrue result ↔ IsRows stage.now }
{
    matches!(stage, Stage::Rows { .. })
}

/// Takes a field that is not one of rows.
fn take_outside(
    stage: Stage,
    root: &mut Root,
    alloc: Global,
    field: &[u8],
    place: u64,
) -> Result<Stage, LoadError>
    requires outside { IsRows stage → ⊥ }
    requires whole { IsLoading root.old stage }
    requires long { IsNextLen (due_in root.old stage) (length field.now) }
    requires fits { place + length field.now < 2 ^ 64 }
    ensures taken { IfOk result (Passes root.old stage field.now root.new) }
    ensures refused { IfErr result (Refuses (due_in root.old stage) field.now place) }
{
    match stage {
        Stage::Opening => take_opening(field, place),
        Stage::ViewCount => take_view_count(field, place),
        Stage::Views { left } => take_text_length(left, field, place),
        Stage::Structure { left, .. } => take_structure(root, alloc, left, field, place),
        Stage::RowCount { name, schema, left } => {
            take_row_count(root, alloc, name, schema, left, field, place)
        }
        Stage::Rows { .. } => unreachable!(),
    }
}

/// Takes the opening.
fn take_opening(field: &[u8], place: u64) -> Result<Stage, LoadError>
    requires { length field.now ≡ 8 }
    ensures taken { IfOk result (Passes [] stages.Opening field.now []) }
    ensures refused { IfErr result (Refuses (due_in [] stages.Opening) field.now place) }
{
    if is_opening(field) {
        Ok(Stage::ViewCount)
    } else {
        Err(LoadError::At(place))
    }
}

/// Whether the bytes are those with which each stream begins.
fn is_opening(bytes: &[u8]) -> bool
    ensures { IsTrue result ↔ (bytes.now ≡ signature) }
{
    bytes == SIGNATURE.as_slice()
}

/// Takes the number of views.
fn take_view_count(field: &[u8], place: u64) -> Result<Stage, LoadError>
    requires { length field.now ≡ 4 }
    ensures taken { IfOk result (Passes [] stages.ViewCount field.now []) }
    ensures refused { IfErr result (Refuses (due_in [] stages.ViewCount) field.now place) }
{
    let count = read_count(field, MAX_VIEWS as u32, place)?;
    Ok(Stage::Views { left: count })
}

/// Takes the length of a structure text, where so many views come. A text of no bytes is refused at its own place.
fn take_text_length(left: u32, field: &[u8], place: u64) -> Result<Stage, LoadError>
    requires some { 0 < left }
    requires long { length field.now ≡ 4 }
    requires fits { place + 4 < 2 ^ 64 }
    ensures taken { (views : List NamedTable) → IsLoading views (stages.Views left) → IfOk result (Passes views (stages.Views left) field.now views) }
    ensures refused { (views : List NamedTable) → IfErr result (Refuses (due_in views (stages.Views left)) field.now place) }
{
    let len = read_count(field, MAX_STRUCTURE as u32, place)?;
    if len == 0 {
        return Err(LoadError::At(place + 4));
    }
    Ok(Stage::Structure {
        len,
        left: left - 1,
    })
}

/// Takes a structure text, and so many views come behind it. One that names a view that came is refused.
fn take_structure(
    root: &Root,
    alloc: Global,
    left: u32,
    field: &[u8],
    place: u64,
) -> Result<Stage, LoadError>
    requires whole { IsLoading root.now (stages.Structure (length field.now) left) }
    ensures taken { IfOk result (Passes root.now (stages.Structure (length field.now) left) field.now root.now) }
    ensures refused { IfErr result (Refuses (due_in root.now (stages.Structure (length field.now) left)) field.now place) }
{
    let (name, schema) = read_structure(alloc, field, place)?;
    if root.table(&name).is_some() {
        return Err(LoadError::At(place));
    }
    Ok(Stage::RowCount { name, schema, left })
}

/// The name and the schema that a structure text spells.
fn read_structure(alloc: Global, field: &[u8], place: u64) -> Result<(Name, Schema), LoadError>
    ensures { MatchResult result (λ r. Spells field.now r.0 r.1)
        (λ e. (e ≡ load_error.Memory) ⊎ ((e ≡ load_error.At place)
        × ((name : List ℕ) (schema : List Attribute) → Spells field.now name schema → ⊥))) }
{
    let Ok(text) = str::from_utf8(field) else {
        return Err(LoadError::At(place));
    };
    match parse(alloc, text) {
        Ok(read) => Ok(read),
        Err(StructError::Memory) => Err(LoadError::Memory),
        Err(_) => Err(LoadError::At(place)),
    }
}

/// Takes the number of rows of a view.
fn take_row_count(
    root: &mut Root,
    alloc: Global,
    name: Name,
    schema: Schema,
    left: u32,
    field: &[u8],
    place: u64,
) -> Result<Stage, LoadError>
    requires whole { IsLoading root.old (stages.RowCount name schema left) }
    requires long { length field.now ≡ 4 }
    ensures taken { IfOk result (Passes root.old (stages.RowCount name schema left) field.now root.new) }
    ensures refused { IfErr result (Refuses (due_in root.old (stages.RowCount name schema left)) field.now place) }
{
    let count = read_count(field, MAX_ROWS as u32, place)?;
    if count == 0 {
        root.put_view(&name, empty_table(alloc, &schema)?)?;
        return Ok(Stage::Views { left });
    }
    let table = PartialTable::start(alloc, &schema, count)?;
    let view = PartialView {
        name,
        around: Vec::new(alloc),
        table,
        content: None,
    };
    Ok(Stage::Rows { view, left })
}

/// Takes a field of the rows of a view.
fn take_row_field(
    stage: &mut Stage,
    root: &mut Root,
    alloc: Global,
    field: &[u8],
    place: u64,
) -> Result<(), LoadError>
    requires rows { IsRows stage.old }
    requires whole { IsLoading root.old stage.old }
    requires long { IsNextLen (due_in root.old stage.old) (length field.now) }
    ensures taken { OnOk result (Passes root.old stage.old field.now root.new stage.new) }
    ensures refused { IfErr result (Refuses (due_in root.old stage.old) field.now place) }
{
    if take_in_place(stage, alloc, field, place)? {
        end_row(stage, root, alloc)?;
    }
    Ok(())
}

/// Takes a field of the rows of a view; and whether the row is whole then.
fn take_in_place(
    stage: &mut Stage,
    alloc: Global,
    field: &[u8],
    place: u64,
) -> Result<bool, LoadError>
    requires rows { IsRows stage.old }
    requires whole { IsStage stage.old }
    requires long { HasNextLen stage.old (length field.now) }
    ensures taken { IfOk result (TakesInPlace stage.old field.now stage.new) }
    ensures refused { IfErr result (RefusesInPlace stage.old field.now place) }
{
    let Stage::Rows { view, .. } = stage else {
        unreachable!()
    };
    take_field(view, alloc, field, place)?;
    Ok(view.table.is_row_whole())
}

/// Puts the row, which is whole, behind those that came. A view that is whole then goes to those that came.
fn end_row(stage: &mut Stage, root: &mut Root, alloc: Global) -> Result<(), Memory>
    requires { MayEndRow root.old stage.old }
    ensures { OnOk result (EndsRow root.old stage.old root.new stage.new) }
{
    let Stage::Rows { view, left } = mem::replace(stage, Stage::Opening) else {
        unreachable!()
    };
    match settle(alloc, view)? {
        Settled::UnderWay(view) => *stage = Stage::Rows { view, left },
        Settled::Whole(name, table) => {
            // Each table is whole.
            let _rows = table.len();
            root.put_view(&name, table)?;
            *stage = Stage::Views { left };
        }
    }
    Ok(())
}
