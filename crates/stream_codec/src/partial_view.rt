//! Views that are filled row by row.
ghost use Rattle.std.specs.Prelude.{◌≡◌, ◌<◌, [], ◌∷◌, ◌++◌, length, Some, None, IfErr, IfOk, OnOk};
ghost use Rattle.stream_codec.specs.Fields.{field_len, value_due};
ghost use Rattle.stream_codec.specs.Progress.{next_domain};
ghost use Rattle.stream_codec.specs.Steps.{Refuses};
ghost use Rattle.stream_codec.specs.Values.{AwaitsRows};
ghost use Rattle.stream_codec.specs.Settling.{Settles};
ghost use Rattle.stream_codec.specs.ViewProgress.{IsOpened, IsPartialView, Takes, due_of_view, next_len};

use crate::error::LoadError;
use crate::partial_table::PartialTable;
use crate::values::{Found, first_field_len, read_content, read_first};
use mk_value::{Kind, Memory, Name};
use std::alloc::Global;
use std::mem;
use tables::{Table, share};

/// A view under way: the table whose row is coming, and the tables around it, the outermost first.
#[derive(Drop)]
pub(crate) struct PartialView {
    pub(crate) name: Name,
    pub(crate) around: Vec<PartialTable>,
    pub(crate) table: PartialTable,
    /// The length of the content that comes next, where it is known.
    pub(crate) content: Option<u32>,
}

/// How many bytes the field has that is due.
pub(crate) fn next_field_len(view: &PartialView) -> usize
    requires unfinished { length view.now.table.row < length view.now.table.schema }
    requires whole { IsPartialView view.now }
    ensures value { result ≡ next_len view.now }
    ensures some { 0 < result }
{
    match view.content {
        Some(len) => len as usize,
        None => first_field_len(view.table.kind()),
    }
}

/// Takes the field that is due, which stands at this place. After an error the view is of no use.
pub(crate) fn take_field(
    view: &mut PartialView,
    alloc: Global,
    field: &[u8],
    place: u64,
) -> Result<(), LoadError>
    requires unfinished { length view.old.table.row < length view.old.table.schema }
    requires whole { IsPartialView view.old }
    requires long { length field.now ≡ next_len view.old }
    ensures taken { OnOk result (Takes view.old field.now view.new) }
    ensures refused { IfErr result (Refuses (due_of_view view.old) field.now place) }
{
    match view.content {
        Some(_) => take_content(view, alloc, field, place),
        None => take_first(view, alloc, field, place),
    }
}

/// Takes the content of a value.
fn take_content(
    view: &mut PartialView,
    alloc: Global,
    field: &[u8],
    place: u64,
) -> Result<(), LoadError>
    requires content { view.old.content ≡ Some (length field.now) }
    requires whole { IsPartialView view.old }
    ensures taken { OnOk result (Takes view.old field.now view.new) }
    ensures refused { IfErr result (Refuses (due_of_view view.old) field.now place) }
{
    let value = read_content(alloc, view.table.kind(), field, place)?;
    view.content = None;
    view.table.push(value)?;
    Ok(())
}

/// Takes the first field of a value.
fn take_first(
    view: &mut PartialView,
    alloc: Global,
    field: &[u8],
    place: u64,
) -> Result<(), LoadError>
    requires unfinished { length view.old.table.row < length view.old.table.schema }
    requires content { view.old.content ≡ None }
    requires whole { IsPartialView view.old }
    requires long { length field.now ≡ field_len (value_due (next_domain view.old.table)) }
    ensures taken { OnOk result (Takes view.old field.now view.new) }
    ensures refused { IfErr result (Refuses (due_of_view view.old) field.now place) }
{
    match read_first(alloc, view.table.kind(), field, place)? {
        Found::Whole(value) => view.table.push(value)?,
        Found::Content(len) => view.content = Some(len),
        Found::Rows(count) => open_inner(view, alloc, count)?,
    }
    Ok(())
}

/// Goes into the table of so many rows that stands in the row that is coming.
fn open_inner(view: &mut PartialView, alloc: Global, count: u32) -> Result<(), Memory>
    requires unfinished { length view.old.table.row < length view.old.table.schema }
    requires awaits { AwaitsRows count (next_domain view.old.table) }
    ensures name { OnOk result (view.new.name ≡ view.old.name) }
    ensures content { OnOk result (view.new.content ≡ view.old.content) }
    ensures inner { OnOk result (IsOpened count view.old.table view.new.table) }
    ensures around { OnOk result (view.new.around.items ≡ view.old.around.items ++ view.old.table ∷ []) }
{
    let Kind::V(schema) = view.table.kind() else {
        unreachable!()
    };
    let inner = PartialTable::start(alloc, schema, count)?;
    let outer = mem::replace(&mut view.table, inner);
    view.around.push(outer)?;
    Ok(())
}

/// A view after a field of it.
#[derive(Drop)]
pub(crate) enum Settled {
    /// More of its fields are due.
    UnderWay(PartialView),
    /// It is whole: its name and its table.
    Whole(Name, Table),
}

/// Puts the row that is coming, where it is whole, behind the rows that came, and a table that is whole into the row around it.
pub(crate) fn settle(alloc: Global, view: PartialView) -> Result<Settled, Memory>
    requires { IsPartialView view }
    ensures { IfOk result (Settles view) }
{
    if !view.table.is_row_whole() {
        return Ok(Settled::UnderWay(view));
    }
    let PartialView {
        name,
        mut around,
        table,
        content: _,
    } = view;
    if !table.is_last_row() {
        let table = table.next_row(alloc)?;
        return Ok(Settled::UnderWay(PartialView {
            name,
            around,
            table,
            content: None,
        }));
    }
    let whole = table.end()?;
    let Some(mut table) = around.pop() else {
        return Ok(Settled::Whole(name, whole));
    };
    table.push_table(alloc, share(alloc, whole)?)?;
    settle(
        alloc,
        PartialView {
            name,
            around,
            table,
            content: None,
        },
    )
}
