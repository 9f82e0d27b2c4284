// The views of a directory.
ghost use Rattle.std.specs.Prelude.{◌≡◌, ◌+◌, ◌^◌, ◌<◌, ◌≤◌, length, map, IfErr, IfOk, IsErrOf};
ghost use Rattle.std.specs.List.{flat_map};
ghost use Rattle.host_io.specs.Calls.{CountsFaults, Looks};
ghost use Rattle.mk_value.specs.Heading.{heading_of};
ghost use Rattle.struct_text.specs.Spelling.{spelling};
ghost use Rattle.dir_codec.specs.Columns.{plain_entries, plain_view_entries};
ghost use Rattle.dir_codec.specs.Dir.{AreEntries, entries_from, spelled_entries, spelled_view};
ghost use Rattle.dir_codec.specs.Values.{view_of};
ghost use Rattle.commit_writes.specs.Blocks.{StandsAt};
ghost use Rattle.recovery.specs.Found.{AreEntriesOfViews, AreViewsFound, AreViewsFormed, EndsWithin, HasForm, HasLength, IsTableFound, IsTableRead, NamesUnreadable};

use crate::columns::read_table;
use crate::error::ColumnsError;
use dir_codec::{DirBody, DirView};
use host_io::Disk;
use mk_value::{Memory, Name, Schema, Text};
use segments::Shared;
use std::alloc::Global;
use struct_text::print;
use tables::{Table, share};
use view_store::{Names, Views};

/// Where the first view begins in a directory: behind the count of views.
const FIRST_VIEW: u64 = 4;

/// How many bytes a directory has of a view beside its structure text and its columns: the length of the text, and the row count.
const VIEW_LEN: u64 = 8;

/// How many bytes a structure text has.
fn structure_len(alloc: Global, name: &Name, schema: &Schema) -> Result<u64, Memory>
    ensures { IfOk result (λ len. len ≡ length (spelling name.now schema.now)) }
{
    let mut text = Text::new(alloc);
    print(name, schema, &mut text)?;
    Ok(text.len() as u64)
}

/// Reads the table of a view, of which the directory has the first column at this offset.
fn read_root_table<D: Disk>(
    alloc: Global,
    disk: &mut D,
    schema: &Schema,
    body: &DirBody,
    at: u64,
) -> Result<(Table, u64), ColumnsError>
    requires few { body.now.rows ≤ 16777216 }
    requires fits { EndsWithin D.tells (length (D.outside disk.old).now.disk.seen)
        (λ end. AreEntries end body.now.rows (heading_of schema.now) (entries_from body.now.cols)) }
    requires room { at + length (spelled_entries (entries_from body.now.cols)) < 2 ^ 64 }
    ensures counts { CountsFaults (IsErrOf result ColumnsError.Failed) (D.outside disk.old) (D.outside disk.new) }
    ensures same { D.tells → Looks (D.outside disk.old) (D.outside disk.new) }
    ensures next { IfOk result (λ r. r.1 ≡ at + length (spelled_entries (entries_from body.now.cols))) }
    ensures whole { IfOk result (λ r. HasForm schema.now body.now.rows r.0) }
    ensures made { IfOk result (λ r. IsTableFound HasLength (entries_from body.now.cols) r.0) }
    ensures table { D.tells → IfOk result (λ r.
        IsTableRead (D.outside disk.old).now.disk.seen schema.now body.now.cols body.now.rows at r.0) }
    ensures unreadable { D.tells → IfErr result (NamesUnreadable (D.outside disk.old).now.disk.seen
        (plain_entries (entries_from body.now.cols) (heading_of schema.now) at body.now.rows)) }
{
    let shared = Shared::of(alloc, schema.copy()?)?;
    read_table(alloc, disk, &shared, body, at)
}

/// Reads the views that a directory has.
pub(crate) fn read_views<D: Disk>(
    alloc: Global,
    disk: &mut D,
    views: &[DirView],
) -> Result<Views, ColumnsError>
    requires fits { EndsWithin D.tells (length (D.outside disk.old).now.disk.seen) (λ end. AreEntriesOfViews end (map view_of views.now)) }
    requires room { 4 + length (flat_map spelled_view (map view_of views.now)) < 2 ^ 64 }
    ensures counts { CountsFaults (IsErrOf result ColumnsError.Failed) (D.outside disk.old) (D.outside disk.new) }
    ensures same { D.tells → Looks (D.outside disk.old) (D.outside disk.new) }
    ensures formed { IfOk result (AreViewsFormed (map view_of views.now)) }
    ensures made { IfOk result (AreViewsFound HasLength (map view_of views.now)) }
    ensures found { D.tells → IfOk result (AreViewsFound (StandsAt (D.outside disk.old).now.disk.seen) (map view_of views.now)) }
    ensures unreadable { D.tells → IfErr result
        (NamesUnreadable (D.outside disk.old).now.disk.seen (plain_view_entries 4 (map view_of views.now))) }
{
    let mut names = Names::new(alloc);
    let mut tables = Vec::new(alloc);
    let mut at = FIRST_VIEW;
    for view in views {
        let structure = structure_len(alloc, &view.name, &view.schema)?;
        let columns = at + structure + VIEW_LEN;
        let (table, next) = read_root_table(alloc, disk, &view.schema, &view.body, columns)?;
        names.push(view.name.copy()?)?;
        tables.push(share(alloc, table)?)?;
        at = next;
    }
    Ok(Views::of(names, tables))
}
