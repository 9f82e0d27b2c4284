//! Views by name.
ghost use Rattle.std.specs.Prelude.{◌≡◌, ◌↔◌, ◌<◌, ◌≤◌, [], ◌∷◌, ◌++◌, length, map, position, All, IsSome, IfOk, MatchOption, MatchResult, OnOk, OnErr, ◌⊎◌, None, Some, Ok, Err};
ghost use Rattle.std.specs.Option.{option_map};
ghost use Rattle.std.specs.Result.{result_err};
ghost use Rattle.mk_value.specs.Limits.{max_rows, max_structure, max_views};
ghost use Rattle.mk_value.specs.Names.{same_bytes};
ghost use Rattle.mk_value.specs.Values.{datum_of};
ghost use Rattle.view_store.specs.Changes.{FitsSizes, edit_of};
ghost use Rattle.view_store.specs.Edits.{Edit, edited, table_at};
ghost use Rattle.view_store.specs.Refusals.{AnswersDue, due, due_in, look_due, look_due_in, schema_of};
ghost use Rattle.view_store.specs.Rests.{MayReplace, ViewsRestOn};
ghost use Rattle.struct_text.specs.Lengths.{structure_length};
ghost use Rattle.tables.specs.Rests.{RestsOn};
ghost use Rattle.tables.specs.Shapes.{HasHomes};
ghost use Rattle.tables.specs.Tables.{IsTable};
ghost use Rattle.view_store.specs.Views.{AreViews, IsRoot, edited_views, named, table_of, view_at, view_names, with_view, without_view};
ghost use Rattle.view_store.specs.declared.error.EditError.TheVariants as edit_error;

use crate::EditError;
use crate::change::Change;
use crate::check::check;
use crate::edit::{edit, edit_rows};
use crate::walk::{find_schema, find_table};
use mk_value::{Memory, Name, Path, Row, Schema, Sequence, Step, TableRead, Value};
use std::alloc::Global;
use std::marker::Model;
use tables::{Nested, Shared, Table, share};

/// The names of views, in the order in which they were made.
pub type Names = Sequence<Name>;

/// Views by name, in the order in which they were made, at most 1,024. Each is a shared table with its homes, and its structure text has
/// at most 1,048,576 bytes.
#[derive(Drop)]
pub struct Root {
    names: Names,
    tables: Vec<Shared>,
}

impl Model for Root {
    ghost use Rattle.std.specs.Prelude.{List};
    ghost use Rattle.view_store.specs.Views.{IsRoot, NamedTable, named, views_code};

    ghost Value = { List NamedTable };

    ghost coded = { views_code };

    ghost view = { λ r. named r.names r.tables.items };

    ghost invariant = { λ r. IsRoot r.names r.tables.items };
}

impl Root {
    /// A root without views.
    pub fn new(alloc: Global) -> Root
        ensures { result ≡ [] }
    {
        Root {
            names: Names::new(alloc),
            tables: Vec::new(alloc),
        }
    }

    /// The root of these names and tables, in order.
    pub fn of(names: Names, tables: Vec<Shared>) -> Root
        requires { IsRoot names tables.items }
        ensures { result ≡ named names tables.items }
    {
        Root { names, tables }
    }

    /// The names of the views, in order.
    pub fn names(&self) -> &Names
        ensures names { result.now ≡ view_names self.now }
        ensures whole { AreViews self.now }
    {
        &self.names
    }

    /// The tables of the views, in the order of their names.
    pub fn tables(&self) -> &[Shared]
        ensures tables { result.now ≡ map (λ v. v.table) self.now }
        ensures shaped { All (λ v. HasHomes v.table) self.now }
    {
        &self.tables
    }

    /// The table of the view of a name.
    pub fn table(&self, name: &Name) -> Option<&Table>
        ensures { MatchOption result (table_of self.now name.now ≡ None) (λ table. table_of self.now name.now ≡ Some table.now) }
    {
        match place_in(&self.names, name) {
            Some(at) => Some(self.tables[at].table()),
            None => None,
        }
    }

    /// Puts copies of a row, so many times, before the row at a place of the view that the path names. Values that are missing at
    /// the row's end are defaults. One row at the end of a view that nobody else holds costs its values. Else it costs the rows that
    /// are put in, and for each column of the tables on the path its list of segments and the segment at the place.
    ///
    /// # Errors
    ///
    /// The first that is due: `NoView`; `NoProp` where a property of the path is absent or the row has more values than there are
    /// properties; `WrongKind` where a step goes into no view or a value does not fit; `OutOfRange` with the size there, where a
    /// row of the path is not there or the place is past the end; `TooMany` with the size after the edit. Else `Memory`.
    pub fn insert_rows(
        &mut self,
        path: &Path,
        pos: usize,
        row: &Row,
        count: usize,
    ) -> Result<(), EditError>
        requires { count ≤ max_rows }
        ensures due { AnswersDue (due self.old path.now (Edit.insert pos row.now count)) result }
        ensures ok { OnOk result (self.new ≡ edited_views self.old path.now (Edit.insert pos row.now count)) }
        ensures err { OnErr result (self.new ≡ self.old) }
        ensures rests { ViewsRestOn self.new self.old }
    {
        self.edit(path, Change::Insert(pos, row, count))
    }

    /// Gives a property of one row of the view that the path names another value.
    ///
    /// # Errors
    ///
    /// The first that is due: `NoView`; `NoProp` where a property of the path, or the one to be set, is absent; `WrongKind` where
    /// a step goes into no view or the value does not fit; `OutOfRange` with the size there. Else `Memory`.
    pub fn set(
        &mut self,
        path: &Path,
        row: usize,
        prop: &Name,
        value: &Value,
    ) -> Result<(), EditError>
        ensures due { AnswersDue (due self.old path.now (Edit.set row prop.now (datum_of value.now))) result }
        ensures ok { OnOk result (self.new ≡ edited_views self.old path.now (Edit.set row prop.now (datum_of value.now))) }
        ensures err { OnErr result (self.new ≡ self.old) }
        ensures rests { ViewsRestOn self.new self.old }
    {
        self.edit(path, Change::Set(row, prop, value))
    }

    /// Removes so many rows from a place on in the view that the path names.
    ///
    /// # Errors
    ///
    /// The first that is due: `NoView`; `NoProp` where a property of the path is absent; `WrongKind` where a step goes into no
    /// view; `OutOfRange` with the size there, where a row of the path is not there or the rows to be removed pass the end.
    /// Else `Memory`.
    pub fn remove_rows(&mut self, path: &Path, pos: usize, count: usize) -> Result<(), EditError>
        ensures due { AnswersDue (due self.old path.now (Edit.remove pos count)) result }
        ensures ok { OnOk result (self.new ≡ edited_views self.old path.now (Edit.remove pos count)) }
        ensures err { OnErr result (self.new ≡ self.old) }
        ensures rests { ViewsRestOn self.new self.old }
    {
        self.edit(path, Change::Remove(pos, count))
    }

    /// Replaces the view of a name in place, or adds it last.
    ///
    /// # Errors
    ///
    /// `Memory`.
    pub fn put_view(&mut self, name: &Name, table: Table) -> Result<(), Memory>
        requires room { IsSome (table_of self.old name.now) ⊎ (length self.old < max_views) }
        requires short { structure_length name.now table.schema ≤ max_structure }
        ensures ok { OnOk result (self.new ≡ with_view self.old name.now table) }
        ensures err { OnErr result (self.new ≡ self.old) }
        ensures rests { MayReplace table (table_of self.old name.now) → ViewsRestOn self.new self.old }
    {
        let _rows = table.len();
        let _name = name.as_bytes();
        let table = share(*self.tables.allocator(), table)?;
        match place_in(&self.names, name) {
            Some(at) => {
                self.tables[at] = table;
                Ok(())
            }
            None => push_view(&mut self.names, &mut self.tables, name, table),
        }
    }

    /// Removes the view of a name.
    ///
    /// # Errors
    ///
    /// `NoView` where there is none.
    pub fn drop_view(&mut self, name: &Name) -> Result<(), EditError>
        ensures no_view { (result ≡ Err edit_error.NoView) ↔ (table_of self.old name.now ≡ None) }
        ensures no_view_alone { OnErr result (result ≡ Err edit_error.NoView) }
        ensures ok { OnOk result (self.new ≡ without_view self.old name.now) }
        ensures err { OnErr result (self.new ≡ self.old) }
        ensures rests { ViewsRestOn self.new self.old }
    {
        let Some(at) = place_in(&self.names, name) else {
            return Err(EditError::NoView);
        };
        let _name = self.names.remove(at);
        let _table = self.tables.remove(at);
        Ok(())
    }

    /// The view that the path names, to be shared. Later edits of the root leave it as it is.
    ///
    /// # Errors
    ///
    /// The first that is due, as of `table_at`. Else `Memory`.
    pub fn view(&self, path: &Path) -> Result<Shared, EditError>
        ensures due { AnswersDue (look_due self.now path.now) result }
        ensures ok { IfOk result (λ shared. view_at self.now path.now ≡ Some shared) }
    {
        Ok(hold(self.table_at(path)?)?)
    }

    /// The schema of the view that the path names. No row is looked at, and no memory is taken.
    ///
    /// # Errors
    ///
    /// The first that is due: `NoView`; `NoProp` where a property of the path is absent; `WrongKind` where a step goes into no
    /// view.
    pub fn schema(&self, path: &Path) -> Result<&Schema, EditError>
        ensures { MatchResult result (λ schema. schema_of self.now path.now ≡ Ok schema.now) (λ e. schema_of self.now path.now ≡ Err e) }
    {
        let Some(at) = place_in(&self.names, path.name()) else {
            return Err(EditError::NoView);
        };
        find_schema(self.tables[at].schema(), path.steps())
    }

    /// The view that the path names. No memory is taken.
    ///
    /// # Errors
    ///
    /// The first that is due: `NoView`; `NoProp` where a property of the path is absent; `WrongKind` where a step goes into no
    /// view; `OutOfRange` with the size there, where a row of the path is not there.
    pub fn table_at(&self, path: &Path) -> Result<Nested<'_>, EditError>
        ensures due { result_err result ≡ look_due self.now path.now }
        ensures ok { IfOk result (λ table. view_at self.now path.now ≡ Some table) }
    {
        let Some(at) = place_in(&self.names, path.name()) else {
            return Err(EditError::NoView);
        };
        look(&self.tables[at], path.steps())
    }

    /// The number of rows of the view that the path names, at most 16,777,216. No memory is taken.
    ///
    /// # Errors
    ///
    /// The first that is due, as of `table_at`.
    pub fn size(&self, path: &Path) -> Result<usize, EditError>
        ensures due { result_err result ≡ look_due self.now path.now }
        ensures ok { IfOk result (λ size. option_map (λ t. length t.rows) (view_at self.now path.now) ≡ Some size) }
    {
        Ok(self.table_at(path)?.size())
    }

    /// A root of the same names, rows and homes, whose tables are the very same.
    ///
    /// # Errors
    ///
    /// `Memory`.
    pub fn same(&self) -> Result<Root, Memory>
        ensures { IfOk result (λ root. root ≡ self.now) }
    {
        let alloc = *self.tables.allocator();
        let mut names = Names::new(alloc);
        for name in self.names.as_slice() {
            names.push(name.copy()?)?;
        }
        let tables = Vec::from_clones(alloc, &self.tables)?;
        Ok(Root { names, tables })
    }

    /// Edits the view that the path names.
    fn edit(&mut self, path: &Path, change: Change<'_>) -> Result<(), EditError>
        requires { FitsSizes change }
        ensures due { AnswersDue (due self.old path.now (edit_of change.entry)) result }
        ensures ok { OnOk result (self.new ≡ edited_views self.old path.now (edit_of change.entry)) }
        ensures err { OnErr result (self.new ≡ self.old) }
        ensures rests { ViewsRestOn self.new self.old }
    {
        let Some(at) = place_in(&self.names, path.name()) else {
            return Err(EditError::NoView);
        };
        let alloc = *self.tables.allocator();
        edit_table(alloc, &mut self.tables[at], path.steps(), change)?;
        Ok(())
    }
}

/// Edits the rows to which the steps lead from a table. Where there are no steps and nobody else holds the table, it is edited in place.
fn edit_table(
    alloc: Global,
    table: &mut Shared,
    steps: &[Step],
    change: Change<'_>,
) -> Result<(), EditError>
    requires { FitsSizes change }
    ensures due { AnswersDue (due_in table.old steps.now (edit_of change.entry)) result }
    ensures ok { OnOk result (table.new ≡ edited steps.now (edit_of change.entry) table.old) }
    ensures err { OnErr result (table.new ≡ table.old) }
    ensures rests { OnOk result (RestsOn table.new table.old) }
    ensures whole { OnOk result (IsTable table.new) }
    ensures homes { OnOk result (HasHomes table.new) }
{
    check(table, steps, change)?;
    if steps.is_empty() {
        edit_rows(alloc, table, change)?;
    } else {
        *table = edit(alloc, table, steps, change)?;
    }
    // Each table is whole.
    let _rows = table.table().len();
    Ok(())
}

/// The table to which the steps lead from a table.
fn look<'a>(table: &'a Shared, steps: &[Step]) -> Result<Nested<'a>, EditError>
    ensures due { result_err result ≡ look_due_in table.now steps.now }
    ensures ok { IfOk result (λ found. found ≡ table_at steps.now table.now) }
{
    let _schema = find_schema(table.schema(), steps)?;
    find_table(Nested::of(table), steps)
}

/// The table, to be held.
fn hold(table: Nested<'_>) -> Result<Shared, Memory>
    ensures { IfOk result (λ shared. shared ≡ table.entry) }
{
    table.to_shared()
}

/// The place of a name among names.
fn place_in(names: &Names, name: &Name) -> Option<usize>
    ensures { result ≡ position (λ known. same_bytes known name.now) names.now }
{
    names
        .as_slice()
        .iter()
        .position(|known| known.as_bytes() == name.as_bytes())
}

/// Adds a name and its table last.
fn push_view(
    names: &mut Names,
    tables: &mut Vec<Shared>,
    name: &Name,
    table: Shared,
) -> Result<(), Memory>
    ensures names { OnOk result (names.new ≡ names.old ++ name.now ∷ []) }
    ensures tables { OnOk result (tables.new.items ≡ tables.old.items ++ table ∷ []) }
    ensures err_names { OnErr result (names.new ≡ names.old) }
    ensures err_tables { OnErr result (tables.new.items ≡ tables.old.items) }
{
    let name = name.copy()?;
    tables.push(table)?;
    if let Err(error) = names.push(name) {
        let _table = tables.pop();
        return Err(error);
    }
    Ok(())
}
