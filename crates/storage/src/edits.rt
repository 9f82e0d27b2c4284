//! Edits of the views of a store.
ghost use Rattle.std.specs.Prelude.{◌≡◌, ◌⊎◌, ◌<◌, ◌≤◌, ◌↔◌, length, IfOk, IsSome, OnErr, OnOk, Err, None};
ghost use Rattle.mk_value.specs.Limits.{max_rows, max_structure, max_views};
ghost use Rattle.mk_value.specs.Values.{datum_of};
ghost use Rattle.struct_text.specs.Lengths.{structure_length};
ghost use Rattle.view_store.specs.Edits.{Edit};
ghost use Rattle.view_store.specs.Refusals.{AnswersDue, due};
ghost use Rattle.view_store.specs.Rests.{MayReplace, ViewsRestOn};
ghost use Rattle.view_store.specs.Views.{edited_views, table_of, with_view, without_view};
ghost use Rattle.view_store.specs.declared.error.EditError.TheVariants as edit_error;
ghost use Rattle.storage.specs.Stored.{rolled_back, with_views};

use crate::Store;
use mk_value::{Memory, Name, Path, Row, Value};
use view_store::{EditError, Root, Table};

impl Store {
    /// Puts copies of a row, so many times, before the row at a place of the view that the path names, as `Root::insert_rows`.
    ///
    /// # Errors
    ///
    /// Those of `Root::insert_rows`, and the store is as it was. `Memory` may come for each of them.
    pub fn insert_rows(
        &mut self,
        path: &Path,
        pos: usize,
        row: &Row,
        count: usize,
    ) -> Result<(), EditError>
        requires { count ≤ max_rows }
        ensures due { AnswersDue (due self.old.views path.now (Edit.insert pos row.now count)) result ⊎ (result ≡ Err edit_error.Memory) }
        ensures ok { OnOk result (self.new ≡ with_views self.old (edited_views self.old.views path.now (Edit.insert pos row.now count))) }
        ensures err { OnErr result (self.new ≡ self.old) }
    {
        let mut views = self.take_views()?;
        let answer = views.insert_rows(path, pos, row, count);
        self.give_back(views);
        answer
    }

    /// Gives a property of one row of the view that the path names another value, as `Root::set`.
    ///
    /// # Errors
    ///
    /// Those of `Root::set`, and the store is as it was. `Memory` may come for each of them.
    pub fn set(
        &mut self,
        path: &Path,
        row: usize,
        prop: &Name,
        value: &Value,
    ) -> Result<(), EditError>
        ensures due { AnswersDue (due self.old.views path.now (Edit.set row prop.now (datum_of value.now))) result ⊎ (result ≡ Err edit_error.Memory) }
        ensures ok { OnOk result (self.new ≡ with_views self.old (edited_views self.old.views path.now (Edit.set row prop.now (datum_of value.now)))) }
        ensures err { OnErr result (self.new ≡ self.old) }
    {
        let mut views = self.take_views()?;
        let answer = views.set(path, row, prop, value);
        self.give_back(views);
        answer
    }

    /// Removes so many rows from a place on in the view that the path names, as `Root::remove_rows`.
    ///
    /// # Errors
    ///
    /// Those of `Root::remove_rows`, and the store is as it was. `Memory` may come for each of them.
    pub fn remove_rows(&mut self, path: &Path, pos: usize, count: usize) -> Result<(), EditError>
        ensures due { AnswersDue (due self.old.views path.now (Edit.remove pos count)) result ⊎ (result ≡ Err edit_error.Memory) }
        ensures ok { OnOk result (self.new ≡ with_views self.old (edited_views self.old.views path.now (Edit.remove pos count))) }
        ensures err { OnErr result (self.new ≡ self.old) }
    {
        let mut views = self.take_views()?;
        let answer = views.remove_rows(path, pos, count);
        self.give_back(views);
        answer
    }

    /// Replaces the view of a name in place, or adds it last, as `Root::put_view`.
    ///
    /// # Errors
    ///
    /// `Memory`, and the store is as it was.
    pub fn put_view(&mut self, name: &Name, table: Table) -> Result<(), Memory>
        requires room { IsSome (table_of self.old.views name.now) ⊎ (length self.old.views < max_views) }
        requires short { structure_length name.now table.schema ≤ max_structure }
        requires rests { MayReplace table (table_of self.old.views name.now) }
        ensures ok { OnOk result (self.new ≡ with_views self.old (with_view self.old.views name.now table)) }
        ensures err { OnErr result (self.new ≡ self.old) }
    {
        let mut views = self.take_views()?;
        let answer = views.put_view(name, table);
        self.give_back(views);
        answer
    }

    /// Removes the view of a name, as `Root::drop_view`.
    ///
    /// # Errors
    ///
    /// `NoView` where there is none, and `Memory`; the store is as it was.
    pub fn drop_view(&mut self, name: &Name) -> Result<(), EditError>
        ensures due { ((result ≡ Err edit_error.NoView) ↔ (table_of self.old.views name.now ≡ None)) ⊎ (result ≡ Err edit_error.Memory) }
        ensures no_other { OnErr result ((result ≡ Err edit_error.NoView) ⊎ (result ≡ Err edit_error.Memory)) }
        ensures ok { OnOk result (self.new ≡ with_views self.old (without_view self.old.views name.now)) }
        ensures err { OnErr result (self.new ≡ self.old) }
    {
        let mut views = self.take_views()?;
        let answer = views.drop_view(name);
        self.give_back(views);
        answer
    }
}
