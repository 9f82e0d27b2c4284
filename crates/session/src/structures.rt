//! Giving views structures, and dropping views.
ghost use Rattle.std.specs.Prelude.{◌≡◌, ◌⊎◌, ◌<◌, ◌≤◌, [], false, length, IfErr, IfOk, IsSome, None, OnErr, OnOk};
ghost use Rattle.watches.specs.Watches.{is_watched};
ghost use Rattle.keyed_views.specs.Mapped.{is_mapped};
ghost use Rattle.restructure.specs.Restructuring.{restructured};
ghost use Rattle.struct_text.specs.Spelling.{spelling};
ghost use Rattle.mk_value.specs.Limits.{max_structure, max_views};
ghost use Rattle.struct_text.specs.Lengths.{structure_length};
ghost use Rattle.view_store.specs.Rests.{MayReplace};
ghost use Rattle.view_store.specs.Views.{table_of, without_view, with_view};
ghost use Rattle.tables.specs.Rests.{RestsOn};
ghost use Rattle.tables.specs.Tables.{table_without_homes};
ghost use Rattle.session.specs.Naming.{declare_due, drop_due, getas_due, is_view_used as is_used, room_due};
ghost use Rattle.session.specs.Refusals.{AnswersDue};
ghost use Rattle.session.specs.Structures.{structured};
ghost use Rattle.session.specs.World.{with_tables};

use crate::Session;
use crate::looks::structure_text;
use crate::refusals::{of_edit, of_memory};
use cmd_text::Refusal;
use mk_value::{MAX_VIEWS, Name, Schema, TableRead, Text};
use questions::{Standing, has_cursor_on};
use restructure::restructure;
use std::alloc::Global;
use tables::{Table, empty_table};

impl Session {
    /// Gives the view of a name a structure, and gives its text.
    ///
    /// # Errors
    ///
    /// `Exists` where a snapshot, a cursor or a watch has the name. Else as of `declare`.
    pub(crate) fn getas(&mut self, name: &Name, schema: &Schema) -> Result<Text, Refusal>
        requires { length (spelling name.now schema.now) ≤ max_structure }
        ensures due { AnswersDue (getas_due self.old name.now schema.now) result }
        ensures text { IfOk result (λ text. text.bytes ≡ spelling name.now schema.now) }
        ensures ok { OnOk result (self.new ≡ with_tables self.old (structured self.old.store.views name.now schema.now)) }
        ensures err { OnErr result (self.new ≡ self.old) }
    {
        let _properties = schema.len();
        if self.is_beside_views(name) {
            return Err(Refusal::Exists);
        }
        let text = structure_text(self.alloc, name, schema).map_err(of_memory)?;
        self.declare(name, schema)?;
        Ok(text)
    }

    /// Gives the view of a name a structure: a view without rows is added last where none has the name, and the rows of one of another
    /// structure are restructured.
    ///
    /// # Errors
    ///
    /// `Limit` where there are as many views as there may be, and none of the name; `InUse` where a cursor, a watch or a mapping names the view, and its
    /// structure would change. `Memory`.
    fn declare(&mut self, name: &Name, schema: &Schema) -> Result<(), Refusal>
        requires { structure_length name.now schema.now ≤ max_structure }
        ensures due { AnswersDue (declare_due self.old name.now schema.now) result }
        ensures ok { OnOk result (self.new ≡ with_tables self.old (structured self.old.store.views name.now schema.now)) }
        ensures err { OnErr result (self.new ≡ self.old) }
    {
        let _name = name.as_bytes();
        let _properties = schema.len();
        let Some(known) = self.store.views().table(name) else {
            return self.add_view(name, schema);
        };
        if known.schema().is_same(schema) {
            return Ok(());
        }
        if self.is_view_used(name) {
            return Err(Refusal::InUse);
        }
        let table = restructure_table(self.alloc, known, schema)?;
        self.put_view(name, table)
    }

    /// Whether a cursor or a watch, computed or not, stands on the view of a name, or it has a mapping.
    fn is_view_used(&self, name: &Name) -> bool
        ensures { result ≡ is_used self.now name.now }
    {
        has_cursor_on(self.cursors.as_slice(), Standing::View, name)
            || self.watches.is_watched(name)
            || self.mappings.is_mapped(name)
            || self.computed.is_source(name)
    }

    /// Adds a view without rows last.
    fn add_view(&mut self, name: &Name, schema: &Schema) -> Result<(), Refusal>
        requires absent { table_of self.old.store.views name.now ≡ None }
        requires short { structure_length name.now schema.now ≤ max_structure }
        ensures due { AnswersDue (room_due self.old.store.views name.now) result }
        ensures ok { OnOk result (self.new ≡ with_tables self.old (with_view self.old.store.views name.now (table_without_homes schema.now []))) }
        ensures err { OnErr result (self.new ≡ self.old) }
    {
        if self.store.views().names().len() >= MAX_VIEWS {
            return Err(Refusal::Limit);
        }
        let table = new_table(self.alloc, schema)?;
        self.put_view(name, table)
    }

    /// Replaces the view of a name, which nothing watches or maps, in place, or adds it last.
    fn put_view(&mut self, name: &Name, table: Table) -> Result<(), Refusal>
        requires room { IsSome (table_of self.old.store.views name.now) ⊎ (length self.old.store.views < max_views) }
        requires short { structure_length name.now table.schema ≤ max_structure }
        requires rests { MayReplace table (table_of self.old.store.views name.now) }
        requires unwatched { is_watched self.old.watches name.now ≡ false }
        requires unmapped { is_mapped self.old.mappings name.now ≡ false }
        ensures memory { IfErr result (λ e. e ≡ Refusal.Memory) }
        ensures ok { OnOk result (self.new ≡ with_tables self.old (with_view self.old.store.views name.now table)) }
        ensures err { OnErr result (self.new ≡ self.old) }
    {
        self.counted.clear();
        self.store.put_view(name, table).map_err(of_memory)
    }

    /// Removes the view of a name.
    ///
    /// # Errors
    ///
    /// `NoName` where there is none; `InUse` where a cursor, a watch or a mapping names it.
    pub(crate) fn drop_view(&mut self, name: &Name) -> Result<(), Refusal>
        ensures due { AnswersDue (drop_due self.old name.now) result }
        ensures ok { OnOk result (self.new ≡ with_tables self.old (without_view self.old.store.views name.now)) }
        ensures err { OnErr result (self.new ≡ self.old) }
    {
        if self.store.views().table(name).is_none() {
            return Err(Refusal::NoName);
        }
        if self.is_view_used(name) {
            return Err(Refusal::InUse);
        }
        self.counted.clear();
        self.store.drop_view(name).map_err(of_edit)
    }
}

/// A table without rows.
fn new_table(alloc: Global, schema: &Schema) -> Result<Table, Refusal>
    ensures memory { IfErr result (λ e. e ≡ Refusal.Memory) }
    ensures ok { IfOk result (λ made. made ≡ table_without_homes schema.now []) }
{
    empty_table(alloc, schema).map_err(of_memory)
}

/// The table under another schema.
fn restructure_table(alloc: Global, table: &Table, schema: &Schema) -> Result<Table, Refusal>
    ensures memory { IfErr result (λ e. e ≡ Refusal.Memory) }
    ensures ok { IfOk result (λ made. made ≡ restructured table.now schema.now) }
    ensures rests { IfOk result (λ made. RestsOn made table.now) }
{
    restructure(alloc, table, schema).map_err(of_memory)
}
