//! What a line does to the rows that its path names, made in place, where no refusal is due.
ghost use Rattle.std.specs.Prelude.{◌≡◌, IfErr, None, OnErr, OnOk};
ghost use Rattle.watches.specs.Keeping.{AreKept, followed};
ghost use Rattle.kept_counts.specs.Keeping.{AreCounted};
ghost use Rattle.watches.specs.Watches.{followed_by};
ghost use Rattle.row_edits.specs.Events.{count_of};
ghost use Rattle.storage.specs.Stored.{with_views};
ghost use Rattle.view_store.specs.Refusals.{due};
ghost use Rattle.view_store.specs.Rests.{ViewsRestOn};
ghost use Rattle.view_store.specs.Views.{edited_views};
ghost use Rattle.view_store.specs.declared.error.EditError.TheVariants as edit_error;
ghost use Rattle.session.specs.Changes.{FitsSizes, edit_of, row_edit_of};
ghost use Rattle.session.specs.Commands.{events_at};

use crate::followed::{edit_at, view};
use crate::refusals::{of_edit, of_memory};
use cmd_text::Refusal;
use kept_counts::KeptCounts;
use mk_value::{Name, Path, Row, Value};
use row_edits::RowEdit;
use storage::Store;
use view_store::{EditError, Root};
use watches::Following;

/// What a line does to the rows that its path names.
#[derive(Clone, Copy)]
pub(crate) enum Change<'a> {
    /// Copies of a row come in before a place.
    Insert {
        at: usize,
        row: &'a Row,
        copies: usize,
    },
    /// A property of a row gets another value.
    Set {
        at: usize,
        prop: &'a Name,
        value: &'a Value,
    },
    /// Rows go, from a place on.
    Remove {
        at: usize,
        rows: usize,
    },
}

impl Change<'_> {
    /// It as an edit of rows.
    fn rows(self) -> RowEdit
        ensures { result ≡ row_edit_of (edit_of self.entry) }
    {
        match self {
            Change::Insert { at, copies, .. } => RowEdit::Insert { at, count: copies },
            Change::Set { at, .. } => RowEdit::Change { at },
            Change::Remove { at, rows } => RowEdit::Remove { at, count: rows },
        }
    }

    /// Edits the views of a store.
    fn edit(self, store: &mut Store, path: &Path) -> Result<(), EditError>
        requires sizes { FitsSizes self }
        requires due { due store.old.views path.now (edit_of self) ≡ None }
        ensures memory { IfErr result (λ e. e ≡ edit_error.Memory) }
        ensures ok { OnOk result (store.new ≡ with_views store.old (edited_views store.old.views path.now (edit_of self.entry))) }
        ensures err { OnErr result (store.new ≡ store.old) }
    {
        match self {
            Change::Insert { at, row, copies } => store.insert_rows(path, at, row, copies),
            Change::Set { at, prop, value } => store.set(path, at, prop, value),
            Change::Remove { at, rows } => store.remove_rows(path, at, rows),
        }
    }

    /// Edits views that no store holds.
    pub fn edit_views(self, views: &mut Root, path: &Path) -> Result<(), EditError>
        requires sizes { FitsSizes self }
        requires due { due views.old path.now (edit_of self) ≡ None }
        ensures memory { IfErr result (λ e. e ≡ edit_error.Memory) }
        ensures ok { OnOk result (views.new ≡ edited_views views.old path.now (edit_of self.entry)) }
        ensures rests { ViewsRestOn views.new views.old }
    {
        match self {
            Change::Insert { at, row, copies } => views.insert_rows(path, at, row, copies),
            Change::Set { at, prop, value } => views.set(path, at, prop, value),
            Change::Remove { at, rows } => views.remove_rows(path, at, rows),
        }
    }
}

/// Makes a change in the views of a store, and lets the watches of its view follow. All their memory is taken before anything changes.
pub(crate) fn make(
    store: &mut Store,
    watches: &mut Following,
    counted: &mut KeptCounts,
    path: &Path,
    change: Change<'_>,
) -> Result<(), Refusal>
    requires sizes { FitsSizes change }
    requires due { due store.old.views path.now (edit_of change) ≡ None }
    requires kept { AreKept store.old.views watches.old }
    requires counted { AreCounted store.old.views counted.old }
    ensures memory { IfErr result (λ e. e ≡ Refusal.Memory) }
    ensures views { OnOk result (store.new ≡ with_views store.old (edited_views store.old.views path.now (edit_of change.entry))) }
    ensures followed { OnOk result (followed watches.new ≡ followed_by (followed watches.old) path.now.name (events_at path.now.steps (count_of (row_edit_of (edit_of change.entry))))) }
    ensures kept { AreKept store.new.views watches.new }
    ensures counted { AreCounted store.new.views counted.new }
    ensures err_store { OnErr result (store.new ≡ store.old) }
    ensures err_watches { OnErr result (followed watches.new ≡ followed watches.old) }
{
    let name = path.name();
    let edit = edit_at(path.steps(), change.rows());
    watches.reserve(name, &[edit]).map_err(of_memory)?;
    let before = view(store.views(), name);
    watches.note(name, before, edit);
    counted.note(name, before, edit);
    match change.edit(store, path) {
        Ok(()) => {
            let after = view(store.views(), name);
            watches.follow(name, after, edit);
            counted.follow(name, after, edit);
            Ok(())
        }
        Err(error) => {
            watches.forget(name, view(store.views(), name), edit);
            counted.forget(name);
            Err(of_edit(error))
        }
    }
}
