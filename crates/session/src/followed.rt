//! Edits of views that may be watched, made in place. The watches of a view follow each line on it. The lines of views whose rows are kept by key
//! are apart.
ghost use Rattle.std.specs.Prelude.{◌≡◌, IfErr, IfOk, IsSome, None, OnErr, OnOk, Some};
ghost use Rattle.row_edits.specs.Events.{count_of};
ghost use Rattle.view_store.specs.Edits.{Edit};
ghost use Rattle.view_store.specs.Refusals.{due};
ghost use Rattle.view_store.specs.Views.{edited_views, table_of};
ghost use Rattle.session.specs.Changes.{FitsSizes, edit_of, row_edit_of};
ghost use Rattle.session.specs.Commands.{events_at};
ghost use Rattle.session.specs.Following.{edit_at as edit_where};
ghost use Rattle.session.specs.Keyed.{mapping_on};
ghost use Rattle.session.specs.World.{with_line};

use crate::Session;
use crate::change::{Change, make};
use crate::refusals::of_memory;
use cmd_text::Refusal;
use mk_value::{Name, Path, Same, Step};
use row_edits::RowEdit;
use tables::Shared;
use view_store::Root;
use watches::view_of;

impl Session {
    /// Makes a change in a view, where no refusal is due and no mapping keeps its rows by key. The watches of the view follow.
    pub(crate) fn change(&mut self, path: &Path, change: Change<'_>) -> Result<(), Refusal>
        requires sizes { FitsSizes change }
        requires due { due self.old.store.views path.now (edit_of change) ≡ None }
        requires apart { mapping_on self.old path.now ≡ None }
        ensures memory { IfErr result (λ e. e ≡ Refusal.Memory) }
        ensures ok { OnOk result (self.new ≡ with_line self.old (edited_views self.old.store.views path.now (edit_of change.entry)) path.now.name (events_at path.now.steps (count_of (row_edit_of (edit_of change.entry))))) }
        ensures err { OnErr result (self.new ≡ self.old) }
    {
        make(
            &mut self.store,
            &mut self.watches,
            &mut self.counted,
            path,
            change,
        )
    }

    /// Removes rows, where no refusal is due.
    pub(crate) fn remove_rows(
        &mut self,
        path: &Path,
        place: usize,
        rows: usize,
    ) -> Result<(), Refusal>
        requires { due self.old.store.views path.now (Edit.remove place rows) ≡ None }
        ensures memory { IfErr result (λ e. e ≡ Refusal.Memory) }
        ensures ok { OnOk result (self.new ≡ with_line self.old (edited_views self.old.store.views path.now (Edit.remove place rows)) path.now.name (events_at path.now.steps rows)) }
        ensures err { OnErr result (self.new ≡ self.old) }
    {
        match self.mapping_on(path) {
            Some(_) => self.remove_by_key(path, place, rows),
            None => self.change(path, Change::Remove { at: place, rows }),
        }
    }
}

/// The table of a view that is there, shared.
pub(crate) fn shared_view(views: &Root, name: &Name) -> Result<Shared, Refusal>
    requires { IsSome (table_of views.now name.now) }
    ensures memory { IfErr result (λ e. e ≡ Refusal.Memory) }
    ensures ok { IfOk result (λ table. table_of views.now name.now ≡ Some table) }
{
    view(views, name).same().map_err(of_memory)
}

/// The table of a view that is there.
pub(crate) fn view<'a>(views: &'a Root, name: &Name) -> &'a Shared
    requires { IsSome (table_of views.now name.now) }
    ensures { table_of views.now name.now ≡ Some result.now }
{
    match view_of(views, name) {
        Some(table) => table,
        None => unreachable!(),
    }
}

/// An edit where the steps lead: inside a row it is a change of that row.
pub(crate) fn edit_at(steps: &[Step], edit: RowEdit) -> RowEdit
    ensures { result ≡ edit_where steps.now edit }
{
    match steps.first() {
        Some(step) => RowEdit::Change {
            at: step.row as usize,
        },
        None => edit,
    }
}
