//! Laws of mapped views.
ghost use Rattle.std.specs.Prelude.{◌≡◌, ◌≤◌, ◌<◌, ℕ, List, ◌∷◌, length, take, false, None, Some};
ghost use Rattle.keyed_views.specs.Keyed.{IsInPlace, edits_of, home_of};
ghost use Rattle.keyed_views.specs.declared.keyed.KeyedEdit.{KeyedEdit};
ghost use Rattle.mapped.specs.Keys.{keys_of};
ghost use Rattle.mk_value.specs.Data.{Datum};
ghost use Rattle.mk_value.specs.Limits.{max_rows};
ghost use Rattle.mk_value.specs.Names.{same_bytes};
ghost use Rattle.mk_value.specs.declared.path.Step.{Step};
ghost use Rattle.row_edits.specs.Edits.{edited_by, size_by};
ghost use Rattle.row_edits.specs.Lines.{IsLine};
ghost use Rattle.row_edits.specs.declared.edit.RowEdit.{RowEdit};
ghost use Rattle.tables.specs.Tables.{StoredTable};
ghost use Rattle.view_store.specs.Edits.{Edit};
ghost use Rattle.view_store.specs.Refusals.{due};
ghost use Rattle.view_store.specs.Views.{NamedTable, edited_views, table_of};
ghost use Rattle.keyed_views.specs.Keeping.{AreKept, AreKeptOver, mapped};
ghost use Rattle.keyed_views.specs.Mapped.{is_mapped, put_edit, set_edit};
ghost use Rattle.keyed_views.specs.declared.by.By.{By};
ghost use Rattle.keyed_views.specs.declared.kept.Kept.{Kept};

/// Where each view has the same schema and rows, as after a commit, the views are kept by key.
pub fn views_keep_mappings()
    ensures { (old new : List NamedTable) (all : List Kept)
        → ((name : List ℕ) (t : StoredTable) → table_of old name ≡ Some t → (u : StoredTable) × (table_of new name ≡ Some u) × (u.schema ≡ t.schema) × (u.rows ≡ t.rows))
        → AreKept old all → AreKept new all }
{}

/// A view that is not mapped may change, come or go.
pub fn unmapped_views_may_change()
    ensures { (old new : List NamedTable) (all : List Kept) (view : List ℕ) → is_mapped (mapped all) view ≡ false
        → ((name : List ℕ) → same_bytes name view ≡ false → table_of new name ≡ table_of old name) → AreKept old all → AreKept new all }
{}

/// An edit inside a view of a row changes no key.
pub fn edits_inside_keep_mappings()
    ensures { (views : List NamedTable) (all : List Kept) (name : List ℕ) (s : Step) (steps : List Step) (edit : Edit)
        → due views (record { name = name; steps = s ∷ steps }) edit ≡ None → AreKept views all
        → AreKept (edited_views views (record { name = name; steps = s ∷ steps }) edit) all }
{}

/// A mapped view is kept by key over its rows.
pub fn mapped_view_is_kept()
    ensures { (views : List NamedTable) (all : List Kept) (view : List ℕ) (t : StoredTable) → AreKept views all → table_of views view ≡ Some t → AreKeptOver view t.schema t.rows all }
{}

/// A row that is put stands in place, where there are not too many rows then.
pub fn puts_are_in_place()
    ensures { (by : By) (keys at : ℕ) (row : List Datum) (rows : List (List Datum)) → at ≤ length rows
        → size_by (edits_of (put_edit by keys row at rows)) (length rows) ≤ max_rows → IsInPlace (put_edit by keys row at rows) (length rows) }
{}

/// A row that is set goes to a place.
pub fn sets_are_in_place()
    ensures { (by : By) (keys at : ℕ) (row : List Datum) (rows : List (List Datum)) → at < length rows → IsInPlace (set_edit by keys row at rows) (length rows) }
{}

/// The keys of rows are edited as the rows are.
pub fn keys_are_edited()
    ensures { (count : ℕ) (edits : List RowEdit) (row : List Datum) (rows : List (List Datum))
        → keys_of count (edited_by row edits rows) ≡ edited_by (take count row) edits (keys_of count rows) }
{}

/// Edits of rows that are kept by key are a line: the row that comes with them stands at their home.
pub fn keyed_edits_are_lines()
    ensures { (e : KeyedEdit) (row : List Datum) (rows : List (List Datum)) → length rows ≤ max_rows → IsInPlace e (length rows)
        → IsLine (edits_of e) (home_of e) rows (edited_by row (edits_of e) rows) }
{
    row_edits::lines_are_edits();
}
