//! Lines on views whose rows are kept by key: a row that comes is put by its key, and another row of that key goes. All memory of a line is
//! taken before anything changes.
ghost use Rattle.std.specs.Prelude.{◌≡◌, ◌+◌, ◌<◌, ◌≤◌, [], ◌∷◌, List, All, IfErr, IfOk, MatchOption, None, OnErr, OnOk, Some, length, nat_le, true};
ghost use Rattle.std.specs.Option.{is_some};
ghost use Rattle.std.specs.Result.{result_err};
ghost use Rattle.keyed_views.specs.Keyed.{IsInPlace, edits_of, home_of};
ghost use Rattle.watches.specs.Keeping.{AreKept, followed};
ghost use Rattle.kept_counts.specs.Keeping.{AreCounted};
ghost use Rattle.watches.specs.Watches.{followed_by};
ghost use Rattle.live.specs.Placing.{closed_by};
ghost use Rattle.keyed_views.specs.Keeping.{AreKept as AreMapped, mapped};
ghost use Rattle.keyed_views.specs.Mapped.{is_mapped};
ghost use Rattle.mk_value.specs.Conversions.{IsProper, becomes};
ghost use Rattle.mk_value.specs.Data.{Datum, IsRowOf};
ghost use Rattle.mk_value.specs.Limits.{max_rows};
ghost use Rattle.mk_value.specs.LiteralValues.{literal_of};
ghost use Rattle.mk_value.specs.Values.{datum_of};
ghost use Rattle.row_edits.specs.Edits.{size_by};
ghost use Rattle.row_edits.specs.Events.{count_all};
ghost use Rattle.storage.specs.Stored.{with_views};
ghost use Rattle.view_store.specs.Edits.{Edit};
ghost use Rattle.view_store.specs.Refusals.{due, schema_of};
ghost use Rattle.view_store.specs.Rests.{ViewsRestOn};
ghost use Rattle.view_store.specs.Views.{edited_views, table_of};
ghost use Rattle.session.specs.Changes.{FitsSizes, edit_of, row_edit_of};
ghost use Rattle.session.specs.Commands.{events_at};
ghost use Rattle.session.specs.Fitting.{all_short};
ghost use Rattle.session.specs.Keyed.{AreAllowed, Comes, IsPut, IsRowIn, Sets, StandsBy, add_by_key_due, edited_in_turn, insert_by_key_due, mapping_as, mapping_on as mapping_of_route, place_of_set, put_by_key, put_edits, put_line, removal, row_for, set_line, size_by_key, stand_edits};
ghost use Rattle.session.specs.Refusals.{AnswersDue, by_rows, by_schema, literals_refusal, max_copies, set_due, unless};
ghost use Rattle.session.specs.Values.{domain_named, schema_named, size_named};
ghost use Rattle.tables.specs.Tables.{StoredTable};
ghost use Rattle.session.specs.World.{with_line};

use crate::Session;
use crate::change::{Change, make};
use crate::edits::{MAX_COPIES, check_place, check_row};
use crate::followed::{shared_view, view};
use crate::refusals::{of_edit, of_memory};
use crate::values::make_whole_row;
use cmd_text::Refusal;
use kept_counts::KeptCounts;
use keyed_views::{ByKeys, Coming, KeyedEdit, Mappings, keyed_edits_are_lines};
use mk_value::{Literal, Literals, MAX_ROWS, Name, Path, Row, Same, TableRead, Value};
use relations::copy_row;
use row_edits::Line;
use std::alloc::Global;
use storage::Store;
use view_store::Root;
use watches::Following;

impl Session {
    /// The mapping of the view that a path names, if it has one. An edit inside a row changes no key of the view.
    pub(crate) fn mapping_on(&self, path: &Path) -> Option<ByKeys>
        ensures { MatchOption result (mapping_of_route self.now path.now ≡ None) (λ m. mapping_of_route self.now path.now ≡ Some (mapping_as path.now m)) }
    {
        match path.steps().first() {
            Some(_) => None,
            None => self.mappings.get(path.name()),
        }
    }

    /// Puts a row of literals in by its key, and gives its place.
    pub(crate) fn add_by_key(
        &mut self,
        path: &Path,
        literals: &Literals,
        keys: ByKeys,
    ) -> Result<u64, Refusal>
        requires proper { All IsProper literals.now }
        requires mapped { mapping_of_route self.old path.now ≡ Some (mapping_as path.now keys) }
        ensures due { AnswersDue (add_by_key_due (mapping_as path.now keys) self.old.store.views path.now literals.now) result }
        ensures place { IfOk result (λ place. place ≡ home_of (put_by_key (mapping_as path.now keys) self.old.store.views path.now (size_named self.old.store.views path.now) (row_for self.old.store.views path.now literals.now))) }
        ensures ok { OnOk result (self.new ≡ put_line self.old path.now 1 (row_for self.old.store.views path.now literals.now) (put_by_key (mapping_as path.now keys) self.old.store.views path.now (size_named self.old.store.views path.now) (row_for self.old.store.views path.now literals.now))) }
        ensures err { OnErr result (self.new ≡ self.old) }
    {
        self.check_row_of(path, literals)?;
        let size = self.size_of(path)?;
        let row = self.whole_row_of(path, literals)?;
        let (place, _size) = self.put_by_key(path, size as usize, &row, keys)?;
        Ok(place as u64)
    }

    /// Puts a row of literals in by its key, if it is to come at all, and gives the new size.
    pub(crate) fn insert_by_key(
        &mut self,
        path: &Path,
        place: u64,
        copies: u64,
        literals: &Literals,
        keys: ByKeys,
    ) -> Result<u64, Refusal>
        requires proper { All IsProper literals.now }
        requires mapped { mapping_of_route self.old path.now ≡ Some (mapping_as path.now keys) }
        ensures due { AnswersDue (insert_by_key_due (mapping_as path.now keys) self.old.store.views path.now place copies literals.now) result }
        ensures size { IfOk result (λ size. size ≡ size_by_key copies (put_by_key (mapping_as path.now keys) self.old.store.views path.now place (row_for self.old.store.views path.now literals.now)) (size_named self.old.store.views path.now)) }
        ensures ok { OnOk result (self.new ≡ put_line self.old path.now copies (row_for self.old.store.views path.now literals.now) (put_by_key (mapping_as path.now keys) self.old.store.views path.now place (row_for self.old.store.views path.now literals.now))) }
        ensures err { OnErr result (self.new ≡ self.old) }
    {
        self.check_row_of(path, literals)?;
        let size = self.size_of(path)?;
        check_place(size, place)?;
        check_count(copies)?;
        let row = self.whole_row_of(path, literals)?;
        if copies == 0 {
            return Ok(size);
        }
        let (_place, after) = self.put_by_key(path, place as usize, &row, keys)?;
        Ok(after as u64)
    }

    /// Gives a property of a row the value of a literal; another row that has the same key then goes, and the row moves to its place.
    pub(crate) fn set_by_key(
        &mut self,
        path: &Path,
        row: u64,
        prop: &Name,
        literal: &Literal,
        keys: ByKeys,
    ) -> Result<(), Refusal>
        requires proper { IsProper (literal_of literal.now) }
        requires mapped { mapping_of_route self.old path.now ≡ Some (mapping_as path.now keys) }
        ensures due { AnswersDue (set_due self.old.store.views path.now row prop.now (literal_of literal.now)) result }
        ensures ok { OnOk result (self.new ≡ set_line (mapping_as path.now keys) self.old path.now row prop.now (becomes (literal_of literal.now) (domain_named (schema_named self.old.store.views path.now) prop.now))) }
        ensures err { OnErr result (self.new ≡ self.old) }
    {
        self.check_value_of(path, prop, literal)?;
        let size = self.size_of(path)?;
        check_row(size, row)?;
        let value = self.value_of(path, prop, literal)?;
        self.set_value_by_key(path, row as usize, prop, &value, keys)
    }

    /// Removes rows of a view whose rows are kept by key, where no refusal is due.
    pub(crate) fn remove_by_key(
        &mut self,
        path: &Path,
        place: usize,
        rows: usize,
    ) -> Result<(), Refusal>
        requires due { due self.old.store.views path.now (Edit.remove place rows) ≡ None }
        requires mapped { is_some (mapping_of_route self.old path.now) ≡ true }
        ensures memory { IfErr result (λ e. e ≡ Refusal.Memory) }
        ensures ok { OnOk result (self.new ≡ with_line self.old (edited_views self.old.store.views path.now (Edit.remove place rows)) path.now.name (events_at path.now.steps rows)) }
        ensures err { OnErr result (self.new ≡ self.old) }
    {
        let table = view(self.store.views(), path.name());
        // Its size bounds every place.
        let _size = table.size();
        let coming = self.mappings.remove_edit(path.name(), table, place, rows);
        come(
            &mut self.store,
            &mut self.watches,
            &mut self.mappings,
            &mut self.counted,
            path,
            Change::Remove { at: place, rows },
            coming,
        )
    }

    /// The whole row of literals that fit the view of a path.
    fn whole_row_of(&self, path: &Path, literals: &Literals) -> Result<Row, Refusal>
        requires proper { All IsProper literals.now }
        requires fit { by_schema (schema_of self.now.store.views path.now) (λ schema. literals_refusal literals.now schema) ≡ None }
        ensures due { AnswersDue (unless (all_short literals.now) Refusal.Limit) result }
        ensures value { IfOk result (λ row. row ≡ row_for self.now.store.views path.now literals.now) }
        ensures whole { IfOk result (λ row. IsRowOf row (schema_named self.now.store.views path.now)) }
    {
        match self.store.views().schema(path) {
            Ok(schema) => make_whole_row(self.alloc, literals, schema),
            Err(_) => unreachable!(),
        }
    }

    /// Puts a whole row in by its key, and gives where it stands and how many rows there are then.
    fn put_by_key(
        &mut self,
        path: &Path,
        place: usize,
        row: &Row,
        keys: ByKeys,
    ) -> Result<(usize, usize), Refusal>
        requires mapped { mapping_of_route self.old path.now ≡ Some (mapping_as path.now keys) }
        requires there { by_rows self.old.store.views path.now ≡ None }
        requires row { IsRowOf row.now (schema_named self.old.store.views path.now) }
        requires place { place ≤ size_named self.old.store.views path.now }
        ensures due { AnswersDue (unless (nat_le (size_by (edits_of (put_by_key (mapping_as path.now keys) self.old.store.views path.now place row.now)) (size_named self.old.store.views path.now)) max_rows) Refusal.Limit) result }
        ensures place { IfOk result (λ at. at.0 ≡ home_of (put_by_key (mapping_as path.now keys) self.old.store.views path.now place row.now)) }
        ensures size { IfOk result (λ at. at.1 ≡ size_by (edits_of (put_by_key (mapping_as path.now keys) self.old.store.views path.now place row.now)) (size_named self.old.store.views path.now)) }
        ensures ok { OnOk result (self.new ≡ put_line self.old path.now 1 row.now (put_by_key (mapping_as path.now keys) self.old.store.views path.now place row.now)) }
        ensures err { OnErr result (self.new ≡ self.old) }
    {
        let table = view(self.store.views(), path.name());
        let coming = self
            .mappings
            .put_edit(path.name(), table, row, place)
            .map_err(of_memory)?;
        let edit = coming.edit;
        let size = check_size(edit, table.size())?;
        put_in(
            self.alloc,
            &mut self.store,
            &mut self.watches,
            &mut self.mappings,
            &mut self.counted,
            path,
            row,
            coming,
        )?;
        Ok((edit.home(), size))
    }

    /// Gives a property of a row another value, where no refusal is due; the row then stands by its key.
    fn set_value_by_key(
        &mut self,
        path: &Path,
        row: usize,
        prop: &Name,
        value: &Value,
        keys: ByKeys,
    ) -> Result<(), Refusal>
        requires mapped { mapping_of_route self.old path.now ≡ Some (mapping_as path.now keys) }
        requires due { due self.old.store.views path.now (Edit.set row prop.now (datum_of value.now)) ≡ None }
        ensures memory { IfErr result (λ e. e ≡ Refusal.Memory) }
        ensures ok { OnOk result (self.new ≡ set_line (mapping_as path.now keys) self.old path.now row prop.now (datum_of value.now)) }
        ensures err { OnErr result (self.new ≡ self.old) }
    {
        let table = view(self.store.views(), path.name());
        // Its size bounds every place.
        let _size = table.size();
        let coming = self
            .mappings
            .set_edit(path.name(), table, row, prop, value)
            .map_err(of_memory)?;
        let change = Change::Set {
            at: row,
            prop,
            value,
        };
        set_in(
            self.alloc,
            &mut self.store,
            &mut self.watches,
            &mut self.mappings,
            &mut self.counted,
            path,
            change,
            coming,
        )
    }
}

/// Makes one change in a view, and lets the watches and the mapping of the view follow.
fn come(
    store: &mut Store,
    watches: &mut Following,
    mappings: &mut Mappings,
    counted: &mut KeptCounts,
    path: &Path,
    change: Change<'_>,
    coming: Coming,
) -> Result<(), Refusal>
    requires sizes { FitsSizes change }
    requires due { due store.old.views path.now (edit_of change) ≡ None }
    requires here { path.now.steps ≡ [] }
    requires one { edits_of coming.edit ≡ row_edit_of (edit_of change) ∷ [] }
    requires watched { AreKept store.old.views watches.old }
    requires kept { AreMapped store.old.views mappings.old }
    requires counted { AreCounted store.old.views counted.old }
    requires mapped { is_mapped (mapped mappings.old) path.now.name ≡ true }
    requires comes { Comes path.now.name coming mappings.old store.old.views (edited_views store.old.views path.now (edit_of change)) }
    ensures memory { IfErr result (λ e. e ≡ Refusal.Memory) }
    ensures views { OnOk result (store.new ≡ with_views store.old (edited_views store.old.views path.now (edit_of change.entry))) }
    ensures followed { OnOk result (followed watches.new ≡ followed_by (followed watches.old) path.now.name (count_all (edits_of coming.edit))) }
    ensures mapped { mapped mappings.new ≡ mapped mappings.old }
    ensures watched { AreKept store.new.views watches.new }
    ensures kept { AreMapped store.new.views mappings.new }
    ensures counted { AreCounted store.new.views counted.new }
    ensures err_store { OnErr result (store.new ≡ store.old) }
    ensures err_watches { OnErr result (followed watches.new ≡ followed watches.old) }
{
    make(store, watches, counted, path, change)?;
    mappings.follow(path.name(), coming);
    Ok(())
}

/// Puts a row in by its key, and lets the watches and the mapping of the view follow: in place, where no other row goes.
fn put_in(
    alloc: Global,
    store: &mut Store,
    watches: &mut Following,
    mappings: &mut Mappings,
    counted: &mut KeptCounts,
    path: &Path,
    row: &Row,
    coming: Coming,
) -> Result<(), Refusal>
    requires put { IsPut coming.edit }
    requires here { path.now.steps ≡ [] }
    requires allowed { AreAllowed store.old.views path.now (put_edits row.now coming.edit) }
    requires watched { AreKept store.old.views watches.old }
    requires kept { AreMapped store.old.views mappings.old }
    requires counted { AreCounted store.old.views counted.old }
    requires mapped { is_mapped (mapped mappings.old) path.now.name ≡ true }
    requires comes { Comes path.now.name coming mappings.old store.old.views (edited_in_turn store.old.views path.now (put_edits row.now coming.edit)) }
    ensures memory { IfErr result (λ e. e ≡ Refusal.Memory) }
    ensures views { OnOk result (store.new ≡ with_views store.old (edited_in_turn store.old.views path.now (put_edits row.now coming.edit))) }
    ensures followed { OnOk result (followed watches.new ≡ followed_by (followed watches.old) path.now.name (count_all (edits_of coming.edit))) }
    ensures mapped { mapped mappings.new ≡ mapped mappings.old }
    ensures watched { AreKept store.new.views watches.new }
    ensures kept { AreMapped store.new.views mappings.new }
    ensures counted { AreCounted store.new.views counted.new }
    ensures err_store { OnErr result (store.new ≡ store.old) }
    ensures err_watches { OnErr result (followed watches.new ≡ followed watches.old) }
{
    if let KeyedEdit::Put { at } = coming.edit {
        let change = Change::Insert { at, row, copies: 1 };
        return come(store, watches, mappings, counted, path, change, coming);
    }
    let views = views_with_row(store.views(), path, row, coming.edit)?;
    follow_coming(
        alloc,
        store,
        watches,
        mappings,
        counted,
        path.name(),
        views,
        coming,
    )
}

/// Gives a property of a row another value, lets the row stand by its key, and the watches and the mapping of the view follow: in place, where
/// the row stays where it is and no other goes.
fn set_in(
    alloc: Global,
    store: &mut Store,
    watches: &mut Following,
    mappings: &mut Mappings,
    counted: &mut KeptCounts,
    path: &Path,
    change: Change<'_>,
    coming: Coming,
) -> Result<(), Refusal>
    requires sizes { FitsSizes change }
    requires set { Sets coming.edit (edit_of change) }
    requires here { path.now.steps ≡ [] }
    requires stands { (row : List Datum) × StandsBy row path.now coming (edit_of change) mappings.old store.old.views }
    requires watched { AreKept store.old.views watches.old }
    requires kept { AreMapped store.old.views mappings.old }
    requires counted { AreCounted store.old.views counted.old }
    requires mapped { is_mapped (mapped mappings.old) path.now.name ≡ true }
    ensures memory { IfErr result (λ e. e ≡ Refusal.Memory) }
    ensures views { (row : List Datum) → StandsBy row path.now coming (edit_of change.entry) mappings.old store.old.views → OnOk result (store.new ≡ with_views store.old (edited_in_turn store.old.views path.now (edit_of change.entry ∷ stand_edits row coming.edit))) }
    ensures followed { OnOk result (followed watches.new ≡ followed_by (followed watches.old) path.now.name (count_all (edits_of coming.edit))) }
    ensures mapped { mapped mappings.new ≡ mapped mappings.old }
    ensures watched { AreKept store.new.views watches.new }
    ensures kept { AreMapped store.new.views mappings.new }
    ensures counted { AreCounted store.new.views counted.new }
    ensures err_store { OnErr result (store.new ≡ store.old) }
    ensures err_watches { OnErr result (followed watches.new ≡ followed watches.old) }
{
    if let KeyedEdit::Change { other: None, .. } = coming.edit {
        return come(store, watches, mappings, counted, path, change, coming);
    }
    let mut views = views_with(store.views(), path, change)?;
    let row = row_that_moves(alloc, &views, path.name(), coming.edit)?;
    stand(&mut views, path, &row, coming.edit)?;
    follow_coming(
        alloc,
        store,
        watches,
        mappings,
        counted,
        path.name(),
        views,
        coming,
    )
}

/// Views once more, with a change of one. They share what it leaves.
fn views_with(views: &Root, path: &Path, change: Change<'_>) -> Result<Root, Refusal>
    requires sizes { FitsSizes change }
    requires due { due views.now path.now (edit_of change) ≡ None }
    ensures memory { IfErr result (λ e. e ≡ Refusal.Memory) }
    ensures ok { IfOk result (λ new. new ≡ edited_views views.now path.now (edit_of change.entry)) }
    ensures rests { IfOk result (λ new. ViewsRestOn new views.now) }
{
    let mut views = views.same().map_err(of_memory)?;
    change.edit_views(&mut views, path).map_err(of_edit)?;
    Ok(views)
}

/// Views once more, with a row put in by its key. They share what the line leaves.
fn views_with_row(views: &Root, path: &Path, row: &Row, edit: KeyedEdit) -> Result<Root, Refusal>
    requires { AreAllowed views.now path.now (put_edits row.now edit) }
    ensures memory { IfErr result (λ e. e ≡ Refusal.Memory) }
    ensures ok { IfOk result (λ new. new ≡ edited_in_turn views.now path.now (put_edits row.now edit)) }
    ensures rests { IfOk result (λ new. ViewsRestOn new views.now) }
{
    let mut views = views.same().map_err(of_memory)?;
    put_row(&mut views, path, row, edit)?;
    Ok(views)
}

/// Puts edited views in the place of those of a store, and lets the watches and the mapping of a view follow.
fn follow_coming(
    alloc: Global,
    store: &mut Store,
    watches: &mut Following,
    mappings: &mut Mappings,
    counted: &mut KeptCounts,
    name: &Name,
    views: Root,
    coming: Coming,
) -> Result<(), Refusal>
    requires rests { ViewsRestOn views store.old.views }
    requires watched { AreKept store.old.views watches.old }
    requires kept { AreMapped store.old.views mappings.old }
    requires counted { AreCounted store.old.views counted.old }
    requires mapped { is_mapped (mapped mappings.old) name.now ≡ true }
    requires comes { Comes name.now coming mappings.old store.old.views views }
    ensures memory { IfErr result (λ e. e ≡ Refusal.Memory) }
    ensures views { OnOk result (store.new ≡ with_views store.old views) }
    ensures followed { OnOk result (followed watches.new ≡ followed_by (followed watches.old) name.now (count_all (edits_of coming.edit))) }
    ensures mapped { mapped mappings.new ≡ mapped mappings.old }
    ensures watched { AreKept store.new.views watches.new }
    ensures kept { AreMapped store.new.views mappings.new }
    ensures counted { AreCounted store.new.views counted.new }
    ensures err_store { OnErr result (store.new ≡ store.old) }
    ensures err_watches { OnErr result (followed watches.new ≡ followed watches.old) }
{
    keyed_edits_are_lines();
    let edit = coming.edit;
    let edits = edit.edits(alloc).map_err(of_memory)?;
    let before = shared_view(store.views(), name)?;
    watches.reserve(name, edits.as_slice()).map_err(of_memory)?;
    store.put_views(views);
    let after = view(store.views(), name);
    let line = Line {
        before: &before,
        after,
        edits: edits.as_slice(),
        home: edit.home(),
    };
    watches.follow_line(name, &line);
    counted.follow_line(name, &line);
    mappings.follow(name, coming);
    Ok(())
}

/// A row of the view of a name.
fn row_in(alloc: Global, views: &Root, name: &Name, at: usize) -> Result<Row, Refusal>
    requires { (t : StoredTable) × (table_of views.now name.now ≡ Some t) × (at < length t.rows) }
    ensures memory { IfErr result (λ e. e ≡ Refusal.Memory) }
    ensures ok { IfOk result (IsRowIn views.now name.now at) }
{
    let table = view(views, name);
    let _size = table.size();
    copy_row(alloc, table, at).map_err(of_memory)
}

/// Puts a row in, in the place of the one there where that has its key.
fn put_row(views: &mut Root, path: &Path, row: &Row, edit: KeyedEdit) -> Result<(), Refusal>
    requires { AreAllowed views.old path.now (put_edits row.now edit) }
    ensures memory { IfErr result (λ e. e ≡ Refusal.Memory) }
    ensures ok { OnOk result (views.new ≡ edited_in_turn views.old path.now (put_edits row.now edit)) }
    ensures rests { ViewsRestOn views.new views.old }
{
    match edit {
        KeyedEdit::Put { at } => insert_row(views, path, at, row),
        KeyedEdit::Replace { at } => replace_row(views, path, at, at, row),
        _ => Ok(()),
    }
}

/// Lets a row that was given a value stand by its key: another row that has it goes, and the row moves to its place.
fn stand(views: &mut Root, path: &Path, row: &Row, edit: KeyedEdit) -> Result<(), Refusal>
    requires { AreAllowed views.old path.now (stand_edits row.now edit) }
    ensures memory { IfErr result (λ e. e ≡ Refusal.Memory) }
    ensures ok { OnOk result (views.new ≡ edited_in_turn views.old path.now (stand_edits row.now edit)) }
    ensures rests { ViewsRestOn views.new views.old }
{
    match edit {
        KeyedEdit::Change { other, .. } => remove_other(views, path, other),
        KeyedEdit::Move { at, other, to } => {
            remove_other(views, path, other)?;
            replace_row(views, path, without(other, at), to, row)
        }
        _ => Ok(()),
    }
}

/// The row that was given a value, if it moves; else no copy of it is made.
fn row_that_moves(alloc: Global, views: &Root, name: &Name, edit: KeyedEdit) -> Result<Row, Refusal>
    requires { (t : StoredTable) × (table_of views.now name.now ≡ Some t) × (place_of_set edit < length t.rows) }
    ensures memory { IfErr result (λ e. e ≡ Refusal.Memory) }
    ensures ok { IfOk result (λ row. (r : List Datum) → IsRowIn views.now name.now (place_of_set edit) r → stand_edits row edit ≡ stand_edits r edit) }
{
    match edit {
        KeyedEdit::Move { at, .. } => row_in(alloc, views, name, at),
        _ => Ok(Row::new(alloc)),
    }
}

/// Removes the other row, if one goes.
fn remove_other(views: &mut Root, path: &Path, other: Option<usize>) -> Result<(), Refusal>
    requires { AreAllowed views.old path.now (removal other) }
    ensures memory { IfErr result (λ e. e ≡ Refusal.Memory) }
    ensures ok { OnOk result (views.new ≡ edited_in_turn views.old path.now (removal other)) }
    ensures rests { ViewsRestOn views.new views.old }
{
    match other {
        Some(at) => remove_row(views, path, at),
        None => Ok(()),
    }
}

/// Removes a row, and then puts one in before a place.
fn replace_row(
    views: &mut Root,
    path: &Path,
    gone: usize,
    at: usize,
    row: &Row,
) -> Result<(), Refusal>
    requires { AreAllowed views.old path.now (Edit.remove gone 1 ∷ Edit.insert at row.now 1 ∷ []) }
    ensures memory { IfErr result (λ e. e ≡ Refusal.Memory) }
    ensures ok { OnOk result (views.new ≡ edited_in_turn views.old path.now (Edit.remove gone 1 ∷ Edit.insert at row.now 1 ∷ [])) }
    ensures rests { ViewsRestOn views.new views.old }
{
    remove_row(views, path, gone)?;
    insert_row(views, path, at, row)
}

/// Puts a row in before a place.
fn insert_row(views: &mut Root, path: &Path, at: usize, row: &Row) -> Result<(), Refusal>
    requires { due views.old path.now (Edit.insert at row.now 1) ≡ None }
    ensures memory { IfErr result (λ e. e ≡ Refusal.Memory) }
    ensures ok { OnOk result (views.new ≡ edited_views views.old path.now (Edit.insert at row.now 1)) }
    ensures rests { ViewsRestOn views.new views.old }
{
    views.insert_rows(path, at, row, 1).map_err(of_edit)
}

/// Removes a row.
fn remove_row(views: &mut Root, path: &Path, at: usize) -> Result<(), Refusal>
    requires { due views.old path.now (Edit.remove at 1) ≡ None }
    ensures memory { IfErr result (λ e. e ≡ Refusal.Memory) }
    ensures ok { OnOk result (views.new ≡ edited_views views.old path.now (Edit.remove at 1)) }
    ensures rests { ViewsRestOn views.new views.old }
{
    views.remove_rows(path, at, 1).map_err(of_edit)
}

/// The place that a row has once another is gone, if one goes.
fn without(other: Option<usize>, at: usize) -> usize
    ensures { result ≡ closed_by other at }
{
    match other {
        Some(other) if other < at => at - 1,
        _ => at,
    }
}

/// How many rows there are, of so many, after a row was put in, or the refusal of so many.
fn check_size(edit: KeyedEdit, size: usize) -> Result<usize, Refusal>
    requires few { size ≤ max_rows }
    requires put { IsPut edit }
    requires in_place { size_by (edits_of edit) size ≤ max_rows → IsInPlace edit size }
    ensures due { result_err result ≡ unless (nat_le (size_by (edits_of edit) size) max_rows) Refusal.Limit }
    ensures size { IfOk result (λ after. after ≡ size_by (edits_of edit) size) }
    ensures few { IfOk result (λ after. after ≤ max_rows) }
{
    let KeyedEdit::Put { .. } = edit else {
        return Ok(size);
    };
    if size >= MAX_ROWS {
        return Err(Refusal::Limit);
    }
    Ok(size + 1)
}

/// Answers the refusal of so many copies.
fn check_count(copies: u64) -> Result<(), Refusal>
    ensures { result_err result ≡ unless (nat_le copies max_copies) Refusal.Limit }
{
    if copies > MAX_COPIES {
        return Err(Refusal::Limit);
    }
    Ok(())
}
