//! All that is kept.
ghost use Rattle.std.specs.Prelude.{◌≡◌, ◌≤◌, [], ℕ, List, true, false, length, None, Some, IfOk, IfSome, OnErr, OnOk};
ghost use Rattle.derived.specs.Viewing.{keep_due};
ghost use Rattle.watches.specs.Keeping.{ChangesRows};
ghost use Rattle.mk_value.specs.Data.{Datum};
ghost use Rattle.mk_value.specs.Names.{same_bytes};
ghost use Rattle.row_edits.specs.Edits.{IsInRange, edited};
ghost use Rattle.tables.specs.Tables.{StoredTable};
ghost use Rattle.view_store.specs.Views.{NamedTable, table_of};
ghost use Rattle.viewers.specs.Laws.{gives};
ghost use Rattle.kept_counts.specs.Following.{IsPut};
ghost use Rattle.kept_counts.specs.Keeping.{AllHaveNoted, AreCounted, AreCountedBut, AreCountedOver, IsCountsOf, IsFilterOf, NoneIsKept, What, counted_by, has_place, is_kept, kept_by, max_kept, may_key as may_be_key};

use crate::entry::Entry;
use crate::listed::{
    find_blank, find_counts, find_filter, follow_all, follow_line_all, forget_all, has_counts,
    has_filter, note_all, push,
};
use crate::making::{may_ask, may_key};
use crate::showing::{counted, kept_rows, may_count};
use derived::Derived;
use mk_value::{Memory, Name, TableRead};
use row_edits::{Line, RowEdit};
use std::alloc::Global;
use std::marker::Model;
use std::mem::replace;
use tables::Shared;
use view_store::Root;
use viewers::{Law, Viewer};
use watches::view_of;

/// The most that is kept.
pub const MAX_KEPT: usize = 64;

/// What is kept of views: counts, each of one view by some keys, and filters, each of one view by a law and some properties. Any of it may be
/// dropped at any time: it is made anew once it is asked for again.
#[derive(Drop)]
pub struct KeptCounts {
    list: Vec<Entry>,
}

impl Model for KeptCounts {
    ghost use Rattle.std.specs.Prelude.{List};
    ghost use Rattle.std.specs.Coded.{codes};
    ghost use Rattle.kept_counts.specs.Keeping.{Counted};
    ghost use Rattle.relations.specs.Criteria.{interval_code};

    ghost Value = { List Counted };

    ghost coded = { Prim.hlevel (codes, interval_code) };

    ghost view = { λ k. k.list.items };
}

impl KeptCounts {
    /// Nothing is kept.
    pub fn new(alloc: Global) -> KeptCounts
        ensures { result ≡ [] }
    {
        KeptCounts {
            list: Vec::new(alloc),
        }
    }

    /// Drops all. It takes no memory.
    pub fn clear(&mut self)
        ensures { self.new ≡ [] }
    {
        self.list.clear();
    }

    /// Whether the counts of a view by these keys are kept.
    pub fn has(&self, view: &Name, keys: &[Name]) -> bool
        ensures { result ≡ is_kept self.now view.now (counted_by keys.now) }
    {
        has_counts(&self.list, view, keys)
    }

    /// Whether what the law keeps of a view by these properties is kept.
    pub fn has_filter(&self, view: &Name, law: Law, props: &[Name]) -> bool
        ensures { result ≡ is_kept self.now view.now (kept_by law props.now) }
    {
        has_filter(&self.list, view, law, props)
    }

    /// Keeps the counts of a view by these keys, if the view is there and may be counted by them, and there is a place for them.
    ///
    /// # Errors
    ///
    /// `Memory`, and what is kept is as before.
    pub fn keep(&mut self, views: &Root, view: &Name, keys: &[Name]) -> Result<(), Memory>
        requires { AreCounted views.now self.old }
        ensures kept { AreCounted views.now self.new }
        ensures made { OnOk result ((t : StoredTable) → table_of views.now view.now ≡ Some t → may_be_key t.schema keys.now ≡ true → has_place self.old ≡ true → is_kept self.new view.now (counted_by keys.now) ≡ true) }
        ensures few { length self.old ≤ max_kept → length self.new ≤ max_kept }
        ensures err { OnErr result (self.new ≡ self.old) }
    {
        if self.has(view, keys) {
            return Ok(());
        }
        let Some(rows) = view_of(views, view) else {
            return Ok(());
        };
        if !may_key(rows.schema(), keys) {
            return Ok(());
        }
        let alloc = *self.list.allocator();
        self.put(Entry::of_counts(alloc, view, keys, rows)?)
    }

    /// Keeps the rows of a view that a viewer keeps by these properties, where it answers by this law, if the view is there, the viewer may be
    /// asked of them, and there is a place for it. Each row is asked once.
    ///
    /// # Errors
    ///
    /// `Memory`, and what is kept is as before.
    pub fn keep_filter<V: Viewer>(
        &mut self,
        views: &Root,
        view: &Name,
        viewer: &V,
        law: Law,
        props: &[Name],
    ) -> Result<(), Memory>
        requires kept { AreCounted views.now self.old }
        requires law { (V.meaning viewer.now).gives ≡ gives law }
        ensures kept { AreCounted views.now self.new }
        ensures made { OnOk result ((t : StoredTable) → table_of views.now view.now ≡ Some t → keep_due (V.meaning viewer.now).name (V.meaning viewer.now).takes props.now t.schema ≡ None → has_place self.old ≡ true
            → is_kept self.new view.now (kept_by law props.now) ≡ true) }
        ensures few { length self.old ≤ max_kept → length self.new ≤ max_kept }
        ensures err { OnErr result (self.new ≡ self.old) }
    {
        if self.has_filter(view, law, props) {
            return Ok(());
        }
        let Some(rows) = view_of(views, view) else {
            return Ok(());
        };
        let alloc = *self.list.allocator();
        let may = may_ask(alloc, rows.schema(), viewer, props)?;
        if !may {
            return Ok(());
        }
        self.put(Entry::of_filter(alloc, view, viewer, law, props, rows)?)
    }

    /// Puts one in the place of one that keeps nothing, or behind the others while they are fewer than 64.
    fn put(&mut self, entry: Entry) -> Result<(), Memory>
        ensures put { OnOk result (IsPut self.old entry self.new) }
        ensures err { OnErr result (self.new ≡ self.old) }
    {
        match find_blank(&self.list) {
            Some(at) => drop(replace(&mut self.list[at], entry)),
            None if self.list.len() < MAX_KEPT => push(&mut self.list, entry)?,
            None => (),
        }
        Ok(())
    }

    /// The table of the counts of a view by these keys, where they are kept and may be under this name. It takes time for the keys, and not for
    /// the rows.
    ///
    /// # Errors
    ///
    /// `Memory`.
    pub fn table(
        &self,
        alloc: Global,
        views: &Root,
        view: &Name,
        keys: &[Name],
        count: &Name,
    ) -> Result<Option<Derived<Shared>>, Memory>
        requires { AreCounted views.now self.now }
        ensures { IfOk result (λ found. IfSome found (IsCountsOf views.now view.now keys.now count.now)) }
    {
        let Some(at) = find_counts(&self.list, view, keys) else {
            return Ok(None);
        };
        let Some(counts) = self.list[at].counts() else {
            return Ok(None);
        };
        if !may_count(keys, count) {
            return Ok(None);
        }
        let Some(rows) = view_of(views, view) else {
            return Ok(None);
        };
        Ok(Some(counted(alloc, rows, keys, count, counts)?))
    }

    /// The table of the rows of a view that a viewer keeps by these properties, where they are kept and it may be asked of them. It asks of no
    /// row, and takes time for the rows that are kept.
    ///
    /// # Errors
    ///
    /// `Memory`.
    pub fn filtered<V: Viewer>(
        &self,
        alloc: Global,
        views: &Root,
        view: &Name,
        viewer: &V,
        props: &[Name],
    ) -> Result<Option<Derived<Shared>>, Memory>
        requires { AreCounted views.now self.now }
        ensures { IfOk result (λ found. IfSome found (IsFilterOf views.now view.now (V.meaning viewer.now) props.now)) }
    {
        let Some(law) = viewer.law() else {
            return Ok(None);
        };
        let Some(at) = find_filter(&self.list, view, law, props) else {
            return Ok(None);
        };
        let Some(filter) = self.list[at].filter() else {
            return Ok(None);
        };
        let Some(rows) = view_of(views, view) else {
            return Ok(None);
        };
        let may = may_ask(alloc, rows.schema(), viewer, props)?;
        if !may {
            return Ok(None);
        }
        Ok(Some(kept_rows(alloc, rows, filter)?))
    }

    /// What is kept of a view notes an edit of its rows before it is made. Where it cannot it is dropped.
    pub fn note(&mut self, view: &Name, rows: &Shared, edit: RowEdit)
        requires kept { AreCountedOver view.now rows.now.schema rows.now.rows self.old }
        requires range { IsInRange edit (length rows.now.rows) }
        ensures noted { AllHaveNoted view.now rows.now.schema rows.now.rows edit self.new }
        ensures kept { (views : List NamedTable) → AreCounted views self.old → AreCountedBut view.now views self.new }
    {
        note_all(&mut self.list, view, rows, edit);
    }

    /// What is kept of a view is dropped: after a note of an edit that was not made, or before its rows change in any other way. It takes no
    /// memory.
    pub fn forget(&mut self, view: &Name)
        ensures gone { NoneIsKept view.now self.new }
        ensures kept { (old new : List NamedTable) → AreCountedBut view.now old self.old
            → ((name : List ℕ) → same_bytes name view.now ≡ false → table_of new name ≡ table_of old name) → AreCounted new self.new }
    {
        forget_all(&mut self.list, view);
    }

    /// What is kept of a view follows the edit of its rows that it noted, now that it is made. It takes no memory, and drops nothing.
    pub fn follow(&mut self, view: &Name, rows: &Shared, edit: RowEdit)
        requires noted { (before : List (List Datum)) × AllHaveNoted view.now rows.now.schema before edit self.old × ((row : List Datum) × (rows.now.rows ≡ edited row edit before)) }
        ensures over { AreCountedOver view.now rows.now.schema rows.now.rows self.new }
        ensures kept { (before : List (List Datum)) (old new : List NamedTable) → AreCountedBut view.now old self.old → ChangesRows view.now rows.now.schema before rows.now.rows old new → AreCounted new self.new }
        ensures stays { (name : List ℕ) (what : What) → is_kept self.new name what ≡ is_kept self.old name what }
    {
        follow_all(&mut self.list, view, rows, edit);
    }

    /// What is kept of a view follows a line on it, edit by edit, where each is of one row; else, or where memory is wanting, it is dropped.
    pub fn follow_line(&mut self, view: &Name, line: &Line<'_, Shared>)
        requires kept { AreCountedOver view.now line.now.before.now.schema line.now.before.now.rows self.old }
        ensures over { AreCountedOver view.now line.now.before.now.schema line.now.after.now.rows self.new }
        ensures kept { (old new : List NamedTable) → AreCountedBut view.now old self.old → ChangesRows view.now line.now.before.now.schema line.now.before.now.rows line.now.after.now.rows old new → AreCounted new self.new }
    {
        follow_line_all(&mut self.list, view, line);
    }
}
