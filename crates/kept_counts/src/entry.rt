//! What is kept of one view.
ghost use Rattle.std.specs.Prelude.{◌≡◌, List, ℕ, length, true, None, Some, IfOk, IfSome};
ghost use Rattle.std.specs.Option.{ForSome, is_none};
ghost use Rattle.derived.specs.Viewing.{keep_due};
ghost use Rattle.mk_value.specs.Data.{Datum};
ghost use Rattle.mk_value.specs.Names.{same_bytes};
ghost use Rattle.row_edits.specs.Edits.{IsInRange, edited};
ghost use Rattle.viewers.specs.Laws.{gives};
ghost use Rattle.viewers.specs.declared.law.Law.{Law as TheLaw};
ghost use Rattle.kept_counts.specs.declared.kept.Kept.TheVariants as keeps;
ghost use Rattle.kept_counts.specs.Following.{Follows, FollowsOn, Forgets, Notes};
ghost use Rattle.kept_counts.specs.Keeping.{HasNoted, IsCountedOver, counted_by, is_of, is_what, kept_by, may_key, what_kept};

use crate::kept::Kept;
use crate::making::{copy_names, counts_of, filter_of};
use crate::noting::{followed, followed_line, noted};
use live_counts::{LiveCounts, LiveFilter};
use mk_value::{Memory, Name};
use row_edits::{Line, RowEdit};
use std::alloc::Global;
use std::marker::Model;
use std::mem::replace;
use tables::Shared;
use viewers::{Law, Viewer};

/// What is kept of a view, or nothing where it is to be made anew.
#[derive(Drop)]
pub(crate) struct Entry {
    view: Name,
    kept: Option<Kept>,
}

impl Model for Entry {
    ghost use Rattle.std.specs.Coded.{codes};
    ghost use Rattle.kept_counts.specs.Keeping.{Counted};
    ghost use Rattle.relations.specs.Criteria.{interval_code};

    ghost Value = { Counted };

    ghost coded = { Prim.hlevel (codes, interval_code) };

    ghost view = { λ e. record { view = e.view; kept = e.kept } };
}

impl Entry {
    /// The counts of a view that has these rows, by these keys.
    pub fn of_counts(
        alloc: Global,
        view: &Name,
        keys: &[Name],
        rows: &Shared,
    ) -> Result<Entry, Memory>
        requires { may_key rows.now.schema keys.now ≡ true }
        ensures of { IfOk result (λ e. is_of view.now (counted_by keys.now) e ≡ true) }
        ensures view { IfOk result (λ e. e.view ≡ view.now) }
        ensures over { IfOk result (IsCountedOver rows.now.schema rows.now.rows) }
    {
        let view = view.copy()?;
        let counts = counts_of(alloc, rows, keys)?;
        let keys = copy_names(alloc, keys)?;
        let kept = Some(Kept::Counts(keys, counts));
        Ok(Entry { view, kept })
    }

    /// The rows of a view that a viewer keeps by these properties, where it answers by this law. Each row is asked once.
    pub fn of_filter<V: Viewer>(
        alloc: Global,
        view: &Name,
        viewer: &V,
        law: Law,
        props: &[Name],
        rows: &Shared,
    ) -> Result<Entry, Memory>
        requires due { keep_due (V.meaning viewer.now).name (V.meaning viewer.now).takes props.now rows.now.schema ≡ None }
        requires law { (V.meaning viewer.now).gives ≡ gives law }
        ensures of { IfOk result (λ e. is_of view.now (kept_by law props.now) e ≡ true) }
        ensures view { IfOk result (λ e. e.view ≡ view.now) }
        ensures over { IfOk result (IsCountedOver rows.now.schema rows.now.rows) }
    {
        let view = view.copy()?;
        let filter = filter_of(alloc, rows, viewer, law, props)?;
        let props = copy_names(alloc, props)?;
        let kept = Some(Kept::Filter(law, props, filter));
        Ok(Entry { view, kept })
    }

    /// Whether it has the counts of the view of the name by these keys.
    pub fn is_counts(&self, view: &Name, keys: &[Name]) -> bool
        ensures { result ≡ is_of view.now (counted_by keys.now) self.now }
    {
        self.view == *view && self.counts_by(keys)
    }

    /// Whether it has what the law keeps, by these properties, of the view of the name.
    pub fn is_filter(&self, view: &Name, law: Law, props: &[Name]) -> bool
        ensures { result ≡ is_of view.now (kept_by law props.now) self.now }
    {
        self.view == *view && self.keeps_by(law, props)
    }

    /// Whether it has counts by these keys.
    fn counts_by(&self, keys: &[Name]) -> bool
        ensures { result ≡ is_what (counted_by keys.now) (what_kept self.now) }
    {
        match &self.kept {
            Some(Kept::Counts(own, _)) => own.as_slice() == keys,
            _ => false,
        }
    }

    /// Whether it has what the law keeps by these properties.
    fn keeps_by(&self, law: Law, props: &[Name]) -> bool
        ensures { result ≡ is_what (kept_by law props.now) (what_kept self.now) }
    {
        match &self.kept {
            Some(Kept::Filter(own, by, _)) => *own == law && by.as_slice() == props,
            _ => false,
        }
    }

    /// Whether it keeps nothing.
    pub fn is_blank(&self) -> bool
        ensures { result ≡ is_none self.now.kept }
    {
        self.kept.is_none()
    }

    /// Its counts, if it has any.
    pub fn counts(&self) -> Option<&LiveCounts>
        ensures { IfSome result (λ counts. (keys : List (List ℕ)) × (self.now.kept ≡ Some (keeps.Counts keys counts.now))) }
    {
        match &self.kept {
            Some(Kept::Counts(_, counts)) => Some(counts),
            _ => None,
        }
    }

    /// Its filter, if it has one.
    pub fn filter(&self) -> Option<&LiveFilter>
        ensures { IfSome result (λ filter. (law : TheLaw) × ((props : List (List ℕ)) × (self.now.kept ≡ Some (keeps.Filter law props filter.now)))) }
    {
        match &self.kept {
            Some(Kept::Filter(_, _, filter)) => Some(filter),
            _ => None,
        }
    }

    /// Notes an edit of the rows of its view before it is made, where the view has the name. Where it cannot, it drops what it keeps.
    pub fn note(&mut self, view: &Name, rows: &Shared, edit: RowEdit)
        requires kept { same_bytes self.old.view view.now ≡ true → IsCountedOver rows.now.schema rows.now.rows self.old }
        requires range { IsInRange edit (length rows.now.rows) }
        ensures { Notes view.now rows.now.schema rows.now.rows edit self.old self.new }
    {
        if self.view == *view {
            let kept = noted(self.kept.take(), rows, edit);
            drop(replace(&mut self.kept, kept));
        }
    }

    /// Drops what it keeps, where the view has the name.
    pub fn forget(&mut self, view: &Name)
        ensures { Forgets view.now self.old self.new }
    {
        if self.view == *view {
            self.kept = None;
        }
    }

    /// Follows the edit of the rows of its view that it noted, where the view has the name. It drops nothing.
    pub fn follow(&mut self, view: &Name, rows: &Shared, edit: RowEdit)
        requires noted { same_bytes self.old.view view.now ≡ true → (before : List (List Datum)) × ForSome self.old.kept (HasNoted rows.now.schema before edit) × ((row : List Datum) × (rows.now.rows ≡ edited row edit before)) }
        ensures { FollowsOn view.now rows.now.schema rows.now.rows self.old self.new }
    {
        if self.view == *view {
            let kept = followed(self.kept.take(), rows, edit);
            drop(replace(&mut self.kept, kept));
        }
    }

    /// Follows a line on its view, where the view has the name. Where it cannot, it drops what it keeps.
    pub fn follow_line(&mut self, view: &Name, line: &Line<'_, Shared>)
        requires kept { same_bytes self.old.view view.now ≡ true → IsCountedOver line.now.before.now.schema line.now.before.now.rows self.old }
        ensures { Follows view.now line.now.before.now.schema line.now.after.now.rows self.old self.new }
    {
        if self.view == *view {
            let kept = followed_line(self.kept.take(), line);
            drop(replace(&mut self.kept, kept));
        }
    }
}
