//! Names that stand for tables: those of views, of snapshots and of watches.
ghost use Rattle.std.specs.Prelude.{◌≡◌, ◌⊎◌, [], find, IfErr, IfOk, IfSome, MatchOption, Some, None, Ok, Err, true};
ghost use Rattle.std.specs.Option.{is_some};
ghost use Rattle.eval.specs.Names.{IsSeen, Named, view_at};
ghost use Rattle.eval.specs.declared.error.NameError.TheVariants as name_error;
ghost use Rattle.expr_text.specs.Meanings.{query_of};
ghost use Rattle.watches.specs.Keeping.{AreKept, followed};
ghost use Rattle.watches.specs.Rows.{table_read};
ghost use Rattle.watches.specs.Watches.{is_watch as is_name_of_watch};
ghost use Rattle.kept_counts.specs.Keeping.{AreCounted};
ghost use Rattle.keyed_views.specs.Keeping.{AreKept as AreMapped, mapped};
ghost use Rattle.mk_value.specs.Names.{same_bytes};
ghost use Rattle.view_store.specs.Views.{table_of as view_named};
ghost use Rattle.questions.specs.AtHand.{ShowsView};
ghost use Rattle.questions.specs.InOrder.{IsWatchNamed};
ghost use Rattle.questions.specs.Kept.{Kept, is_kept, stored, table_of, watched};

use crate::snapshot::{Snapshot, is_snapshot};
use crate::walk::inner_table;
use computing::AtHand;
use derived::{Derived, leaf};
use eval::{NameError, Names};
use expr_text::Expr;
use kept_counts::KeptCounts;
use keyed_views::Mappings;
use mk_value::{Memory, Name, Path, Same};
use std::alloc::Global;
use std::marker::Model;
use tables::Shared;
use view_store::Root;
use viewers::Viewer;
use watches::{Following, WatchRows, view_of};

/// Views, snapshots and watches by name, of which a view decides before a snapshot and a snapshot before a watch, and the first of
/// several. The watches keep the positions of their rows in those of the views. Beside them it knows which views are kept by key.
#[derive(Drop)]
pub struct Known<'a> {
    pub(crate) views: &'a Root,
    pub(crate) snapshots: &'a [Snapshot],
    pub(crate) watches: &'a Following,
    pub(crate) mappings: &'a Mappings,
    /// Counts of the views, and rows of them that laws keep, which are at hand.
    pub(crate) counted: &'a KeptCounts,
}

impl<'a> Model for Known<'a> {
    ghost use Rattle.std.specs.Coded.{codes};
    ghost use Rattle.watches.specs.Keeping.{AreKept, followed};
    ghost use Rattle.kept_counts.specs.Keeping.{AreCounted};
    ghost use Rattle.keyed_views.specs.Keeping.{AreKept as AreMapped, mapped};
    ghost use Rattle.questions.specs.Kept.{Names, kept_code};
    ghost use Rattle.relations.specs.Criteria.{interval_code};
    ghost use Rattle.view_store.specs.Views.{views_code};

    ghost Value = { Names };

    ghost coded = { Prim.hlevel (codes, views_code, kept_code, interval_code) };

    ghost view = { λ k. record { views = k.views.now; snapshots = k.snapshots.now; watches = followed k.watches.now; mappings = mapped k.mappings.now } };

    ghost invariant = { λ k. AreKept k.views.now k.watches.now × (AreMapped k.views.now k.mappings.now × AreCounted k.views.now k.counted.now) };
}

impl Names<Shared> for Known<'_> {
    ghost use Rattle.questions.specs.Kept.{known};

    ghost named = { λ k. known k.views k.snapshots k.watches };

    fn view(&self, path: &Path) -> Result<Derived<Shared>, NameError> {
        if self.is_stored(path.name()) {
            self.viewed(path)
        } else {
            self.watch(path)
        }
    }
}

impl AtHand<Shared> for Known<'_> {
    /// Those of a view, which are those of each sorting of it.
    fn counts_at_hand(
        &self,
        alloc: Global,
        name: &Name,
        keys: &[Name],
        count: &Name,
    ) -> Result<Option<Derived<Shared>>, Memory> {
        match self.view_shown(name) {
            Some(view) => self.counted.table(alloc, self.views, view, keys, count),
            None => Ok(None),
        }
    }

    /// Those of a view alone.
    fn rows_at_hand<V: Viewer>(
        &self,
        alloc: Global,
        name: &Name,
        viewer: &V,
        props: &[Name],
    ) -> Result<Option<Derived<Shared>>, Memory> {
        self.counted
            .filtered(alloc, self.views, name, viewer, props)
    }
}

impl<'a> Known<'a> {
    /// What names stand for, by these views and snapshots, and the watches and mappings of those views. What is kept of the views
    /// changes no answer.
    pub fn of(
        views: &'a Root,
        snapshots: &'a [Snapshot],
        watches: &'a Following,
        mappings: &'a Mappings,
        counted: &'a KeptCounts,
    ) -> Known<'a>
        requires kept { AreKept views.now watches.now }
        requires mapped { AreMapped views.now mappings.now }
        requires counted { AreCounted views.now counted.now }
        ensures views { result.views ≡ views.now }
        ensures snapshots { result.snapshots ≡ snapshots.now }
        ensures watches { result.watches ≡ followed watches.now }
        ensures mappings { result.mappings ≡ mapped mappings.now }
    {
        Known {
            views,
            snapshots,
            watches,
            mappings,
            counted,
        }
    }

    /// The same without snapshots: over what computed watches may stand.
    pub(crate) fn sources(&self) -> Known<'a>
        ensures views { result.views ≡ self.now.views }
        ensures snapshots { result.snapshots ≡ [] }
        ensures watches { result.watches ≡ self.now.watches }
        ensures mappings { result.mappings ≡ self.now.mappings }
    {
        Known {
            views: self.views,
            snapshots: &[],
            watches: self.watches,
            mappings: self.mappings,
            counted: self.counted,
        }
    }

    /// The name of the view all of whose rows, in whatever order, what has this name shows: a view, or a sorting of one.
    fn view_shown<'b>(&'b self, name: &'b Name) -> Option<&'b Name>
        ensures { IfSome result (λ view. ShowsView self.now view.now name.now) }
    {
        if self.view_of(name).is_some() {
            return Some(name);
        }
        if self.is_stored(name) {
            return None;
        }
        if !self.watches.shows_all(name) {
            return None;
        }
        Some(self.watches.view_under(name))
    }

    /// Whether a view or a snapshot has the name.
    pub(crate) fn is_stored(&self, name: &Name) -> bool
        ensures { result ≡ is_some (find (λ (n : Named). same_bytes n.name name.now) (stored self.now.views self.now.snapshots)) }
    {
        self.table_of(name).is_some()
    }

    /// Whether a snapshot has the name.
    pub(crate) fn is_snapshot(&self, name: &Name) -> bool
        ensures { result ≡ is_kept self.now.snapshots name.now }
    {
        is_snapshot(self.snapshots, name)
    }

    /// Whether a watch that keeps positions has the name.
    pub(crate) fn is_watch(&self, name: &Name) -> bool
        ensures { result ≡ is_name_of_watch self.now.watches name.now }
    {
        self.watches.is_watch(name)
    }

    /// The table to which a path leads from a view or a snapshot, shared.
    ///
    /// # Errors
    ///
    /// The refusal of the path. Else `Memory`.
    pub(crate) fn shared(&self, path: &Path) -> Result<Shared, NameError>
        ensures ok { IfOk result (λ table. view_at (stored self.now.views self.now.snapshots) path.now ≡ Ok (table_of table)) }
        ensures err { IfErr result (λ e. (e ≡ name_error.Memory) ⊎ (view_at (stored self.now.views self.now.snapshots) path.now ≡ Err e)) }
    {
        match self.table_of(path.name()) {
            Some(table) => Ok(inner_table(table, path.steps())?.to_shared()?),
            None => Err(NameError::NoName),
        }
    }

    /// The table to which a path leads from a view or a snapshot.
    ///
    /// # Errors
    ///
    /// The refusal of the path. Else `Memory`.
    fn viewed(&self, path: &Path) -> Result<Derived<Shared>, NameError>
        ensures { IsSeen (view_at (stored self.now.views self.now.snapshots) path.now) result }
    {
        Ok(leaf(self.shared(path)?)?)
    }

    /// The table of the watch that a path names.
    ///
    /// # Errors
    ///
    /// `NoName` where no watch has the name, or steps follow it. Else `Memory`.
    fn watch(&self, path: &Path) -> Result<Derived<Shared>, NameError>
        ensures { IsSeen (view_at (watched self.now.views self.now.watches) path.now) result }
    {
        if !path.steps().is_empty() {
            return Err(NameError::NoName);
        }
        if !self.watches.is_watch(path.name()) {
            return Err(NameError::NoName);
        }
        Ok(self.watches.table(path.name(), self.views)?)
    }

    /// The rows of the watch that an expression names, if it names one, and neither a view nor a snapshot. It takes no memory.
    pub(crate) fn watch_named(&self, expr: &Expr) -> Option<WatchRows<'a>>
        ensures { IfSome result (λ rows. IsWatchNamed self.now (query_of expr.now) (table_read rows)) }
    {
        let Expr::Path(path) = expr else {
            return None;
        };
        if !path.steps().is_empty() {
            return None;
        }
        if self.is_stored(path.name()) {
            return None;
        }
        if self.order_at(path).is_some() {
            return None;
        }
        if !self.watches.is_watch(path.name()) {
            return None;
        }
        Some(self.watches.rows(path.name(), self.views))
    }

    /// The table of the view or the snapshot of a name.
    fn table_of(&self, name: &Name) -> Option<&'a Shared>
        ensures { MatchOption result (find (λ (n : Named). same_bytes n.name name.now) (stored self.now.views self.now.snapshots) ≡ None) (λ table. find (λ (n : Named). same_bytes n.name name.now) (stored self.now.views self.now.snapshots) ≡ Some (record { name = name.now; table = table_of table.now; has_steps = true })) }
    {
        match self.view_of(name) {
            Some(table) => Some(table),
            None => self.snapshot_of(name),
        }
    }

    /// The table of the first snapshot of a name.
    pub(crate) fn snapshot_of(&self, name: &Name) -> Option<&'a Shared>
        ensures { MatchOption result (find (λ (s : Kept). same_bytes s.name name.now) self.now.snapshots ≡ None) (λ table. find (λ (s : Kept). same_bytes s.name name.now) self.now.snapshots ≡ Some (record { name = name.now; table = table_of table.now })) }
    {
        snapshot_of(self.snapshots, name)
    }

    /// The table of the view of a name.
    pub(crate) fn view_of(&self, name: &Name) -> Option<&'a Shared>
        ensures { MatchOption result (view_named self.now.views name.now ≡ None) (λ table. view_named self.now.views name.now ≡ Some table.now) }
    {
        view_of(self.views, name)
    }
}

/// The table of the first snapshot of a name.
fn snapshot_of<'a>(snapshots: &'a [Snapshot], name: &Name) -> Option<&'a Shared>
    ensures { MatchOption result (find (λ (s : Kept). same_bytes s.name name.now) snapshots.now ≡ None) (λ table. find (λ (s : Kept). same_bytes s.name name.now) snapshots.now ≡ Some (record { name = name.now; table = table_of table.now })) }
{
    for snapshot in snapshots {
        if snapshot.name.as_bytes() == name.as_bytes() {
            return Some(&snapshot.table);
        }
    }
    None
}
