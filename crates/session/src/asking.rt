//! Questions about expressions: their sizes and rows, and where they have values that are asked for.
ghost use Rattle.std.specs.Prelude.{◌≡◌, map};
ghost use Rattle.cmd_text.specs.declared.command.Command.TheVariants as commands;
ghost use Rattle.eval.specs.Parts.{IsWhole};
ghost use Rattle.expr_text.specs.Meanings.{query_of};
ghost use Rattle.watches.specs.Keeping.{AreKept, followed};
ghost use Rattle.kept_counts.specs.Keeping.{AreCounted};
ghost use Rattle.keyed_views.specs.Keeping.{AreKept as AreMapped, mapped};
ghost use Rattle.session.specs.Answered.{Answered};
ghost use Rattle.session.specs.World.{kept_names};

use crate::{Session, replies};
use cmd_text::Reply;
use computing::Computing;
use expr_text::{Crits, Expr};
use kept_counts::KeptCounts;
use keyed_views::Mappings;
use questions::{Known, Scope, Snapshots};
use storage::Store;
use viewers::Viewer;
use watches::Following;

impl Session {
    /// What a question may use.
    pub(crate) fn scope<'a, V: Viewer>(&'a self, viewers: &'a [V]) -> Scope<'a, V>
        ensures names { result.names ≡ kept_names self.now }
        ensures computed { result.computed.now ≡ self.now.computed }
        ensures viewers { result.viewers.now ≡ viewers.now }
    {
        scope_of(
            &self.store,
            &self.snapshots,
            &self.watches,
            &self.mappings,
            &self.computed,
            &self.counted,
            viewers,
        )
    }

    /// Answers how many rows an expression has.
    pub(crate) fn size<V: Viewer>(&self, viewers: &[V], expr: &Expr) -> Reply
        requires { IsWhole (query_of expr.now) }
        ensures { Answered (map V.meaning viewers.now) (commands.Size expr.now) self.now result self.now }
    {
        match self.scope(viewers).size(self.alloc, expr) {
            Ok(size) => replies::counted(size),
            Err(error) => replies::unanswered(error),
        }
    }

    /// Answers the rows of an expression.
    pub(crate) fn rows<V: Viewer>(&self, viewers: &[V], expr: &Expr) -> Reply
        requires { IsWhole (query_of expr.now) }
        ensures { Answered (map V.meaning viewers.now) (commands.Show expr.now) self.now result self.now }
    {
        match self.scope(viewers).rows(self.alloc, expr) {
            Ok(rows) => Reply::Lines(rows.count, rows.lines),
            Err(error) => replies::unanswered(error),
        }
    }

    /// Answers where the first row with the values stands, from a start on.
    pub(crate) fn find<V: Viewer>(
        &self,
        viewers: &[V],
        expr: &Expr,
        start: u64,
        criteria: &Crits,
    ) -> Reply
        requires { IsWhole (query_of expr.now) }
        ensures { Answered (map V.meaning viewers.now) (commands.Find expr.now start criteria.now) self.now result self.now }
    {
        match self
            .scope(viewers)
            .find(self.alloc, expr, start, criteria.as_slice())
        {
            Ok(place) => replies::place(place),
            Err(error) => replies::unanswered(error),
        }
    }

    /// Answers where rows with the values stand in a sorting, or would stand.
    pub(crate) fn search<V: Viewer>(&self, viewers: &[V], expr: &Expr, criteria: &Crits) -> Reply
        requires { IsWhole (query_of expr.now) }
        ensures { Answered (map V.meaning viewers.now) (commands.Search expr.now criteria.now) self.now result self.now }
    {
        match self
            .scope(viewers)
            .search(self.alloc, expr, criteria.as_slice())
        {
            Ok(place) => replies::counted(place),
            Err(error) => replies::unanswered(error),
        }
    }

    /// Answers the same, and how many rows have the values.
    pub(crate) fn locate<V: Viewer>(&self, viewers: &[V], expr: &Expr, criteria: &Crits) -> Reply
        requires { IsWhole (query_of expr.now) }
        ensures { Answered (map V.meaning viewers.now) (commands.Locate expr.now criteria.now) self.now result self.now }
    {
        match self
            .scope(viewers)
            .locate(self.alloc, expr, criteria.as_slice())
        {
            Ok(at) => replies::located(at),
            Err(error) => replies::unanswered(error),
        }
    }
}

/// What the names of a question stand for: the views of a store, snapshots, and watches, mappings and counts of those views.
fn names_of<'a>(
    store: &'a Store,
    snapshots: &'a Snapshots,
    watches: &'a Following,
    mappings: &'a Mappings,
    counted: &'a KeptCounts,
) -> Known<'a>
    requires kept { AreKept store.now.views watches.now }
    requires mapped { AreMapped store.now.views mappings.now }
    requires counted { AreCounted store.now.views counted.now }
    ensures views { result.views ≡ store.now.views }
    ensures snapshots { result.snapshots ≡ snapshots.now }
    ensures watches { result.watches ≡ followed watches.now }
    ensures mappings { result.mappings ≡ mapped mappings.now }
{
    Known::of(
        store.views(),
        snapshots.as_slice(),
        watches,
        mappings,
        counted,
    )
}

/// What a question may use: the views of a store, snapshots, watches, mappings and counts of those views, computed watches, and viewers.
pub(crate) fn scope_of<'a, V: Viewer>(
    store: &'a Store,
    snapshots: &'a Snapshots,
    watches: &'a Following,
    mappings: &'a Mappings,
    computed: &'a Computing,
    counted: &'a KeptCounts,
    viewers: &'a [V],
) -> Scope<'a, V>
    requires kept { AreKept store.now.views watches.now }
    requires mapped { AreMapped store.now.views mappings.now }
    requires counted { AreCounted store.now.views counted.now }
    ensures views { result.names.views ≡ store.now.views }
    ensures snapshots { result.names.snapshots ≡ snapshots.now }
    ensures watches { result.names.watches ≡ followed watches.now }
    ensures mappings { result.names.mappings ≡ mapped mappings.now }
    ensures computed { result.computed.now ≡ computed.now }
    ensures viewers { result.viewers.now ≡ viewers.now }
{
    Scope {
        names: names_of(store, snapshots, watches, mappings, counted),
        viewers,
        computed,
    }
}
