//! Counts and filtered rows that are at hand for questions. No reply shows which are.
ghost use Rattle.std.specs.Prelude.{◌≡◌};
ghost use Rattle.kept_counts.specs.Keeping.{AreCounted};

use crate::Session;
use cmd_text::Command;
use computing::{Computation, Computed};
use eval::is_asked_of;
use expr_text::Expr;
use kept_counts::KeptCounts;
use mk_value::Name;
use questions::Cursor;
use view_store::Root;
use viewers::{Viewer, find};
use watches::Following;

/// What a command asks of: all that an expression names, or what a cursor stands on.
#[derive(Clone, Copy)]
enum Asked<'a> {
    Expression(&'a Expr),
    Name(&'a Name),
}

impl Asked<'_> {
    /// Whether it is asked of what has the name.
    fn names(self, name: &Name) -> bool {
        match self {
            Asked::Expression(expr) => is_asked_of(expr, name),
            Asked::Name(asked) => *asked == *name,
        }
    }
}

impl Session {
    /// Keeps the counts of views, and the rows of views that laws keep, for which a question asks by the name of a watch, so that neither it
    /// nor a later one makes them anew.
    pub(crate) fn keep_counts<V: Viewer>(&mut self, viewers: &[V], command: &Command)
        ensures { self.new ≡ self.old }
    {
        if let Some(asked) = question(command, self.cursors.as_slice()) {
            let views = self.store.views();
            let counted = &mut self.counted;
            keep_each(
                counted,
                views,
                &self.watches,
                viewers,
                self.computed.filters(),
                asked,
            );
            keep_each(
                counted,
                views,
                &self.watches,
                viewers,
                self.computed.counts(),
                asked,
            );
        }
    }
}

/// Of what a command asks something, where these cursors are set.
fn question<'a>(command: &'a Command, cursors: &'a [Cursor]) -> Option<Asked<'a>> {
    match command {
        Command::Size(expr)
        | Command::Show(expr)
        | Command::Find(expr, _, _)
        | Command::Search(expr, _)
        | Command::Locate(expr, _)
        | Command::Dup(_, expr) => Some(Asked::Expression(expr)),
        Command::Cursor(_, target) => Some(Asked::Name(target)),
        Command::Next(name) | Command::Prev(name) | Command::Row(name) => {
            Some(Asked::Name(target_of(cursors, name)?))
        }
        _ => None,
    }
}

/// On what the cursor of a name stands.
fn target_of<'a>(cursors: &'a [Cursor], name: &Name) -> Option<&'a Name> {
    for cursor in cursors {
        if cursor.name == *name {
            return Some(&cursor.target);
        }
    }
    None
}

/// Keeps what those of these watches show of views of which is asked.
fn keep_each<V: Viewer>(
    counted: &mut KeptCounts,
    views: &Root,
    following: &Following,
    viewers: &[V],
    watches: &[Computed],
    asked: Asked<'_>,
)
    requires { AreCounted views.now counted.old }
    ensures { AreCounted views.now counted.new }
{
    for watch in watches {
        if asked.names(watch.name()) {
            keep(counted, views, following, viewers, watch);
        }
    }
}

/// Keeps what a watch shows of a view. Where memory is wanting each question makes it.
fn keep<V: Viewer>(
    counted: &mut KeptCounts,
    views: &Root,
    following: &Following,
    viewers: &[V],
    watch: &Computed,
)
    requires { AreCounted views.now counted.old }
    ensures { AreCounted views.now counted.new }
{
    match watch.shows() {
        Computation::Counts(keys, _) => {
            keep_counted(counted, views, following, watch.source(), keys.as_slice());
        }
        Computation::Filter(viewer, props) => {
            keep_filtered(
                counted,
                views,
                viewers,
                watch.source(),
                viewer,
                props.as_slice(),
            );
        }
    }
}

/// Keeps the counts of the view whose rows what has this name shows.
fn keep_counted(
    counted: &mut KeptCounts,
    views: &Root,
    following: &Following,
    source: &Name,
    keys: &[Name],
)
    requires { AreCounted views.now counted.old }
    ensures { AreCounted views.now counted.new }
{
    if let Some(view) = view_shown(views, following, source) {
        let _is_kept = counted.keep(views, view, keys);
    }
}

/// Keeps the rows of the view of this name that the viewer of a name keeps, where it answers by a law.
fn keep_filtered<V: Viewer>(
    counted: &mut KeptCounts,
    views: &Root,
    viewers: &[V],
    view: &Name,
    viewer: &Name,
    props: &[Name],
)
    requires { AreCounted views.now counted.old }
    ensures { AreCounted views.now counted.new }
{
    let Some(viewer) = find(viewers, viewer) else {
        return;
    };
    let Some(law) = viewer.law() else {
        return;
    };
    let _is_kept = counted.keep_filter(views, view, viewer, law, props);
}

/// The name of the view whose rows, all of them and in whatever order, what has this name shows.
fn view_shown<'a>(views: &Root, following: &'a Following, name: &'a Name) -> Option<&'a Name> {
    if views.table(name).is_some() {
        return Some(name);
    }
    if following.shows_all(name) {
        return Some(following.view_under(name));
    }
    None
}
