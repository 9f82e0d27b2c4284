//! Laws of the watches of views.
ghost use Rattle.std.specs.Prelude.{◌≡◌, ◌+◌, ◌-◌, ◌<◌, ◌^◌, ℕ, List, false, min, Some};
ghost use Rattle.live.specs.Chains.{AreNow};
ghost use Rattle.live.specs.States.{Watching};
ghost use Rattle.mk_value.specs.Names.{same_bytes};
ghost use Rattle.mk_value.specs.Tables.{Table};
ghost use Rattle.tables.specs.Tables.{StoredTable};
ghost use Rattle.view_store.specs.Views.{NamedTable, table_of};
ghost use Rattle.watches.specs.Histories.{AreFollowed, HaveFollowedLines, Lined};
ghost use Rattle.watches.specs.Lines.{raised_by};
ghost use Rattle.watches.specs.Keeping.{AreInStep, AreKept, AreKeptOver, HaveSameRows, IsWatchOf, Kept, ShowsRows, followed};
ghost use Rattle.watches.specs.Watches.{Followed, followed_by, is_watched, source_of, watch_table};

/// Where each view has the same schema and rows, as after a commit, the watches are kept.
pub fn views_keep_watches()
    ensures { (old new : List NamedTable) (all : List Kept) → HaveSameRows old new → AreKept old all → AreKept new all }
{}

/// A view that nothing watches may change, come or go.
pub fn unwatched_views_may_change()
    ensures { (old new : List NamedTable) (all : List Kept) (view : List ℕ) → is_watched (followed all) view ≡ false
        → ((name : List ℕ) → same_bytes name view ≡ false → table_of new name ≡ table_of old name) → AreKept old all → AreKept new all }
{}

/// A line on a view that nothing watches raises no count.
pub fn unwatched_lines_raise_nothing()
    ensures { (all : List Followed) (view : List ℕ) (n : ℕ) → is_watched all view ≡ false → followed_by all view n ≡ all }
{}

/// The watches of one view are kept over its rows.
pub fn kept_over_view()
    ensures { (views : List NamedTable) (all : List Kept) (view : List ℕ) (t : StoredTable) → AreKept views all → table_of views view ≡ Some t → AreKeptOver view t.schema t.rows all }
{}

/// The positions of a watch are those of the rows that it shows, in the rows of its view; and all watches of the view keep the positions
/// that their operators give over the rows of their sources.
pub fn watches_show_rows()
    ensures { (views : List NamedTable) (all : List Kept) (name : List ℕ) (watching : Watching) (number : ℕ) → AreKept views all → IsWatchOf all name watching number
        → (t : StoredTable) × (shown : Table) × (table_of views (source_of (followed all) name).view ≡ Some t) × (watch_table views (followed all) name ≡ Some shown) × ShowsRows t.rows shown watching number
        × AreNow t.schema t.rows watching.watches }
{}

/// That the watches are kept, as a fact that a type can hold.
pub fn kept_is_in_step()
    ensures in_step { (views : List NamedTable) (all : List Kept) → AreKept views all → AreInStep views all }
    ensures kept { (views : List NamedTable) (all : List Kept) → AreInStep views all → AreKept views all }
{}

/// Over every list of lines that are followed one after another, each on one view, the watches keep the positions of what they show of the rows that
/// then stand, and the watches of each view have followed one event more for each of its rows that the lines put in, took out or changed.
pub fn watches_follow_lines()
    ensures { (views : List NamedTable) (watches : List Kept) (lines : List Lined) → AreKept views watches → AreFollowed views watches lines → HaveFollowedLines views watches lines }
{}

/// So many events more raise a count by as many, up to the greatest number that it holds.
pub fn events_raise()
    ensures { (n followed : ℕ) → followed < 2 ^ 64 → raised_by n followed ≡ min (followed + n) (2 ^ 64 - 1) }
{}
