//! All watches, by name.
ghost use Rattle.std.specs.Prelude.{◌≡◌, ◌^◌, ◌<◌, ◌++◌, ◌∷◌, [], List, find, length, position, slice_index_or, true, false, None, Some, IfOk, IfSome, IsSome, MatchOption, OnOk, OnErr};
ghost use Rattle.std.specs.Option.{option_map};
ghost use Rattle.derived.specs.Layers.{table_of as table_derived};
ghost use Rattle.watches.specs.Lines.{room_for, watch_due};
ghost use Rattle.live.specs.Edits.{room_of};
ghost use Rattle.live.specs.Laws.{shown};
ghost use Rattle.live.specs.Putting.{AnswersPut, spelled};
ghost use Rattle.mk_value.specs.Data.{Datum};
ghost use Rattle.mk_value.specs.Names.{same_bytes};
ghost use Rattle.row_edits.specs.Edits.{IsInRange, edited};
ghost use Rattle.row_edits.specs.Events.{count_all, count_of};
ghost use Rattle.tables.specs.Tables.{StoredTable};
ghost use Rattle.view_store.specs.Views.{NamedTable, table_of};
ghost use Rattle.watches.specs.Groups.{IsFirst};
ghost use Rattle.watches.specs.Keeping.{AreKept, AreKeptBut, AreKeptOver, ChangesRows, HaveNoted, HaveRoom, IsWatchOf, Kept, ShowsAll, StandsAt, followed, followed_of};
ghost use Rattle.watches.specs.Refusals.{depth_under, put_due};
ghost use Rattle.watches.specs.Rows.{table_read};
ghost use Rattle.watches.specs.Watches.{count, followed_by, has_over, is_among, is_watch as is_name_of_watch, is_watched as is_view_watched, op_of, rows_under, source_of, watch_table, watches_of, with_watch, without_watch};

use crate::followed::Followed;
use crate::listed::{
    at, count, find, find_view, follow_all, follow_line_all, forget_all, has_over, is_watch,
    is_watched, note_all, push, reserve_all,
};
use crate::rows::WatchRows;
use crate::views::shared;
use crate::watching::room_for;
use derived::Derived;
use live::{WatchError, WatchOp, Watches};
use mk_value::{Memory, Name};
use row_edits::{Line, RowEdit};
use std::alloc::Global;
use std::marker::Model;
use tables::Shared;
use view_store::Root;

/// The most watches, over all views.
pub const MAX_WATCHES: usize = 64;

/// The watches of views, each under a name of its own. A watch stands over a view, or over a watch of it that was put before.
#[derive(Drop)]
pub struct Following {
    list: Vec<Followed>,
}

impl Model for Following {
    ghost use Rattle.std.specs.Prelude.{List};
    ghost use Rattle.watches.specs.Keeping.{Kept};

    ghost Value = { List Kept };

    ghost use Rattle.std.specs.Coded.{codes};
    ghost use Rattle.relations.specs.Criteria.{interval_code};

    ghost coded = { Prim.hlevel (codes, interval_code) };

    ghost use Rattle.watches.specs.Groups.{AreWhole};

    ghost view = { λ f. f.list.items };

    ghost invariant = { λ f. AreWhole f.list.items };
}

/// A watch among the watches of its view.
#[derive(Clone, Copy)]
pub struct Watched<'a> {
    pub watches: &'a Watches,
    pub number: u32,
}

impl Following {
    /// No watches.
    pub fn new(alloc: Global) -> Following
        ensures { result ≡ [] }
    {
        Following {
            list: Vec::new(alloc),
        }
    }

    /// Gives all watches up.
    pub fn clear(&mut self)
        ensures { self.new ≡ [] }
    {
        self.list.clear();
    }

    /// How many watches there are, over all views.
    pub fn count(&self) -> usize
        ensures { result ≡ count (followed self.now) }
    {
        count(&self.list)
    }

    /// Whether a watch has the name.
    pub fn is_watch(&self, name: &Name) -> bool
        ensures { result ≡ is_name_of_watch (followed self.now) name.now }
    {
        is_watch(&self.list, name)
    }

    /// Whether a watch stands over the view of the name.
    pub fn is_watched(&self, view: &Name) -> bool
        ensures { result ≡ is_view_watched (followed self.now) view.now }
    {
        is_watched(&self.list, view)
    }

    /// Whether a watch stands over the watch of the name.
    pub fn has_over(&self, name: &Name) -> bool
        ensures { result ≡ has_over (followed self.now) name.now }
    {
        has_over(&self.list, name)
    }

    /// The name of the view over which what has this name stands: that of the watch's view, or else the name itself.
    pub fn view_under<'a>(&'a self, name: &'a Name) -> &'a Name
        ensures { result.now ≡ (source_of (followed self.now) name.now).view }
    {
        match find(&self.list, name) {
            Some(at) => self.list[at].view(),
            None => name,
        }
    }

    /// What the watch of the name shows of its source.
    pub fn op(&self, name: &Name) -> Option<&WatchOp>
        ensures { MatchOption result (op_of (followed self.now) name.now ≡ None) (λ op. op_of (followed self.now) name.now ≡ Some op.now) }
    {
        match find(&self.list, name) {
            Some(at) => Some(self.list[at].op(name)),
            None => None,
        }
    }

    /// Whether a watch has the name and shows all rows of its view: it sorts, and so does each over which it stands.
    pub fn shows_all(&self, name: &Name) -> bool
        ensures watch { result ≡ true → is_name_of_watch (followed self.now) name.now ≡ true }
        ensures rows { result ≡ true → (views : List NamedTable) → AreKept views self.now → ShowsAll views (followed self.now) name.now }
    {
        match find(&self.list, name) {
            Some(at) => self.list[at].shows_all(name),
            None => false,
        }
    }

    /// The watch of the name among the watches of its view.
    pub fn watched(&self, name: &Name) -> Option<Watched<'_>>
        ensures { MatchOption result (is_name_of_watch (followed self.now) name.now ≡ false) (λ w. IsWatchOf self.now name.now w.watches.now w.number) }
    {
        match find(&self.list, name) {
            Some(at) => Some(self.list[at].watched(name)),
            None => None,
        }
    }

    /// How many watches what has this name is over its view, itself among them: none where it is no watch.
    pub fn depth(&self, name: &Name) -> usize
        requires { (views : List NamedTable) × AreKept views self.now }
        ensures { result ≡ depth_under (followed self.now) (source_of (followed self.now) name.now) }
    {
        match find(&self.list, name) {
            Some(at) => self.list[at].depth(name),
            None => 0,
        }
    }

    /// Puts a watch over the watch or the view of a name, and gives the number of its rows. A sorting without keys is by all properties
    /// that are no views.
    ///
    /// # Errors
    ///
    /// The first that is due: `NoProp` where a named property is absent, `WrongKind` where one is a view or a value does not fit it,
    /// `TooDeep` where the chain would be five long, or it would be the 65th watch. Else `Memory`.
    pub fn put(
        &mut self,
        name: &Name,
        source: &Name,
        op: WatchOp,
        views: &Root,
    ) -> Result<u64, WatchError>
        requires there { IsSome (table_of views.now (source_of (followed self.old) source.now).view) }
        requires kept { AreKept views.now self.old }
        ensures due { (t : StoredTable) → table_of views.now (source_of (followed self.old) source.now).view ≡ Some t
            → AnswersPut (put_due t.schema (followed self.old) (source_of (followed self.old) source.now) op) result }
        ensures ok { (t : StoredTable) → table_of views.now (source_of (followed self.old) source.now).view ≡ Some t
            → OnOk result (followed self.new ≡ with_watch (followed self.old) (source_of (followed self.old) source.now).view
            (record { name = name.now; source = (source_of (followed self.old) source.now).over; op = spelled t.schema op; followed = 0 })) }
        ensures size { (t : StoredTable) → table_of views.now (source_of (followed self.old) source.now).view ≡ Some t
            → IfOk result (λ size. size ≡ length (shown t.schema (spelled t.schema op)
            (rows_under t (watches_of (followed self.old) (source_of (followed self.old) source.now).view) (source_of (followed self.old) source.now).over))) }
        ensures kept { AreKept views.now self.new }
        ensures err { OnErr result (self.new ≡ self.old) }
    {
        let is_full = self.count() >= MAX_WATCHES;
        let view = self.view_under(source).copy()?;
        let over = self.over(source);
        let table = shared(views, &view);
        match find_view(&self.list, &view) {
            Some(at) => self.list[at].put(name, over, op, table, is_full),
            None => self.put_first(view, name, op, table, is_full),
        }
    }

    /// Gives up the watch of a name, over which no watch stands.
    pub fn take_out(&mut self, name: &Name)
        requires there { is_name_of_watch (followed self.old) name.now ≡ true }
        requires free { has_over (followed self.old) name.now ≡ false }
        ensures rest { followed self.new ≡ without_watch (followed self.old) name.now }
        ensures kept { (views : List NamedTable) → AreKept views self.old → AreKept views self.new }
    {
        let at = at(&self.list, name);
        if self.list[at].len() == 1 {
            drop(self.list.remove(at));
        } else {
            self.list[at].take_out(name);
        }
    }

    /// The table of the watch of a name, over that of its view.
    ///
    /// # Errors
    ///
    /// `Memory`.
    pub fn table(&self, name: &Name, views: &Root) -> Result<Derived<Shared>, Memory>
        requires there { is_name_of_watch (followed self.now) name.now ≡ true }
        requires kept { AreKept views.now self.now }
        ensures { IfOk result (λ d. watch_table views.now (followed self.now) name.now ≡ Some (table_derived d)) }
    {
        let watches = &self.list[at(&self.list, name)];
        watches.table(name, shared(views, watches.view()))
    }

    /// The rows of the watch of a name, over those of its view, read where they stand there. It takes no memory.
    pub fn rows<'a>(&'a self, name: &Name, views: &'a Root) -> WatchRows<'a>
        requires there { is_name_of_watch (followed self.now) name.now ≡ true }
        requires kept { AreKept views.now self.now }
        ensures { watch_table views.now (followed self.now) name.now ≡ Some (table_read result) }
    {
        let watches = &self.list[at(&self.list, name)];
        watches.rows(name, shared(views, watches.view()))
    }

    /// How many rows the watch of a name has. It takes no memory.
    pub fn size(&self, name: &Name) -> usize
        requires { is_name_of_watch (followed self.now) name.now ≡ true }
        ensures { (views : List NamedTable) → AreKept views self.now → option_map (λ t. length t.rows) (watch_table views (followed self.now) name.now) ≡ Some result }
    {
        self.list[at(&self.list, name)].size(name)
    }

    /// Where a row of the watch of a name stands in its view. It takes no memory.
    pub fn place(&self, name: &Name, row: usize, views: &Root) -> usize
        requires there { is_name_of_watch (followed self.now) name.now ≡ true }
        requires kept { AreKept views.now self.now }
        requires row_in { IfSome (watch_table views.now (followed self.now) name.now) (λ t. row < length t.rows) }
        ensures { IfSome (table_of views.now (source_of (followed self.now) name.now).view) (λ t. StandsAt t.rows result (watch_table views.now (followed self.now) name.now) row) }
    {
        self.list[at(&self.list, name)].place_of_row(name, row)
    }

    /// Makes room for the watches of a view to follow edits: for rows that come and rows that change, and none for rows that go.
    ///
    /// # Errors
    ///
    /// `Memory`.
    pub fn reserve(&mut self, view: &Name, edits: &[RowEdit]) -> Result<(), Memory>
        requires few { room_for edits.now < 2 ^ 64 }
        ensures same { followed self.new ≡ followed self.old }
        ensures kept { (views : List NamedTable) → AreKept views self.old → AreKept views self.new }
        ensures room { OnOk result (HaveRoom view.now (room_for edits.now) self.new) }
    {
        reserve_all(&mut self.list, view, room_for(edits))
    }

    /// The watches of a view note an edit of its rows before it is made. It takes no memory.
    pub fn note(&mut self, view: &Name, rows: &Shared, edit: RowEdit)
        requires kept { AreKeptOver view.now rows.now.schema rows.now.rows self.old }
        requires range { IsInRange edit (length rows.now.rows) }
        requires room { HaveRoom view.now (room_of edit) self.old }
        ensures same { followed self.new ≡ followed self.old }
        ensures noted { HaveNoted view.now rows.now.schema rows.now.rows edit self.new }
        ensures kept { (views : List NamedTable) → AreKept views self.old → AreKeptBut view.now views self.new }
    {
        note_all(&mut self.list, view, rows, edit);
    }

    /// The watches of a view wait for an event again: the edit that they noted is not made. It takes no memory.
    pub fn forget(&mut self, view: &Name, rows: &Shared, edit: RowEdit)
        requires { HaveNoted view.now rows.now.schema rows.now.rows edit self.old }
        ensures same { followed self.new ≡ followed self.old }
        ensures kept { (views : List NamedTable) → AreKeptBut view.now views self.old → AreKept views self.new }
    {
        forget_all(&mut self.list, view, rows, edit);
    }

    /// The watches of a view follow the edit of its rows that they noted, now that it is made. It takes no memory.
    pub fn follow(&mut self, view: &Name, rows: &Shared, edit: RowEdit)
        requires noted { (before : List (List Datum)) × HaveNoted view.now rows.now.schema before edit self.old × ((row : List Datum) × (rows.now.rows ≡ edited row edit before)) }
        ensures followed { followed self.new ≡ followed_by (followed self.old) view.now (count_of edit) }
        ensures kept { (before : List (List Datum)) (old new : List NamedTable) → AreKeptBut view.now old self.old → ChangesRows view.now rows.now.schema before rows.now.rows old new → AreKept new self.new }
    {
        follow_all(&mut self.list, view, rows, edit);
    }

    /// The watches of a view follow a line on it. It takes no memory.
    pub fn follow_line(&mut self, view: &Name, line: &Line<'_, Shared>)
        requires kept { AreKeptOver view.now line.now.before.now.schema line.now.before.now.rows self.old }
        requires room { HaveRoom view.now (room_for line.now.edits.now) self.old }
        ensures followed { followed self.new ≡ followed_by (followed self.old) view.now (count_all line.now.edits.now) }
        ensures kept { (old new : List NamedTable) → AreKept old self.old → ChangesRows view.now line.now.before.now.schema line.now.before.now.rows line.now.after.now.rows old new → AreKept new self.new }
    {
        follow_line_all(&mut self.list, view, line);
    }

    /// The place of the watch of the name among the watches of its view, or none where no watch has it.
    fn over(&self, name: &Name) -> Option<usize>
        ensures { result ≡ (source_of (followed self.now) name.now).over }
    {
        match find(&self.list, name) {
            Some(at) => Some(self.list[at].place(name)),
            None => None,
        }
    }

    /// Puts the first watch over a view.
    fn put_first(
        &mut self,
        view: Name,
        name: &Name,
        op: WatchOp,
        rows: &Shared,
        is_full: bool,
    ) -> Result<u64, WatchError>
        requires few { is_full ≡ false → count (followed self.old) < 64 }
        requires first { is_view_watched (followed self.old) view ≡ false }
        ensures due { AnswersPut (watch_due rows.now.schema op 0 is_full) result }
        ensures put { IfOk result (λ size. IsFirst rows.now.schema rows.now.rows view name.now op self.old self.new size) }
        ensures err { OnErr result (self.new ≡ self.old) }
    {
        let alloc = *self.list.allocator();
        let (watches, size) = Followed::first(alloc, view, name, op, rows, is_full)?;
        push(&mut self.list, watches)?;
        Ok(size)
    }
}
