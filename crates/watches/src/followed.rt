//! The watches of one view, by name.
ghost use Rattle.std.specs.Prelude.{◌≡◌, ◌<◌, ◌≤◌, ◌+◌, [], List, false, true, length, position, vec_len, None, Some, IfOk, OnOk, OnErr};
ghost use Rattle.std.specs.List.{list_any, position_or_len};
ghost use Rattle.std.specs.List.Sorted.{IsPermutation};
ghost use Rattle.std.specs.Option.{ForSome, option_map, unwrap_or};
ghost use Rattle.std.specs.Vec.{vec_capacity};
ghost use Rattle.derived.specs.Layers.{table_of as table_derived};
ghost use Rattle.watches.specs.Lines.{room_for, watch_due};
ghost use Rattle.live.specs.Chains.{AreInOrder, AreNow, depth, seen, source_depth};
ghost use Rattle.live.specs.Edits.{room_of};
ghost use Rattle.live.specs.Numbers.{over_of, place_of as place_numbered};
ghost use Rattle.live.specs.Putting.{AnswersPut};
ghost use Rattle.mk_value.specs.Data.{Datum};
ghost use Rattle.mk_value.specs.Heading.{Attribute};
ghost use Rattle.mk_value.specs.Names.{same_bytes};
ghost use Rattle.row_edits.specs.Edits.{IsInRange, edited};
ghost use Rattle.row_edits.specs.Events.{count_all, count_of};
ghost use Rattle.tables.specs.Tables.{StoredTable};
ghost use Rattle.watches.specs.Groups.{AreNumbered, Follows, Forgets, IsPutBehind, IsPutOver, Notes, Stays, is_source};
ghost use Rattle.watches.specs.Keeping.{HasNoted, HasRoom, IsKeptOver, StandsAt, followed_of, shown_by};
ghost use Rattle.watches.specs.Refusals.{depths};
ghost use Rattle.watches.specs.Rows.{table_read};
ghost use Rattle.watches.specs.Watches.{Shown, is_among, op_found, place_of, shown_at, stands_over, without_place};

use crate::following::Watched;
use crate::putting::{check_watch, put_watch, watch_positions};
use crate::rows::WatchRows;
use crate::watching::{follow_edit, follow_line, forget_edit, note_edit};
use derived::{Derived, pick};
use live::{WatchError, WatchOp, Watches};
use mk_value::{Memory, Name, Same, TableRead};
use row_edits::{Line, RowEdit};
use std::alloc::Global;
use std::marker::Model;
use tables::Shared;

/// The watches of one view, each under a name. There is at least one.
#[derive(Drop)]
pub(crate) struct Followed {
    view: Name,
    // In the order of the watches.
    names: Vec<Name>,
    watches: Watches,
}

impl Model for Followed {
    ghost use Rattle.watches.specs.Keeping.{Kept};

    ghost Value = { Kept };

    ghost use Rattle.std.specs.Coded.{codes};
    ghost use Rattle.relations.specs.Criteria.{interval_code};

    ghost coded = { Prim.hlevel (codes, interval_code) };

    ghost use Rattle.watches.specs.Groups.{AreNamed};

    ghost view = { λ f. record { view = f.view; names = f.names.items; watching = f.watches } };

    ghost invariant = { λ f. AreNamed f.names.items f.watches.watches };
}

impl Followed {
    /// The name of the view.
    pub fn view(&self) -> &Name
        ensures { result.now ≡ self.now.view }
    {
        &self.view
    }

    /// How many watches there are.
    pub fn len(&self) -> usize
        ensures { result ≡ length (followed_of self.now).watches }
    {
        self.names.len()
    }

    /// Whether it is the view of the name whose watches these are.
    pub fn is_of(&self, view: &Name) -> bool
        ensures { result ≡ same_bytes self.now.view view.now }
    {
        self.view == *view
    }

    /// Whether one of these watches has the name.
    pub fn has(&self, name: &Name) -> bool
        ensures { result ≡ is_among (followed_of self.now).watches name.now }
    {
        has_name(&self.names, name)
    }

    /// The place of the first watch of the name.
    pub fn place(&self, name: &Name) -> usize
        requires { is_among (followed_of self.now).watches name.now ≡ true }
        ensures value { result ≡ place_of (followed_of self.now).watches name.now }
        ensures within { result < length self.now.names }
    {
        place_of_name(&self.names, name)
    }

    /// What the first watch of the name shows of its source.
    pub fn op(&self, name: &Name) -> &WatchOp
        requires { is_among (followed_of self.now).watches name.now ≡ true }
        ensures { op_found (Some (followed_of self.now)) name.now ≡ Some result.now }
    {
        self.watches.op_at(self.place(name))
    }

    /// Whether a watch stands over one of the name.
    pub fn has_over(&self, name: &Name) -> bool
        ensures { result ≡ list_any (λ (s : Shown). stands_over (followed_of self.now).watches name.now s.source) (followed_of self.now).watches }
    {
        has_over(&self.names, &self.watches, name)
    }

    /// How many watches the first watch of the name is over the view, itself among them.
    pub fn depth(&self, name: &Name) -> usize
        requires there { is_among (followed_of self.now).watches name.now ≡ true }
        requires order { AreInOrder self.now.watching.watches }
        ensures { result ≡ source_depth (depths [] (followed_of self.now).watches) (Some (place_of (followed_of self.now).watches name.now)) }
    {
        depth_of(&self.watches, Some(self.place(name)))
    }

    /// Whether the first watch of the name shows all rows of the view: it sorts, and so does each over which it stands.
    pub fn shows_all(&self, name: &Name) -> bool
        requires { is_among (followed_of self.now).watches name.now ≡ true }
        ensures { result ≡ true → (t : StoredTable) → IsKeptOver t.schema t.rows self.now
            → IsPermutation t.rows (shown_at (followed_of self.now).watches (place_of (followed_of self.now).watches name.now) t).rows }
    {
        sorts(&self.watches, self.place(name))
    }

    /// The first watch of the name.
    pub fn watched(&self, name: &Name) -> Watched<'_>
        requires { is_among (followed_of self.now).watches name.now ≡ true }
        ensures watches { result.watches.now ≡ self.now.watching }
        ensures paired { length self.now.names ≡ length self.now.watching.watches }
        ensures there { place_numbered self.now.watching.watches result.number < length self.now.watching.watches }
        ensures place { place_numbered self.now.watching.watches result.number ≡ place_of (followed_of self.now).watches name.now }
    {
        Watched {
            watches: &self.watches,
            number: self.watches.number_at(self.place(name)),
        }
    }

    /// The watches of a view over which the first one is put.
    pub fn first<T: TableRead>(
        alloc: Global,
        view: Name,
        name: &Name,
        op: WatchOp,
        rows: &T,
        is_full: bool,
    ) -> Result<(Followed, u64), WatchError>
        ensures due { AnswersPut (watch_due (T.schema rows.now) op 0 is_full) result }
        ensures view { IfOk result (λ made. made.0.view ≡ view) }
        ensures put { IfOk result (λ made. IsPutOver (T.schema rows.now) (T.rows rows.now) [] name.now None op made.0 made.1) }
    {
        let _size = rows.size();
        let mut names = Vec::new(alloc);
        let mut watches = Watches::new(alloc);
        let size = put_named(&mut names, &mut watches, name, None, op, rows, is_full)?;
        let followed = Followed {
            view,
            names,
            watches,
        };
        Ok((followed, size))
    }

    /// Puts a watch over the view, or over the watch at a place, and gives the number of its rows.
    pub fn put<T: TableRead>(
        &mut self,
        name: &Name,
        over: Option<usize>,
        op: WatchOp,
        rows: &T,
        is_full: bool,
    ) -> Result<u64, WatchError>
        requires few { is_full ≡ false → length (followed_of self.old).watches < 64 }
        requires over { ForSome over (λ k. k < length (followed_of self.old).watches) }
        requires kept { IsKeptOver (T.schema rows.now) (T.rows rows.now) self.old }
        ensures due { AnswersPut (watch_due (T.schema rows.now) op (source_depth (depths [] (followed_of self.old).watches) over) is_full) result }
        ensures view { self.new.view ≡ self.old.view }
        ensures put { IfOk result (λ size. IsPutOver (T.schema rows.now) (T.rows rows.now) (followed_of self.old).watches name.now over op self.new size) }
        ensures kept { IsKeptOver (T.schema rows.now) (T.rows rows.now) self.new }
        ensures err { OnErr result (self.new ≡ self.old) }
    {
        put_named(
            &mut self.names,
            &mut self.watches,
            name,
            over,
            op,
            rows,
            is_full,
        )
    }

    /// Takes the first watch of the name out, over which no watch stands.
    pub fn take_out(&mut self, name: &Name)
        requires there { is_among (followed_of self.old).watches name.now ≡ true }
        requires free { list_any (λ (s : Shown). stands_over (followed_of self.old).watches name.now s.source) (followed_of self.old).watches ≡ false }
        requires more { 1 < length (followed_of self.old).watches }
        ensures rest { followed_of self.new ≡ record (followed_of self.old) { watches = without_place (place_of (followed_of self.old).watches name.now) (followed_of self.old).watches } }
        ensures kept { (schema : List Attribute) (rows : List (List Datum)) → IsKeptOver schema rows self.old → IsKeptOver schema rows self.new }
    {
        let place = self.place(name);
        let number = self.watches.number_at(place);
        drop(self.names.remove(place));
        self.watches.take_out(number);
    }

    /// The rows of the first watch of the name, over those of the view.
    pub fn table(&self, name: &Name, rows: &Shared) -> Result<Derived<Shared>, Memory>
        requires there { is_among (followed_of self.now).watches name.now ≡ true }
        requires kept { IsKeptOver rows.now.schema rows.now.rows self.now }
        ensures { IfOk result (λ d. table_derived d ≡ shown_at (followed_of self.now).watches (place_of (followed_of self.now).watches name.now) rows.now) }
    {
        let alloc = *self.names.allocator();
        let number = self.watches.number_at(self.place(name));
        let positions = watch_positions(alloc, &self.watches, number, rows)?;
        pick(alloc, rows.same()?, positions)
    }

    /// The rows of the first watch of the name, over those of the view, read where they stand there.
    pub fn rows<'a>(&'a self, name: &Name, rows: &'a Shared) -> WatchRows<'a>
        requires there { is_among (followed_of self.now).watches name.now ≡ true }
        requires kept { IsKeptOver rows.now.schema rows.now.rows self.now }
        ensures { table_read result ≡ shown_at (followed_of self.now).watches (place_of (followed_of self.now).watches name.now) rows.now }
    {
        let number = self.watches.number_at(self.place(name));
        WatchRows {
            watches: &self.watches,
            number,
            rows,
        }
    }

    /// How many rows the first watch of the name has.
    pub fn size(&self, name: &Name) -> usize
        requires { is_among (followed_of self.now).watches name.now ≡ true }
        ensures { (t : StoredTable) → IsKeptOver t.schema t.rows self.now → result ≡ length (shown_at (followed_of self.now).watches (place_of (followed_of self.now).watches name.now) t).rows }
    {
        let number = self.watches.number_at(self.place(name));
        self.watches.len(number)
    }

    /// Where a row of the first watch of the name stands in the view.
    pub fn place_of_row(&self, name: &Name, row: usize) -> usize
        requires there { is_among (followed_of self.now).watches name.now ≡ true }
        requires kept { (t : StoredTable) × IsKeptOver t.schema t.rows self.now × (row < length (shown_at (followed_of self.now).watches (place_of (followed_of self.now).watches name.now) t).rows) }
        ensures { (t : StoredTable) → IsKeptOver t.schema t.rows self.now → StandsAt t.rows result (Some (shown_at (followed_of self.now).watches (place_of (followed_of self.now).watches name.now) t)) row }
    {
        let number = self.watches.number_at(self.place(name));
        self.watches.at(number, row)
    }

    /// Lays so many chunks more aside for each watch, where the view has the name.
    pub fn reserve(&mut self, view: &Name, more: usize) -> Result<(), Memory>
        ensures stays { Stays self.old self.new }
        ensures room { OnOk result (same_bytes self.new.view view.now ≡ true → HasRoom more self.new) }
    {
        if self.view == *view {
            self.watches.reserve(more)?;
        }
        Ok(())
    }

    /// The watches note an edit of the rows of their view before it is made, where the view has the name.
    pub fn note(&mut self, view: &Name, rows: &Shared, edit: RowEdit)
        requires kept { same_bytes self.old.view view.now ≡ true → IsKeptOver rows.now.schema rows.now.rows self.old }
        requires range { IsInRange edit (length rows.now.rows) }
        requires room { same_bytes self.old.view view.now ≡ true → HasRoom (room_of edit) self.old }
        ensures { Notes view.now rows.now.schema rows.now.rows edit self.old self.new }
    {
        if self.view == *view {
            note_edit(&mut self.watches, rows, edit);
        }
    }

    /// The watches wait for an event again, where the view has the name: the edit that they noted is not made.
    pub fn forget(&mut self, view: &Name, rows: &Shared, edit: RowEdit)
        requires { same_bytes self.old.view view.now ≡ true → HasNoted rows.now.schema rows.now.rows edit self.old }
        ensures { Forgets view.now self.old self.new }
    {
        if self.view == *view {
            forget_edit(&mut self.watches, rows, edit);
        }
    }

    /// The watches follow the edit of the rows of their view that they noted, where the view has the name.
    pub fn follow(&mut self, view: &Name, rows: &Shared, edit: RowEdit)
        requires noted { same_bytes self.old.view view.now ≡ true → (before : List (List Datum)) × HasNoted rows.now.schema before edit self.old × ((row : List Datum) × (rows.now.rows ≡ edited row edit before)) }
        ensures { Follows view.now (count_of edit) rows.now.schema rows.now.rows self.old self.new }
    {
        if self.view == *view {
            follow_edit(&mut self.watches, rows, edit);
        }
    }

    /// The watches follow a line, where the view has the name.
    pub fn follow_line(&mut self, view: &Name, line: &Line<'_, Shared>)
        requires kept { same_bytes self.old.view view.now ≡ true → IsKeptOver line.now.before.now.schema line.now.before.now.rows self.old }
        requires room { same_bytes self.old.view view.now ≡ true → HasRoom (room_for line.now.edits.now) self.old }
        ensures { Follows view.now (count_all line.now.edits.now) line.now.before.now.schema line.now.after.now.rows self.old self.new }
    {
        if self.view == *view {
            follow_line(&mut self.watches, line);
        }
    }
}

/// Whether a name is among names.
fn has_name(names: &[Name], name: &Name) -> bool
    ensures { result ≡ list_any (λ known. same_bytes known name.now) names.now }
{
    names.iter().any(|known| *known == *name)
}

/// The place of the first of a name among names.
fn place_of_name(names: &[Name], name: &Name) -> usize
    requires { list_any (λ known. same_bytes known name.now) names.now ≡ true }
    ensures value { result ≡ position_or_len (λ known. same_bytes known name.now) names.now }
    ensures within { result < length names.now }
{
    find_name(names, name).unwrap()
}

/// The place of the first of a name among names, if it is there.
fn find_name(names: &[Name], name: &Name) -> Option<usize>
    ensures { result ≡ position (λ known. same_bytes known name.now) names.now }
{
    names.iter().position(|known| *known == *name)
}

/// Whether one of the watches stands over one of the name.
fn has_over(names: &[Name], watches: &Watches, name: &Name) -> bool
    requires { length names.now ≡ length watches.now.watches }
    ensures { result ≡ list_any (λ (s : Shown). stands_over (shown_by names.now watches.now.watches) name.now s.source) (shown_by names.now watches.now.watches) }
{
    for place in 0..names.len() {
        if is_over(names, name, watches.source_at(place)) {
            return true;
        }
    }
    false
}

/// Whether a source is a watch of the name.
fn is_over(names: &[Name], name: &Name, source: Option<usize>) -> bool
    requires { ForSome source (λ k. k < length names.now) }
    ensures { result ≡ is_source names.now name.now source }
{
    match source {
        None => false,
        Some(place) => names[place] == *name,
    }
}

/// Puts a watch and its name behind the others, and gives the number of its rows.
fn put_named<T: TableRead>(
    names: &mut Vec<Name>,
    watches: &mut Watches,
    name: &Name,
    over: Option<usize>,
    op: WatchOp,
    rows: &T,
    is_full: bool,
) -> Result<u64, WatchError>
    requires over { ForSome over (λ k. k < length watches.old.watches) }
    requires few { is_full ≡ false → length watches.old.watches < 64 }
    requires numbered { AreNumbered watches.old.watches }
    requires noted { watches.old.noted ≡ None }
    requires now { AreNow (T.schema rows.now) (T.rows rows.now) watches.old.watches }
    ensures due { AnswersPut (watch_due (T.schema rows.now) op (depth watches.old.watches over) is_full) result }
    ensures put { IfOk result (λ size. IsPutBehind (T.schema rows.now) (T.rows rows.now) names.old.items watches.old.watches name.now over op names.new.items watches.new size) }
    ensures noted { watches.new.noted ≡ None }
    ensures now { AreNow (T.schema rows.now) (T.rows rows.now) watches.new.watches }
    ensures err_names { OnErr result (names.new.items ≡ names.old.items) }
    ensures err_watches { OnErr result (watches.new ≡ watches.old) }
{
    let source = number_of(watches, over);
    check_watch(watches, source, &op, rows.schema(), is_full)?;
    let name = name.copy()?;
    make_room(names)?;
    let number = put_watch(watches, source, op, rows, is_full)?;
    names.push_reserved(name);
    Ok(watches.len(number) as u64)
}

/// How many watches a source is over the view, itself among them.
fn depth_of(watches: &Watches, source: Option<usize>) -> usize
    requires order { AreInOrder watches.now.watches }
    requires there { ForSome source (λ k. k < length watches.now.watches) }
    ensures value { result ≡ depth watches.now.watches source }
    ensures few { result ≤ unwrap_or (option_map (λ k. k + 1) source) 0 }
{
    // A machine word holds the number of all, so one more than a place too.
    let _count = watches.count();
    match source {
        None => 0,
        Some(place) => depth_of(watches, watches.source_at(place)) + 1,
    }
}

/// Whether the watch at a place sorts, and so does each over which it stands.
fn sorts(watches: &Watches, place: usize) -> bool
    requires { place < length watches.now.watches }
    ensures { result ≡ true → (schema : List Attribute) (rows : List (List Datum)) → AreNow schema rows watches.now.watches → IsPermutation rows (seen rows watches.now.watches (Some place)) }
{
    match watches.op_at(place) {
        WatchOp::Range(_) => false,
        WatchOp::Sort(_) => match watches.source_at(place) {
            None => true,
            Some(below) => sorts(watches, below),
        },
    }
}

/// The number of the watch at a place, or none for the root.
fn number_of(watches: &Watches, over: Option<usize>) -> Option<u32>
    requires over { ForSome over (λ k. k < length watches.now.watches) }
    requires numbered { AreNumbered watches.now.watches }
    ensures over { over_of watches.now.watches result ≡ over }
    ensures there { ForSome result (λ n. place_numbered watches.now.watches n < length watches.now.watches) }
{
    match over {
        None => None,
        Some(place) => Some(watches.number_at(place)),
    }
}

/// Makes room for a name more.
fn make_room(names: &mut Vec<Name>) -> Result<(), Memory>
    ensures same { names.new.items ≡ names.old.items }
    ensures room { OnOk result (vec_len names.new < vec_capacity names.new) }
{
    names.reserve(1)?;
    Ok(())
}
