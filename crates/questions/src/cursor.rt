//! Cursors: positions over views, snapshots and watches.
ghost use Rattle.std.specs.Prelude.{◌≡◌, ◌<◌, ◌↔◌, ◌++◌, ◌∷◌, [], find, length, map, position as place, slice_index_or, IfOk, IsTrue, MatchResult, None, Some, OnOk, OnErr};
ghost use Rattle.std.specs.Option.{option_map, unwrap_or};
ghost use Rattle.computing.specs.Computed.{computed_names};
ghost use Rattle.eval.specs.Names.{IsSeen, Named, seen_at};
ghost use Rattle.mk_value.specs.Literals.{row_text};
ghost use Rattle.mk_value.specs.Names.{same_bytes};
ghost use Rattle.questions.specs.Answers.{Answers};
ghost use Rattle.questions.specs.Cursors.{Placed, has_cursor_on as stands_on, is_cursor as has_name, moved, moved_to, next_due, next_in, previous_due, previous_in, row_due, row_in, rows_computed, rows_standing, rows_under, rows_watched, standing_of, without_cursor};
ghost use Rattle.questions.specs.Kept.{sources};
ghost use Rattle.questions.specs.declared.cursor.Standing.TheVariants.{Watch};
ghost use Rattle.questions.specs.declared.error.QuestionError.TheVariants as question_error;

use crate::error::QuestionError;
use crate::known::Known;
use crate::level::is_absent;
use crate::rows::text_of_row;
use crate::scope::Scope;
use computing::computed_table;
use derived::Derived;
use eval::NameError;
use mk_value::{Memory, Name, TableRead, Text};
use relations::copy_row;
use std::alloc::Global;
use std::marker::Model;
use tables::Shared;
use viewers::Viewer;

/// What a name stands for.
#[derive(Clone, Copy, Debug, PartialEq, Eq)]
pub enum Standing {
    View,
    Snapshot,
    Watch,
}

/// A position over the rows of a view, a snapshot or a watch. What it stands on is what the name meant when the cursor was set, and edits of the
/// rows do not move it, so it may stand behind the last of them.
#[derive(Drop)]
pub struct Cursor {
    pub name: Name,
    pub target: Name,
    pub standing: Standing,
    pub position: u64,
}

impl Model for Cursor {
    ghost use Rattle.questions.specs.Cursors.{Placed, placed_code};

    ghost Value = { Placed };

    ghost coded = { placed_code };

    ghost view = { λ c. record { name = c.name; target = c.target; standing = c.standing; position = c.position } };
}

/// Cursors, in the order in which they were set.
#[derive(Drop)]
pub struct Cursors {
    items: Vec<Cursor>,
}

impl Model for Cursors {
    ghost use Rattle.std.specs.Prelude.{List};
    ghost use Rattle.std.specs.Coded.{coded_list};
    ghost use Rattle.questions.specs.Cursors.{Placed, placed_code};

    ghost Value = { List Placed };

    ghost coded = { coded_list placed_code };

    ghost view = { λ c. c.items.items };
}

impl Cursors {
    /// No cursors.
    pub fn new(alloc: Global) -> Cursors
        ensures { result ≡ [] }
    {
        Cursors {
            items: Vec::new(alloc),
        }
    }

    pub fn as_slice(&self) -> &[Cursor]
        ensures { result.now ≡ self.now }
    {
        self.items.as_slice()
    }

    /// The number of cursors.
    pub fn len(&self) -> usize
        ensures { result ≡ length self.now }
    {
        self.items.len()
    }

    pub fn is_empty(&self) -> bool
        ensures { IsTrue result ↔ (self.now ≡ []) }
    {
        self.items.is_empty()
    }

    /// Appends a cursor.
    pub fn push(&mut self, cursor: Cursor) -> Result<(), Memory>
        ensures ok { OnOk result (self.new ≡ self.old ++ cursor ∷ []) }
        ensures err { OnErr result (self.new ≡ self.old) }
    {
        self.items.push(cursor)?;
        Ok(())
    }

    /// Takes all cursors out. It takes no memory.
    pub fn clear(&mut self)
        ensures { self.new ≡ [] }
    {
        self.items.clear();
    }

    /// Gives the first cursor of a name another position.
    fn move_to(&mut self, name: &Name, position: u64)
        ensures { self.new ≡ moved self.old name.now position }
    {
        if let Some(at) = place_of(self.as_slice(), name) {
            let cursor = &mut self.items[at];
            cursor.position = position;
        }
    }
}

/// The most cursors of a session.
pub const MAX_CURSORS: usize = 64;

/// Whether a cursor has the name.
pub fn is_cursor(cursors: &[Cursor], name: &Name) -> bool
    ensures { result ≡ has_name cursors.now name.now }
{
    cursors.iter().any(|cursor| cursor.name == *name)
}

/// Whether a cursor stands on the view, the snapshot or the watch of a name.
pub fn has_cursor_on(cursors: &[Cursor], standing: Standing, name: &Name) -> bool
    ensures { result ≡ stands_on cursors.now standing name.now }
{
    cursors.iter().any(|cursor| cursor.standing == standing && cursor.target == *name)
}

/// Takes the first cursor of a name out, and answers whether there was one.
pub fn take_out_cursor(cursors: &mut Cursors, name: &Name) -> bool
    ensures there { result ≡ has_name cursors.old name.now }
    ensures rest { cursors.new ≡ without_cursor cursors.old name.now }
{
    match place_of(cursors.as_slice(), name) {
        Some(at) => {
            drop(cursors.items.remove(at));
            true
        }
        None => false,
    }
}

impl<V: Viewer> Scope<'_, V> {
    /// What a name stands for: a view, where none has it a snapshot, and where none has it a watch.
    pub fn standing(&self, name: &Name) -> Option<Standing>
        ensures { result ≡ standing_of self.now.names self.now.computed.now name.now }
    {
        if self.names.view_of(name).is_some() {
            return Some(Standing::View);
        }
        if self.names.is_snapshot(name) {
            return Some(Standing::Snapshot);
        }
        if self.names.is_watch(name) || self.computed.is_computed(name) {
            return Some(Standing::Watch);
        }
        None
    }

    /// Moves a cursor one row further, and gives its position.
    ///
    /// # Errors
    ///
    /// `NoName` where there is no such cursor; `Range` where no row stands at its position. Else `Memory`.
    pub fn next(
        &self,
        alloc: Global,
        cursors: &mut Cursors,
        name: &Name,
    ) -> Result<u64, QuestionError>
        ensures due { Answers (λ position. position) (next_due self.now.names (map V.meaning self.now.viewers.now) self.now.computed.now cursors.old name.now) result }
        ensures moved { cursors.new ≡ moved_to cursors.old name.now result }
    {
        let position = self.one_further(alloc, cursor_of(cursors.as_slice(), name)?)?;
        cursors.move_to(name, position);
        Ok(position)
    }

    /// Moves a cursor one row back, and gives its position.
    ///
    /// # Errors
    ///
    /// `NoName` where there is no such cursor; `Range` where its position is 0. Else `Memory`.
    pub fn previous(
        &self,
        alloc: Global,
        cursors: &mut Cursors,
        name: &Name,
    ) -> Result<u64, QuestionError>
        ensures due { Answers (λ position. position) (previous_due self.now.names (map V.meaning self.now.viewers.now) self.now.computed.now cursors.old name.now) result }
        ensures moved { cursors.new ≡ moved_to cursors.old name.now result }
    {
        let position = self.one_back(alloc, cursor_of(cursors.as_slice(), name)?)?;
        cursors.move_to(name, position);
        Ok(position)
    }

    /// The text of the row at a cursor.
    ///
    /// # Errors
    ///
    /// `NoName` where there is no such cursor; `Range` where no row stands at its position. Else `Memory`.
    pub fn row(&self, alloc: Global, cursors: &[Cursor], name: &Name) -> Result<Text, QuestionError>
        ensures { Answers (λ text. text.bytes) (row_due self.now.names (map V.meaning self.now.viewers.now) self.now.computed.now cursors.now name.now) result }
    {
        self.row_at(alloc, cursor_of(cursors, name)?)
    }

    /// The position one row further than a cursor's.
    fn one_further(&self, alloc: Global, cursor: &Cursor) -> Result<u64, QuestionError>
        ensures { Answers (λ position. position) (next_in (rows_under self.now.names (map V.meaning self.now.viewers.now) self.now.computed.now cursor.now) cursor.now.position) result }
    {
        let size = self.size_under(alloc, cursor)?;
        if cursor.position < size {
            Ok(cursor.position + 1)
        } else {
            Err(QuestionError::Range(size))
        }
    }

    /// The position one row before a cursor's.
    fn one_back(&self, alloc: Global, cursor: &Cursor) -> Result<u64, QuestionError>
        ensures { Answers (λ position. position) (previous_in (rows_under self.now.names (map V.meaning self.now.viewers.now) self.now.computed.now cursor.now) cursor.now.position) result }
    {
        if 0 < cursor.position {
            return Ok(cursor.position - 1);
        }
        let size = self.size_under(alloc, cursor)?;
        Err(QuestionError::Range(size))
    }

    /// The text of the row at a cursor's position.
    fn row_at(&self, alloc: Global, cursor: &Cursor) -> Result<Text, QuestionError>
        ensures { Answers (λ text. text.bytes) (row_in (rows_under self.now.names (map V.meaning self.now.viewers.now) self.now.computed.now cursor.now) cursor.now.position) result }
    {
        let name = &cursor.target;
        let position = cursor.position;
        match cursor.standing {
            Standing::View => row_of(alloc, self.names.view_of(name), position),
            Standing::Snapshot => row_of(alloc, self.names.snapshot_of(name), position),
            Standing::Watch => self.row_of_watch(alloc, name, position),
        }
    }

    /// The text of a row of the watch of a name, computed or not.
    fn row_of_watch(&self, alloc: Global, name: &Name, position: u64) -> Result<Text, QuestionError>
        ensures { Answers (λ text. text.bytes) (row_in (rows_standing self.now.names (map V.meaning self.now.viewers.now) self.now.computed.now Watch name.now) position) result }
    {
        if self.names.is_watch(name) {
            self.names.row_watched(alloc, name, position)
        } else {
            self.row_computed(alloc, name, position)
        }
    }

    /// The number of rows of what a cursor stands on.
    fn size_under(&self, alloc: Global, cursor: &Cursor) -> Result<u64, Memory>
        ensures { IfOk result (λ size. size ≡ length (rows_under self.now.names (map V.meaning self.now.viewers.now) self.now.computed.now cursor.now)) }
    {
        let name = &cursor.target;
        match cursor.standing {
            Standing::View => Ok(size_of(self.names.view_of(name))),
            Standing::Snapshot => Ok(size_of(self.names.snapshot_of(name))),
            Standing::Watch => self.size_of_watch(alloc, name),
        }
    }

    /// The number of rows of the watch of a name, computed or not.
    fn size_of_watch(&self, alloc: Global, name: &Name) -> Result<u64, Memory>
        ensures { IfOk result (λ size. size ≡ length (rows_standing self.now.names (map V.meaning self.now.viewers.now) self.now.computed.now Watch name.now)) }
    {
        if self.names.is_watch(name) {
            Ok(self.names.size_watched(name))
        } else {
            self.size_computed(alloc, name)
        }
    }

    /// The number of rows of the computed watch of a name, where there is one.
    fn size_computed(&self, alloc: Global, name: &Name) -> Result<u64, Memory>
        ensures { IfOk result (λ size. size ≡ length (rows_computed self.now.names (map V.meaning self.now.viewers.now) self.now.computed.now name.now)) }
    {
        match self.computed_table(alloc, name) {
            Ok(table) => Ok(table.size() as u64),
            Err(NameError::NoName) => Ok(0),
            // No steps follow the name, so nothing else is refused.
            Err(_) => Err(Memory),
        }
    }

    /// The text of a row of the computed watch of a name, where there is one.
    fn row_computed(&self, alloc: Global, name: &Name, position: u64) -> Result<Text, QuestionError>
        ensures { Answers (λ text. text.bytes) (row_in (rows_computed self.now.names (map V.meaning self.now.viewers.now) self.now.computed.now name.now) position) result }
    {
        match self.computed_table(alloc, name) {
            Ok(table) => row_within(alloc, &table, position),
            Err(NameError::NoName) => Err(QuestionError::Range(0)),
            // As in `size_computed`.
            Err(_) => Err(QuestionError::Memory),
        }
    }

    /// The table of the first computed watch of a name.
    fn computed_table(&self, alloc: Global, name: &Name) -> Result<Derived<Shared>, NameError>
        ensures { IsSeen (seen_at (find (λ (m : Named). same_bytes m.name name.now) (computed_names (sources self.now.names) (map V.meaning self.now.viewers.now) self.now.computed.now)) []) result }
    {
        let sources = self.names.sources();
        match computed_table(alloc, &sources, self.viewers, self.computed.filters(), name) {
            Ok(table) => Ok(table),
            Err(error) if is_absent(&error) => {
                let filtered = self.level(alloc, &sources, &sources, self.computed.filters());
                computed_table(alloc, &filtered, self.viewers, self.computed.counts(), name)
            }
            Err(error) => Err(error),
        }
    }
}

impl Known<'_> {
    /// The number of rows of the watch of a name, where there is one.
    pub(crate) fn size_watched(&self, name: &Name) -> u64
        ensures { result ≡ length (rows_watched self.now.views self.now.watches name.now) }
    {
        if !self.watches.is_watch(name) {
            return 0;
        }
        self.watches.size(name) as u64
    }

    /// The text of a row of the watch of a name, where there is one.
    pub(crate) fn row_watched(
        &self,
        alloc: Global,
        name: &Name,
        position: u64,
    ) -> Result<Text, QuestionError>
        ensures { Answers (λ text. text.bytes) (row_in (rows_watched self.now.views self.now.watches name.now) position) result }
    {
        let size = self.size_watched(name);
        if position >= size {
            return Err(QuestionError::Range(size));
        }
        Ok(self.text_watched(alloc, name, position as usize)?)
    }

    /// The text of a row that the watch of a name has.
    fn text_watched(&self, alloc: Global, name: &Name, row: usize) -> Result<Text, Memory>
        requires { row < length (rows_watched self.now.views self.now.watches name.now) }
        ensures { IfOk result (λ text. text.bytes ≡ row_text (slice_index_or (rows_watched self.now.views self.now.watches name.now) row [])) }
    {
        let place = self.watches.place(name, row, self.views);
        match self.view_of(self.watches.view_under(name)) {
            Some(view) => text_of_row(alloc, &copy_row(alloc, view, place)?),
            None => unreachable!(),
        }
    }
}

/// The number of rows of a table, where there is one.
fn size_of(table: Option<&Shared>) -> u64
    ensures { result ≡ length (unwrap_or (option_map (λ t. t.now.rows) table.entry) []) }
{
    match table {
        Some(table) => table.size() as u64,
        None => 0,
    }
}

/// The text of a row of a table, where there is one.
fn row_of(alloc: Global, table: Option<&Shared>, position: u64) -> Result<Text, QuestionError>
    ensures { Answers (λ text. text.bytes) (row_in (unwrap_or (option_map (λ t. t.now.rows) table.entry) []) position) result }
{
    let Some(table) = table else {
        return Err(QuestionError::Range(0));
    };
    row_within(alloc, table, position)
}

/// The text of a row of a table.
fn row_within<T: TableRead>(alloc: Global, table: &T, position: u64) -> Result<Text, QuestionError>
    ensures { Answers (λ text. text.bytes) (row_in (T.rows table.now) position) result }
{
    let size = table.size() as u64;
    if position >= size {
        return Err(QuestionError::Range(size));
    }
    let row = copy_row(alloc, table, position as usize)?;
    Ok(text_of_row(alloc, &row)?)
}

/// The place of the first cursor of a name.
fn place_of(cursors: &[Cursor], name: &Name) -> Option<usize>
    ensures { result ≡ place (λ (c : Placed). same_bytes c.name name.now) cursors.now }
{
    cursors.iter().position(|cursor| cursor.name == *name)
}

/// The first cursor of a name.
///
/// # Errors
///
/// `NoName` where there is none.
fn cursor_of<'a>(cursors: &'a [Cursor], name: &Name) -> Result<&'a Cursor, QuestionError>
    ensures { MatchResult result (λ cursor. find (λ (c : Placed). same_bytes c.name name.now) cursors.now ≡ Some cursor.now) (λ e. (find (λ (c : Placed). same_bytes c.name name.now) cursors.now ≡ None) × (e ≡ question_error.NoName)) }
{
    match place_of(cursors, name) {
        Some(at) => Ok(&cursors[at]),
        None => Err(QuestionError::NoName),
    }
}
