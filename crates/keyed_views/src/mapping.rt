//! What is kept of the rows of one view.
ghost use Rattle.std.specs.Prelude.{◌≡◌, ◌≤◌, ◌<◌, ◌+◌, ℕ, List, [], length, take, IfOk, None, OnOk};
ghost use Rattle.keyed_views.specs.Keyed.{edits_of};
ghost use Rattle.keyed_views.specs.declared.keyed.KeyedEdit.TheVariants as keyed;
ghost use Rattle.mapped.specs.Keys.{AscendByKey, IsKeyFor, keys_of};
ghost use Rattle.mapped.specs.Refusals.{count_due};
ghost use Rattle.mk_value.specs.Data.{Datum};
ghost use Rattle.mk_value.specs.Limits.{max_rows};
ghost use Rattle.row_edits.specs.Edits.{edited_by, size_by};
ghost use Rattle.keyed_views.specs.Keeping.{Ascend, CanFollow, IsReady, Keeps, Stays, by_of};
ghost use Rattle.keyed_views.specs.Mapped.{put_key, set_key};
ghost use Rattle.keyed_views.specs.Refusals.{AnswersRows, rows_due, told_of_map};
ghost use Rattle.keyed_views.specs.declared.by.By.TheVariants as by_kind;
ghost use Rattle.keyed_views.specs.declared.mapping.Mapping.TheVariants.{Hashed, InOrder};

use crate::by::By;
use crate::coming::Coming;
use crate::error::MappingError;
use crate::hashed::{follow_hashed, follow_removal};
use crate::keyed::KeyedEdit;
use crate::ordered::{put_ordered, set_ordered};
use mapped::{HashIndex, MapError, Ordered};
use mk_value::{Memory, Row, TableRead};
use std::alloc::Global;

/// What is kept of the rows of a view.
#[derive(Drop)]
pub enum Mapping {
    /// An index of their keys.
    Hashed(HashIndex),
    /// They stand in the order of their keys.
    InOrder(Ordered),
}

impl Mapping {
    /// A mapping of rows by their first values, so many.
    pub fn make<T: TableRead>(
        alloc: Global,
        by: By,
        keys: usize,
        table: &T,
    ) -> Result<Mapping, MappingError>
        requires { count_due keys (T.schema table.now) ≡ None }
        ensures due { AnswersRows by (rows_due by keys (T.rows table.now)) result }
        ensures by { IfOk result (λ m. by_of m ≡ by) }
        ensures kept { IfOk result (λ m. Keeps m keys (T.rows table.now)) }
    {
        match by {
            By::Hash => make_index(alloc, keys, table),
            By::Order => make_order(keys, table),
        }
    }

    /// By what the rows are kept.
    pub fn by(&self) -> By
        ensures { result ≡ by_of self.now }
    {
        match self {
            Mapping::Hashed(_) => By::Hash,
            Mapping::InOrder(_) => By::Order,
        }
    }

    /// How a row of this key is put among the rows. It makes room to follow it.
    pub fn put<T: TableRead>(
        &mut self,
        keys: usize,
        table: &T,
        key: &Row,
        at: usize,
    ) -> Result<KeyedEdit, Memory>
        requires plain { count_due keys (T.schema table.now) ≡ None }
        requires kept { Keeps self.old keys (T.rows table.now) }
        requires key { IsKeyFor (T.schema table.now) key.now }
        requires full { length key.now ≡ keys }
        requires place { at ≤ length (T.rows table.now) }
        ensures edit { IfOk result (λ edit. edit ≡ put_key (by_of self.old) keys key.now at (T.rows table.now)) }
        ensures stays { Stays self.old self.new }
        ensures ready { IfOk result (λ edit. size_by (edits_of edit) (length (T.rows table.now)) ≤ max_rows → IsReady (record { edit = edit; key = key.now }) self.new) }
        ensures ascend { IfOk result (λ edit. (row : List Datum) → take keys row ≡ key.now → Ascend self.new keys (edited_by row (edits_of edit) (T.rows table.now))) }
    {
        match self {
            Mapping::Hashed(index) => put_hashed(index, keys, table, key, at),
            Mapping::InOrder(order) => Ok(put_ordered(order, table, key)),
        }
    }

    /// How the row at a place is given this key. It makes room to follow that.
    pub fn set<T: TableRead>(
        &mut self,
        keys: usize,
        table: &T,
        key: &Row,
        at: usize,
    ) -> Result<KeyedEdit, Memory>
        requires plain { count_due keys (T.schema table.now) ≡ None }
        requires kept { Keeps self.old keys (T.rows table.now) }
        requires key { IsKeyFor (T.schema table.now) key.now }
        requires full { length key.now ≡ keys }
        requires there { at < length (T.rows table.now) }
        ensures edit { IfOk result (λ edit. edit ≡ set_key (by_of self.old) keys key.now at (T.rows table.now)) }
        ensures stays { Stays self.old self.new }
        ensures ready { IfOk result (λ edit. IsReady (record { edit = edit; key = key.now }) self.new) }
        ensures ascend { IfOk result (λ edit. (row : List Datum) → take keys row ≡ key.now → Ascend self.new keys (edited_by row (edits_of edit) (T.rows table.now))) }
    {
        match self {
            Mapping::Hashed(index) => set_hashed(index, keys, table, key, at),
            Mapping::InOrder(order) => Ok(set_ordered(order, table, key, at)),
        }
    }

    /// Follows what comes. It takes no memory.
    pub fn follow(&mut self, coming: Coming)
        requires { IsReady coming self.old }
        ensures by { by_of self.new ≡ by_of self.old }
        ensures keeps { (keys : ℕ) (rows : List (List Datum)) (row : List Datum) → Keeps self.old keys rows → take keys row ≡ coming.key
            → Ascend self.old keys (edited_by row (edits_of coming.edit) rows) → Keeps self.new keys (edited_by row (edits_of coming.edit) rows) }
    {
        match self {
            Mapping::Hashed(index) => follow(index, coming),
            Mapping::InOrder(_) => drop(coming),
        }
    }
}

/// An index of rows by their first values, so many.
fn make_index<T: TableRead>(alloc: Global, keys: usize, table: &T) -> Result<Mapping, MappingError>
    requires { count_due keys (T.schema table.now) ≡ None }
    ensures due { AnswersRows by_kind.Hash (rows_due by_kind.Hash keys (T.rows table.now)) result }
    ensures by { IfOk result (λ m. by_of m ≡ by_kind.Hash) }
    ensures kept { IfOk result (λ m. Keeps m keys (T.rows table.now)) }
{
    match HashIndex::make(alloc, table, keys) {
        Ok(index) => Ok(Mapping::Hashed(index)),
        Err(error) => Err(of_map(error)),
    }
}

/// A mapping of rows that stand in the order of their first values, so many.
fn make_order<T: TableRead>(keys: usize, table: &T) -> Result<Mapping, MappingError>
    requires { count_due keys (T.schema table.now) ≡ None }
    ensures due { AnswersRows by_kind.Order (rows_due by_kind.Order keys (T.rows table.now)) result }
    ensures by { IfOk result (λ m. by_of m ≡ by_kind.Order) }
    ensures kept { IfOk result (λ m. Keeps m keys (T.rows table.now)) }
{
    match Ordered::make(table, keys) {
        Ok(order) => Ok(Mapping::InOrder(order)),
        Err(error) => Err(of_map(error)),
    }
}

/// How the refusal of keys that a schema can have is that of a mapping.
fn of_map(error: MapError) -> MappingError
    ensures { result ≡ told_of_map error }
{
    match error {
        MapError::NoKeys => MappingError::Range(0),
        MapError::KeyIsView => MappingError::Kind,
        MapError::KeysBroken(row) => MappingError::Keys(row),
        MapError::Memory => MappingError::Memory,
    }
}

/// How a row of this key is put among rows that an index keeps, with room to follow it.
fn put_hashed<T: TableRead>(
    index: &mut HashIndex,
    keys: usize,
    table: &T,
    key: &Row,
    at: usize,
) -> Result<KeyedEdit, Memory>
    requires kept { index.old.keys ≡ keys_of keys (T.rows table.now) }
    requires place { at ≤ length (T.rows table.now) }
    ensures edit { IfOk result (λ edit. edit ≡ put_key by_kind.Hash keys key.now at (T.rows table.now)) }
    ensures stays { index.new.keys ≡ index.old.keys }
    ensures ready { IfOk result (λ edit. size_by (edits_of edit) (length (T.rows table.now)) ≤ max_rows → CanFollow edit key.now index.new) }
{
    index.reserve(2)?;
    Ok(KeyedEdit::put_hashed(index, key, at))
}

/// How the row at a place is given this key among rows that an index keeps, with room to follow that.
fn set_hashed<T: TableRead>(
    index: &mut HashIndex,
    keys: usize,
    table: &T,
    key: &Row,
    at: usize,
) -> Result<KeyedEdit, Memory>
    requires kept { index.old.keys ≡ keys_of keys (T.rows table.now) }
    requires there { at < length (T.rows table.now) }
    ensures edit { IfOk result (λ edit. edit ≡ set_key by_kind.Hash keys key.now at (T.rows table.now)) }
    ensures stays { index.new.keys ≡ index.old.keys }
    ensures ready { IfOk result (λ edit. CanFollow edit key.now index.new) }
{
    index.reserve(2)?;
    Ok(KeyedEdit::set_hashed(index, key, at))
}

/// An index follows what comes.
fn follow(index: &mut HashIndex, coming: Coming)
    requires { CanFollow coming.edit coming.key index.old }
    ensures { index.new.keys ≡ edited_by coming.key (edits_of coming.edit) index.old.keys }
{
    let Coming { edit, key } = coming;
    match edit {
        KeyedEdit::Remove { at, count } => follow_removal(index, at, count),
        edit => follow_hashed(index, edit, key),
    }
}
