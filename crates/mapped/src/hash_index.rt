//! An index that finds the row of a key.
ghost use Rattle.std.specs.Prelude.{◌≡◌, ◌+◌, ◌<◌, ◌≤◌, ℕ, [], List, ◌++◌, drop, length, take, IsOk, IfOk, OnOk, IfSome, IfNone, Contains, Some, slice_get};
ghost use Rattle.mk_value.specs.Data.{Datum};
ghost use Rattle.mk_value.specs.Limits.{max_rows};
ghost use Rattle.mapped.specs.Events.{HasKey, IsInRange, IsKeyOfEvent, LeadsTo, keys_after};
ghost use Rattle.mapped.specs.Index.{AreKeys, row_of};
ghost use Rattle.mapped.specs.Keys.{keys_of};
ghost use Rattle.mapped.specs.Refusals.{AnswersDue, index_due};

use crate::building::{first_repeated, keys_of_rows, order_of};
use crate::order::{change, find, insert, remove, remove_many};
use crate::ordered::check_count;
use crate::{Event, MapError};
use mk_value::{Memory, Row, TableRead};
use places::Places;
use std::alloc::Global;
use std::marker::Model;

/// An index that finds the row of a key. It keeps the keys of all rows, in the rows' order, and contracts see these.
///
/// Beside the keys it keeps the positions of the rows in the order of their keys, in chunks, so that a key that comes or goes moves those
/// of one chunk. A key is found by halving, so with one comparison more
/// than the number of rows has binary digits, whichever keys strangers choose: there is no hash that they could make collide.
#[derive(Drop)]
pub struct HashIndex {
    keys: Vec<Row>,
    order: Places,
}

impl Model for HashIndex {
    ghost use Rattle.std.specs.Prelude.{ℕ, ◌-◌, min, vec_len};
    ghost use Rattle.std.specs.Vec.{vec_capacity};
    ghost use Rattle.mapped.specs.Index.{Index, index_code};
    ghost use Rattle.mapped.specs.Order.{IsIndexOf};

    ghost Value = { Index };

    ghost coded = { index_code };

    ghost view = { λ x. record {
      keys = x.keys.items;
      spare = min (vec_capacity x.keys - vec_len x.keys) x.order.spare;
    } };

    ghost invariant = { λ x. IsIndexOf x.keys.items x.order.list };
}

impl HashIndex {
    /// An index of the rows by their first values, so many. It costs a sort of the keys.
    pub fn make<T: TableRead>(alloc: Global, rows: &T, keys: usize) -> Result<HashIndex, MapError>
        ensures due { AnswersDue (index_due keys (T.schema rows.now) (T.rows rows.now)) result }
        ensures keys { IfOk result (λ index. index.keys ≡ keys_of keys (T.rows rows.now)) }
        ensures whole { IfOk result (λ index. AreKeys index.keys) }
    {
        check_count(rows.schema(), keys)?;
        let keys = keys_of_rows(alloc, rows, keys)?;
        let order = order_of(alloc, &keys)?;
        match first_repeated(&keys, &order) {
            Some(row) => Err(MapError::KeysBroken(row as u64)),
            None => Ok(HashIndex {
                keys,
                order: placed(alloc, &order)?,
            }),
        }
    }

    /// The number of rows.
    pub fn len(&self) -> usize
        ensures value { result ≡ length self.now.keys }
        ensures whole { AreKeys self.now.keys }
    {
        self.keys.len()
    }

    /// The row that has the key. It takes no memory.
    pub fn find(&self, key: &Row) -> Option<usize>
        ensures value { result ≡ row_of key.now self.now.keys }
        ensures found { IfSome result (λ row. slice_get self.now.keys row ≡ Some key.now) }
        ensures none { IfNone result (¬ Contains self.now.keys key.now) }
    {
        find(&self.keys, &self.order, key)
    }

    /// Makes room for so many rows more, so that `follow` needs no memory for them.
    pub fn reserve(&mut self, more: usize) -> Result<(), Memory>
        ensures keys { self.new.keys ≡ self.old.keys }
        ensures ok { OnOk result (more ≤ self.new.spare) }
        ensures no_less { self.old.spare ≤ self.new.spare }
        ensures succeeds { more ≤ self.old.spare → IsOk result }
    {
        self.keys.reserve(more)?;
        if self.order.spare() < more {
            self.order.reserve(more)?;
        }
        Ok(())
    }

    /// Keeps the index with its rows over an event, where `key` is the key of the row that came or changed. It takes no memory. It costs
    /// one halving and what a chunk holds, and one pass over what stands behind the event's position.
    pub fn follow(&mut self, event: &Event, key: Option<Row>)
        requires reserved { 0 < self.old.spare }
        requires there { IsInRange event.now (length self.old.keys) }
        requires key { HasKey event.now key }
        requires whole { AreKeys (keys_after event.now key self.old.keys) }
        ensures keys { self.new.keys ≡ keys_after event.now key self.old.keys }
        ensures spare { self.old.spare ≤ self.new.spare + 1 }
        // If these were the keys of the rows before the event, they are those of the rows after it.
        ensures rows { (count : ℕ) (old new : List (List Datum)) → self.old.keys ≡ keys_of count old → LeadsTo event.now old new
            → IsKeyOfEvent event.now count new key → self.new.keys ≡ keys_of count new }
    {
        match (event, key) {
            (Event::Insert(at), Some(key)) => insert(&mut self.keys, &mut self.order, *at, key),
            (Event::Remove(at), _) => remove(&mut self.keys, &mut self.order, *at),
            (Event::Change(at), Some(key)) => change(&mut self.keys, &mut self.order, *at, key),
            _ => unreachable!(),
        }
    }

    /// Keeps the index with its rows when so many go, from a position on. It takes no memory. For several rows it makes no comparison: it
    /// costs a pass over the positions in order and one over the keys behind, whatever the count. For one it costs what that event does.
    pub fn remove(&mut self, at: usize, count: usize)
        requires { at + count ≤ length self.old.keys }
        ensures keys { self.new.keys ≡ take at self.old.keys ++ drop (at + count) self.old.keys }
        ensures spare { self.old.spare ≤ self.new.spare }
        // If these were the keys of the rows before, they are those of the rows that are left.
        ensures rows { (keys : ℕ) (old : List (List Datum)) → self.old.keys ≡ keys_of keys old → self.new.keys ≡ keys_of keys (take at old ++ drop (at + count) old) }
    {
        if count == 1 {
            remove(&mut self.keys, &mut self.order, at);
        } else {
            remove_many(&mut self.keys, &mut self.order, at, count);
        }
    }
}

/// Positions in chunks.
fn placed(alloc: Global, order: &[u32]) -> Result<Places, Memory>
    requires { length order.now ≤ max_rows }
    ensures { IfOk result (λ places. places.list ≡ order.now) }
{
    Ok(Places::of(alloc, order)?)
}
