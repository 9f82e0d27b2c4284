//! An index that follows events, each checked before: what comes has a key that no other row has.
ghost use Rattle.std.specs.Prelude.{◌≡◌, ◌<◌, insert, length, remove, slice_set, IsTrue, OnOk};
ghost use Rattle.mapped.specs.Index.{AreKeys};

use mapped::{Event, HashIndex};
use mk_value::{MAX_ROWS, Row};
use std::test::Fail;

/// A row with a key that no row has comes in.
pub fn insert(index: &mut HashIndex, at: usize, key: Row) -> Result<(), Fail>
    ensures { OnOk result (index.new.keys ≡ insert index.old.keys at key) }
{
    if at > index.len() || index.len() >= MAX_ROWS || index.find(&key).is_some() {
        return Err(Fail::new("no place or a key that a row has"));
    }
    index.reserve(1)?;
    index.follow(&Event::Insert(at), Some(key));
    Ok(())
}

/// A row goes.
pub fn remove(index: &mut HashIndex, at: usize) -> Result<(), Fail>
    ensures { OnOk result (index.new.keys ≡ remove index.old.keys at) }
{
    if at >= index.len() {
        return Err(Fail::new("no row"));
    }
    index.reserve(1)?;
    index.follow(&Event::Remove(at), None);
    Ok(())
}

/// A row gets a key that no other row has.
pub fn change(index: &mut HashIndex, at: usize, key: Row) -> Result<(), Fail>
    ensures { OnOk result (index.new.keys ≡ slice_set index.old.keys at key) }
{
    if at >= index.len() || !is_free(index, at, &key) {
        return Err(Fail::new("no row or a key that another has"));
    }
    index.reserve(1)?;
    index.follow(&Event::Change(at), Some(key));
    Ok(())
}

/// Whether no row but the one at a position has the key.
fn is_free(index: &HashIndex, at: usize, key: &Row) -> bool
    requires { at < length index.now.keys }
    ensures { IsTrue result → AreKeys (slice_set index.now.keys at key.now) }
{
    let _size = index.len();
    match index.find(key) {
        Some(row) => row == at,
        None => true,
    }
}
