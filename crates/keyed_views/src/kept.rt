//! One mapped view.
ghost use Rattle.std.specs.Prelude.{◌≡◌, ◌==◌, ◌≤◌, ◌<◌, ◌+◌, [], ℕ, List, if◌then◌else◌, length, take, IfOk, IsSome};
ghost use Rattle.keyed_views.specs.Keyed.{edits_of};
ghost use Rattle.keyed_views.specs.declared.keyed.KeyedEdit.TheVariants.{Remove};
ghost use Rattle.mk_value.specs.Data.{IsRowOf, cell};
ghost use Rattle.mk_value.specs.Heading.{find};
ghost use Rattle.mk_value.specs.Limits.{max_rows};
ghost use Rattle.mk_value.specs.Values.{datum_of};
ghost use Rattle.row_edits.specs.Edits.{size_by};
ghost use Rattle.keyed_views.specs.Keeping.{Brings, IsKeptOver, IsReady, Stays, by_of};
ghost use Rattle.keyed_views.specs.Mapped.{put_edit, row_with, set_edit};

use crate::coming::Coming;
use crate::keyed::KeyedEdit;
use crate::mapping::Mapping;
use mk_value::{Memory, Name, Row, TableRead, Value};
use std::alloc::Global;

/// A mapped view by its name, how many first values of a row are its key, and what is kept of the rows.
#[derive(Drop)]
pub struct Kept {
    pub view: Name,
    pub keys: usize,
    pub mapping: Mapping,
}

impl Kept {
    /// How a row is put, with the place before which it would be put.
    pub fn put<T: TableRead>(
        &mut self,
        alloc: Global,
        table: &T,
        row: &Row,
        place: usize,
    ) -> Result<Coming, Memory>
        requires kept { IsKeptOver (T.schema table.now) (T.rows table.now) self.old }
        requires row { IsRowOf row.now (T.schema table.now) }
        requires place { place ≤ length (T.rows table.now) }
        ensures view { self.new.view ≡ self.old.view }
        ensures keys { self.new.keys ≡ self.old.keys }
        ensures stays { Stays self.old.mapping self.new.mapping }
        ensures edit { IfOk result (λ c. c.edit ≡ put_edit (by_of self.old.mapping) self.old.keys row.now place (T.rows table.now)) }
        ensures ready { IfOk result (λ c. size_by (edits_of c.edit) (length (T.rows table.now)) ≤ max_rows → IsReady c self.new.mapping) }
        ensures brings { IfOk result (λ c. Brings (T.rows table.now) row.now c self.new) }
    {
        let key = first_values(alloc, row, self.keys)?;
        let edit = self.mapping.put(self.keys, table, &key, place)?;
        Ok(Coming { edit, key })
    }

    /// How the row at a place becomes one with another value of a property. It copies the values of the key alone.
    pub fn set<T: TableRead>(
        &mut self,
        alloc: Global,
        table: &T,
        place: usize,
        prop: &Name,
        value: &Value,
    ) -> Result<Coming, Memory>
        requires kept { IsKeptOver (T.schema table.now) (T.rows table.now) self.old }
        requires named { IsSome (find (T.schema table.now) prop.now) }
        requires row { IsRowOf (row_with (T.schema table.now) (T.rows table.now) place prop.now (datum_of value.now)) (T.schema table.now) }
        requires there { place < length (T.rows table.now) }
        ensures view { self.new.view ≡ self.old.view }
        ensures keys { self.new.keys ≡ self.old.keys }
        ensures stays { Stays self.old.mapping self.new.mapping }
        ensures edit { IfOk result (λ c. c.edit ≡ set_edit (by_of self.old.mapping) self.old.keys (row_with (T.schema table.now) (T.rows table.now) place prop.now (datum_of value.now)) place (T.rows table.now)) }
        ensures ready { IfOk result (λ c. IsReady c self.new.mapping) }
        ensures brings { IfOk result (λ c. Brings (T.rows table.now) (row_with (T.schema table.now) (T.rows table.now) place prop.now (datum_of value.now)) c self.new) }
    {
        let key = key_with(alloc, table, self.keys, place, prop, value)?;
        let edit = self.mapping.set(self.keys, table, &key, place)?;
        Ok(Coming { edit, key })
    }

    /// How rows go, from a place on. It takes no memory.
    pub fn remove<T: TableRead>(
        &self,
        alloc: Global,
        table: &T,
        place: usize,
        count: usize,
    ) -> Coming
        requires kept { IsKeptOver (T.schema table.now) (T.rows table.now) self.now }
        requires there { place + count ≤ length (T.rows table.now) }
        ensures edit { result.edit ≡ Remove place count }
        ensures ready { IsReady result self.now.mapping }
        ensures brings { Brings (T.rows table.now) [] result self.now }
    {
        let _size = table.size();
        let key = Row::new(alloc);
        let edit = KeyedEdit::Remove { at: place, count };
        Coming { edit, key }
    }
}

/// The first values of a row, so many.
fn first_values(alloc: Global, row: &Row, count: usize) -> Result<Row, Memory>
    requires { count ≤ length row.now }
    ensures { IfOk result (λ key. key ≡ take count row.now) }
{
    let values = row.as_slice();
    let mut key = Row::new(alloc);
    for at in 0..count {
        key.push(values[at].copy()?)?;
    }
    Ok(key)
}

/// The first values, so many, of a row of a table once a property of it has another value.
fn key_with<T: TableRead>(
    alloc: Global,
    table: &T,
    keys: usize,
    place: usize,
    prop: &Name,
    value: &Value,
) -> Result<Row, Memory>
    requires named { IsSome (find (T.schema table.now) prop.now) }
    requires there { place < length (T.rows table.now) }
    requires few { keys ≤ length (T.schema table.now) }
    ensures { IfOk result (λ key. key ≡ take keys (row_with (T.schema table.now) (T.rows table.now) place prop.now (datum_of value.now))) }
{
    let _size = table.size();
    let changed = table.schema().find(prop.as_str()).unwrap();
    let mut key = Row::new(alloc);
    for col in 0..keys {
        key.push(value_with(table, place, col, changed, value)?)?;
    }
    Ok(key)
}

/// A value of a row of a table once the one in a column is another.
fn value_with<T: TableRead>(
    table: &T,
    place: usize,
    col: usize,
    changed: usize,
    value: &Value,
) -> Result<Value, Memory>
    requires there { place < length (T.rows table.now) }
    requires col_in { col < length (T.schema table.now) }
    ensures { IfOk result (λ v. datum_of v ≡ (if col == changed then datum_of value.now else cell (T.rows table.now) place col)) }
{
    if col == changed {
        return value.copy();
    }
    table.get(place, col)
}
