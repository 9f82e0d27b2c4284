//! Views of many rows, and edits of them. They promise nothing, so that what stands on them is proved at little cost.

use crate::structures::{name, structure};
use anyhow::{Result, ensure};
use mk_value::{MAX_ROWS, Name, Path, Row, Schema, Value};
use std::alloc::Global;
use tables::empty_table;
use view_store::{Root, structure_fits};

/// The path to the view of a name.
pub fn path_to(alloc: Global, view: &[u8]) -> Result<Path> {
    Ok(Path::new(alloc, name(view)?))
}

/// The view that a text spells, without rows, and no other.
fn empty_view(alloc: Global, text: &str) -> Result<Root> {
    let (name, schema) = structure(alloc, text)?;
    view_of(alloc, &name, &schema)
}

/// The view of a name and a schema, without rows, and no other.
fn view_of(alloc: Global, name: &Name, schema: &Schema) -> Result<Root> {
    ensure!(structure_fits(name, schema), "too long a structure");
    let mut root = Root::new(alloc);
    root.put_view(name, empty_table(alloc, schema)?)?;
    Ok(root)
}

/// The view that a text spells, with a row so many times, and no other. The path leads to the view.
pub fn filled_view(alloc: Global, text: &str, path: &Path, row: &Row, count: u32) -> Result<Root> {
    let mut root = empty_view(alloc, text)?;
    put_row(&mut root, path, 0, row, count)?;
    Ok(root)
}

/// Puts a row in so many times, before the one at a place.
pub fn put_row(root: &mut Root, path: &Path, place: usize, row: &Row, count: u32) -> Result<()> {
    let count = count as usize;
    ensure!(count <= MAX_ROWS, "too many rows");
    root.insert_rows(path, place, row, count)?;
    Ok(())
}

/// Removes the row at a place.
pub fn take_row(root: &mut Root, path: &Path, place: usize) -> Result<()> {
    root.remove_rows(path, place, 1)?;
    Ok(())
}

/// Gives a property of the row at a place another value.
pub fn set_value(
    root: &mut Root,
    path: &Path,
    place: usize,
    prop: &Name,
    value: &Value,
) -> Result<()> {
    root.set(path, place, prop, value)?;
    Ok(())
}
