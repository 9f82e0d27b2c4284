//! Names, structures and tables in columns of what is timed. They promise nothing, so that what stands on them is proved at little cost.

use anyhow::{Context, Result, ensure};
use mk_value::{Name, Rows, Schema, rows_fit};
use std::alloc::Global;
use struct_text::parse;
use tables::{Table, from_rows};

pub fn name(bytes: &[u8]) -> Result<Name> {
    Name::from_bytes(bytes).context("no name")
}

/// The name and the schema that a text spells.
pub fn structure(alloc: Global, text: &str) -> Result<(Name, Schema)> {
    Ok(parse(alloc, text)?)
}

/// The schema that a text spells.
pub fn schema(alloc: Global, text: &str) -> Result<Schema> {
    let (_, schema) = structure(alloc, text)?;
    Ok(schema)
}

/// The table of these rows, in columns as the store has them.
pub fn columns(alloc: Global, schema: Schema, rows: &Rows) -> Result<Table> {
    ensure!(rows_fit(rows, &schema), "no rows of the schema");
    Ok(from_rows(alloc, schema, rows)?)
}
