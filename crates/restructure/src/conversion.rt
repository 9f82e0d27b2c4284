//! Plain columns under another kind.
ghost use Rattle.std.specs.Prelude.{◌≡◌, ◌≤◌, length, map, None, IfOk};
ghost use Rattle.mk_value.specs.Heading.{Domain};
ghost use Rattle.mk_value.specs.Kinds.{domain_of};
ghost use Rattle.mk_value.specs.Limits.{max_rows};
ghost use Rattle.restructure.specs.Columns.{IsUnder};
ghost use Rattle.restructure.specs.Restructuring.{narrowed, text_or_empty};
ghost use Rattle.tables.specs.Read.{IsWhole, values_read};
ghost use Rattle.tables.specs.Stored.{stored_of};

use bytes_col::BytesCol;
use int_col::IntCol;
use mk_value::{Bytes, Kind, Memory, is_text};
use std::alloc::Global;
use tables::{Col, Column, default_column};

/// The column as one of numbers of 32 bits.
pub(crate) fn to_integers(alloc: Global, old: Column<'_>, rows: usize) -> Result<Col, Memory>
    requires whole { IsWhole old }
    requires rows { rows ≡ length (values_read old) }
    requires few { rows ≤ max_rows }
    ensures { IfOk result (λ col. IsUnder (domain_of old.entry.kind.now) Domain.integer (stored_of old.entry.col.now) (stored_of col)) }
{
    match old.kind {
        Kind::I => old.col.same(),
        Kind::L => Ok(Col::Ints(narrow_all(alloc, old.ints())?)),
        _ => default_column(alloc, &Kind::I, rows),
    }
}

/// The column as one of numbers of 64 bits.
pub(crate) fn to_longs(alloc: Global, old: Column<'_>, rows: usize) -> Result<Col, Memory>
    requires whole { IsWhole old }
    requires rows { rows ≡ length (values_read old) }
    requires few { rows ≤ max_rows }
    ensures { IfOk result (λ col. IsUnder (domain_of old.entry.kind.now) Domain.long (stored_of old.entry.col.now) (stored_of col)) }
{
    match old.kind {
        Kind::L => old.col.same(),
        Kind::I => Ok(Col::Ints(old.ints().unplaced()?)),
        _ => default_column(alloc, &Kind::L, rows),
    }
}

/// The column as one of texts.
pub(crate) fn to_texts(alloc: Global, old: Column<'_>, rows: usize) -> Result<Col, Memory>
    requires whole { IsWhole old }
    requires rows { rows ≡ length (values_read old) }
    requires few { rows ≤ max_rows }
    ensures { IfOk result (λ col. IsUnder (domain_of old.entry.kind.now) Domain.text (stored_of old.entry.col.now) (stored_of col)) }
{
    match old.kind {
        Kind::S => old.col.same(),
        Kind::B => Ok(Col::Blobs(texts_of(alloc, old.blobs())?)),
        _ => default_column(alloc, &Kind::S, rows),
    }
}

/// The column as one of byte strings.
pub(crate) fn to_bytes(alloc: Global, old: Column<'_>, rows: usize) -> Result<Col, Memory>
    requires whole { IsWhole old }
    requires rows { rows ≡ length (values_read old) }
    requires few { rows ≤ max_rows }
    ensures { IfOk result (λ col. IsUnder (domain_of old.entry.kind.now) Domain.bytes (stored_of old.entry.col.now) (stored_of col)) }
{
    match old.kind {
        Kind::B => old.col.same(),
        Kind::S => Ok(Col::Blobs(old.blobs().unplaced()?)),
        _ => default_column(alloc, &Kind::B, rows),
    }
}

/// The numbers where they have 32 bits, else 0.
fn narrow_all(alloc: Global, numbers: &IntCol) -> Result<IntCol, Memory>
    requires { length numbers.now.values ≤ max_rows }
    ensures values { IfOk result (λ made. made.values ≡ map narrowed numbers.now.values) }
    ensures home { IfOk result (λ made. made.home ≡ None) }
{
    let count = numbers.len();
    let mut values = Vec::with_capacity(alloc, count)?;
    for at in 0..count {
        values.push(i64::from(narrow(numbers.get(at))))?;
    }
    IntCol::from_values(alloc, &values, None)
}

/// The number where it has 32 bits, and else 0.
fn narrow(number: i64) -> i32
    ensures { result ≡ narrowed number }
{
    i32::try_from(number).unwrap_or(0)
}

/// The byte strings where they are UTF-8 without a zero byte, else empty texts.
fn texts_of(alloc: Global, strings: &BytesCol) -> Result<BytesCol, Memory>
    requires { length strings.now.values ≤ max_rows }
    ensures values { IfOk result (λ made. made.values ≡ map text_or_empty strings.now.values) }
    ensures home { IfOk result (λ made. made.home ≡ None) }
{
    let count = strings.len();
    let mut values = Vec::with_capacity(alloc, count)?;
    for at in 0..count {
        values.push(text_of(alloc, strings.value(at))?)?;
    }
    BytesCol::from_values(alloc, &values, None)
}

/// These bytes where they are UTF-8 without a zero byte, and else none.
fn text_of(alloc: Global, bytes: &[u8]) -> Result<Bytes, Memory>
    ensures { IfOk result (λ text. text.bytes ≡ text_or_empty bytes.now) }
{
    match str::from_utf8(bytes) {
        Ok(text) if is_text(text) => Bytes::from_slice(alloc, bytes),
        _ => Ok(Bytes::new(alloc)),
    }
}
