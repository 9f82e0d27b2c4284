//! The fields of a row.
ghost use Rattle.std.specs.Prelude.{◌≡◌, ◌<◌, ◌∷◌, List, length, MatchResult};
ghost use Rattle.mk_value.specs.Data.{Datum};
ghost use Rattle.mk_value.specs.Heading.{Domain};
ghost use Rattle.mk_value.specs.Kinds.{domain_of};
ghost use Rattle.mk_value.specs.Values.{datum_of};
ghost use Rattle.stream_codec.specs.Fields.{Due, content, field_len, value_due};
ghost use Rattle.stream_codec.specs.Steps.{Refuses};
ghost use Rattle.stream_codec.specs.Stream.{spelled_value};
ghost use Rattle.stream_codec.specs.Values.{AwaitsContent, IsContentOf, IsRelation, Says};

use crate::counts::read_count;
use crate::error::LoadError;
use byteorder::{ByteOrder, LittleEndian};
use mk_value::{Bytes, Kind, MAX_BYTES, MAX_ROWS, Rows, Text, Value, is_text};
use std::alloc::Global;

/// What the field says that is due first for a value.
#[derive(Drop)]
pub(crate) enum Found {
    /// The value.
    Whole(Value),
    /// That it has so many bytes, at least one.
    Content(u32),
    /// That it has so many rows, at least one.
    Rows(u32),
}

/// How many bytes the field has that is due first for a value of this kind.
pub(crate) fn first_field_len(kind: &Kind) -> usize
    ensures value { result ≡ field_len (value_due (domain_of kind.now)) }
    ensures some { 0 < result }
{
    match kind {
        Kind::L => 8,
        _ => 4,
    }
}

/// What a field at this place says that is due first for a value of this kind.
pub(crate) fn read_first(
    alloc: Global,
    kind: &Kind,
    field: &[u8],
    place: u64,
) -> Result<Found, LoadError>
    requires { length field.now ≡ field_len (value_due (domain_of kind.now)) }
    ensures { MatchResult result (Says (domain_of kind.now) field.now)
        (λ e. (due : List Due) → Refuses (value_due (domain_of kind.now) ∷ due) field.now place e) }
{
    match kind {
        Kind::I => Ok(Found::Whole(Value::I(read_integer(field)))),
        Kind::L => Ok(Found::Whole(Value::L(read_long(field)))),
        Kind::S => read_text_length(alloc, field, place),
        Kind::B => read_bytes_length(alloc, field, place),
        Kind::V(_) => read_row_count(alloc, kind, field, place),
    }
}

/// The number of 32 bits that a field is.
fn read_integer(field: &[u8]) -> i32
    requires { length field.now ≡ 4 }
    ensures { spelled_value (Datum.integer result) ≡ field.now }
{
    LittleEndian::read_u32(field).cast_signed()
}

/// The number of 64 bits that a field is.
fn read_long(field: &[u8]) -> i64
    requires { length field.now ≡ 8 }
    ensures { spelled_value (Datum.long result) ≡ field.now }
{
    LittleEndian::read_u64(field).cast_signed()
}

/// What the length of a text says.
fn read_text_length(alloc: Global, field: &[u8], place: u64) -> Result<Found, LoadError>
    requires { length field.now ≡ 4 }
    ensures { MatchResult result (Says Domain.text field.now)
        (λ e. (due : List Due) → Refuses (value_due Domain.text ∷ due) field.now place e) }
{
    let len = read_count(field, MAX_BYTES as u32, place)?;
    if len == 0 {
        Ok(Found::Whole(Value::S(Text::new(alloc))))
    } else {
        Ok(Found::Content(len))
    }
}

/// What the length of a byte string says.
fn read_bytes_length(alloc: Global, field: &[u8], place: u64) -> Result<Found, LoadError>
    requires { length field.now ≡ 4 }
    ensures { MatchResult result (Says Domain.bytes field.now)
        (λ e. (due : List Due) → Refuses (value_due Domain.bytes ∷ due) field.now place e) }
{
    let len = read_count(field, MAX_BYTES as u32, place)?;
    if len == 0 {
        Ok(Found::Whole(Value::B(Bytes::new(alloc))))
    } else {
        Ok(Found::Content(len))
    }
}

/// What the number of rows of a view says.
fn read_row_count(alloc: Global, kind: &Kind, field: &[u8], place: u64) -> Result<Found, LoadError>
    requires long { length field.now ≡ 4 }
    requires view { IsRelation (domain_of kind.now) }
    ensures { MatchResult result (Says (domain_of kind.now) field.now)
        (λ e. (due : List Due) → Refuses (value_due (domain_of kind.now) ∷ due) field.now place e) }
{
    let count = read_count(field, MAX_ROWS as u32, place)?;
    if count == 0 {
        Ok(Found::Whole(Value::V(Rows::new(alloc))))
    } else {
        Ok(Found::Rows(count))
    }
}

/// The value of this kind whose content a field at this place is.
pub(crate) fn read_content(
    alloc: Global,
    kind: &Kind,
    field: &[u8],
    place: u64,
) -> Result<Value, LoadError>
    requires { AwaitsContent (length field.now) (domain_of kind.now) }
    ensures { MatchResult result (λ v. IsContentOf (domain_of kind.now) (length field.now) field.now (datum_of v))
        (λ e. (due : List Due) → Refuses (content (domain_of kind.now) (length field.now) ∷ due) field.now place e) }
{
    match kind {
        Kind::S => read_text(alloc, field, place),
        Kind::B => Ok(Value::B(Bytes::from_slice(alloc, field)?)),
        _ => unreachable!(),
    }
}

/// The text that a field at this place is.
fn read_text(alloc: Global, field: &[u8], place: u64) -> Result<Value, LoadError>
    requires { AwaitsContent (length field.now) Domain.text }
    ensures { MatchResult result (λ v. IsContentOf Domain.text (length field.now) field.now (datum_of v))
        (λ e. (due : List Due) → Refuses (content Domain.text (length field.now) ∷ due) field.now place e) }
{
    match str::from_utf8(field) {
        Ok(text) if is_text(text) => Ok(Value::S(Text::from_str(alloc, text)?)),
        _ => Err(LoadError::At(place)),
    }
}
