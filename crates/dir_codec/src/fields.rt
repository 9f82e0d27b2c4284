// The fields of a directory, one by one: each is held whole and as required, or refused at its place.
ghost use Rattle.std.specs.Prelude.{◌≡◌, ◌↔◌, ◌+◌, ◌<◌, ◌≤◌, ◌⊎◌, [], ◌∷◌, length, drop, IsTrue, MatchResult};
ghost use Rattle.bit_pack.specs.Width.{bit_count};
ghost use Rattle.bit_pack.specs.declared.widths.Width.{Width as Widths};
ghost use Rattle.byteorder.specs.Endian.{little_bytes};
ghost use Rattle.mk_value.specs.Data.{IsText};
ghost use Rattle.dir_codec.specs.declared.error.DirError.TheVariants as dir_error;
ghost use Rattle.dir_codec.specs.Dir.{IsSpan, spelled_span};
ghost use Rattle.free_space.specs.Sites.{IsSite};
ghost use Rattle.dir_codec.specs.Fields.{number_of_field, span_of_field};
ghost use Rattle.dir_codec.specs.Reads.{GivesField, bytes_at};

use crate::error::DirError;
use bit_pack::Width;
use byteorder::{ByteOrder, LittleEndian};
use free_space::is_site;
use mk_value::{Span, Text, is_text};
use std::alloc::Global;

/// The bytes of a field.
pub(crate) fn field(bytes: &[u8], at: usize, len: usize) -> Result<&[u8], DirError>
    requires { at ≤ length bytes.now }
    ensures { GivesField bytes.now at len (λ field. field.now ≡ bytes_at at len bytes.now) ⊥ result }
{
    if len <= bytes.len() - at {
        Ok(&bytes[at..at + len])
    } else {
        Err(DirError::At(at as u64))
    }
}

fn read_u32(bytes: &[u8], at: usize) -> Result<u32, DirError>
    requires { at ≤ length bytes.now }
    ensures { GivesField bytes.now at 4 (λ n. (n ≡ number_of_field (bytes_at at 4 bytes.now)) × (bytes_at at 4 bytes.now ≡ little_bytes 4 n)) ⊥ result }
{
    Ok(LittleEndian::read_u32(field(bytes, at, 4)?))
}

fn read_u64(bytes: &[u8], at: usize) -> Result<u64, DirError>
    requires { at ≤ length bytes.now }
    ensures { GivesField bytes.now at 8 (λ n. (n ≡ number_of_field (bytes_at at 8 bytes.now)) × (bytes_at at 8 bytes.now ≡ little_bytes 8 n)) ⊥ result }
{
    Ok(LittleEndian::read_u64(field(bytes, at, 8)?))
}

/// A number of four bytes, from `least` to `most`.
pub(crate) fn read_between(bytes: &[u8], at: usize, least: u32, most: u32) -> Result<u32, DirError>
    requires { at ≤ length bytes.now }
    ensures { GivesField bytes.now at 4
        (λ n. (n ≡ number_of_field (bytes_at at 4 bytes.now)) × (bytes_at at 4 bytes.now ≡ little_bytes 4 n) × (least ≤ n) × (n ≤ most))
        ((number_of_field (bytes_at at 4 bytes.now) < least) ⊎ (most < number_of_field (bytes_at at 4 bytes.now))) result }
{
    let number = read_u32(bytes, at)?;
    if number < least || most < number {
        return Err(DirError::At(at as u64));
    }
    Ok(number)
}

/// A number of eight bytes, above `last` and up to `most`.
pub(crate) fn read_above(bytes: &[u8], at: usize, last: u64, most: u64) -> Result<u64, DirError>
    requires { at ≤ length bytes.now }
    ensures { GivesField bytes.now at 8
        (λ n. (n ≡ number_of_field (bytes_at at 8 bytes.now)) × (bytes_at at 8 bytes.now ≡ little_bytes 8 n) × (last < n) × (n ≤ most))
        ((number_of_field (bytes_at at 8 bytes.now) ≤ last) ⊎ (most < number_of_field (bytes_at at 8 bytes.now))) result }
{
    let number = read_u64(bytes, at)?;
    if last < number && number <= most {
        Ok(number)
    } else {
        Err(DirError::At(at as u64))
    }
}

/// A text of so many bytes.
pub(crate) fn read_text(
    alloc: Global,
    bytes: &[u8],
    at: usize,
    len: usize,
) -> Result<Text, DirError>
    requires { at ≤ length bytes.now }
    ensures { MatchResult result
        (λ t. (at + len ≤ length bytes.now) × (t.bytes ≡ bytes_at at len bytes.now) × IsText t.bytes × (length t.bytes ≡ len))
        (λ e. (e ≡ dir_error.Memory) ⊎ ((e ≡ dir_error.At at) × ((length (drop at bytes.now) < len) ⊎ (IsText (bytes_at at len bytes.now) → ⊥)))) }
{
    match str::from_utf8(field(bytes, at, len)?) {
        Ok(text) if is_text(text) => Ok(Text::from_str(alloc, text)?),
        _ => Err(DirError::At(at as u64)),
    }
}

/// A width of at most so many bits.
pub(crate) fn read_width(bytes: &[u8], at: usize, most: u8) -> Result<Width, DirError>
    requires { at ≤ length bytes.now }
    ensures { GivesField bytes.now at 1
        (λ w. (bytes_at at 1 bytes.now ≡ bit_count w ∷ []) × (bit_count w ≤ most))
        ((w : Widths) → bytes_at at 1 bytes.now ≡ bit_count w ∷ [] → bit_count w ≤ most → ⊥) result }
{
    let bits = field(bytes, at, 1)?[0];
    match Width::from_bits(bits) {
        Some(width) if bits <= most => Ok(width),
        _ => Err(DirError::At(at as u64)),
    }
}

/// The span that a field says, whatever it is.
pub(crate) fn read_span(bytes: &[u8], at: usize) -> Result<Span, DirError>
    requires { at ≤ length bytes.now }
    ensures { GivesField bytes.now at 16 (λ s. (s ≡ span_of_field (bytes_at at 16 bytes.now)) × (bytes_at at 16 bytes.now ≡ spelled_span s)) ⊥ result }
{
    let (place, len) = field(bytes, at, 16)?.split_at(8);
    Ok(Span {
        place: LittleEndian::read_u64(place),
        len: LittleEndian::read_u64(len),
    })
}

/// Whether this is the span of a block that stands in the used part of a file.
pub(crate) fn stands_in(end: u64, span: &Span) -> bool
    ensures { IsTrue result ↔ IsSite end span.now }
{
    is_site(end - end % 16, span)
}

/// Whether this is the span of a block, which may be empty.
fn is_span(end: u64, span: &Span) -> bool
    ensures { IsTrue result ↔ IsSpan end span.now }
{
    (span.place == 0 && span.len == 0) || stands_in(end, span)
}

/// The span of a block, which may be empty.
pub(crate) fn read_block(bytes: &[u8], at: usize, end: u64) -> Result<Span, DirError>
    requires { at ≤ length bytes.now }
    ensures { GivesField bytes.now at 16
        (λ s. (s ≡ span_of_field (bytes_at at 16 bytes.now)) × (bytes_at at 16 bytes.now ≡ spelled_span s) × IsSpan end s)
        (IsSpan end (span_of_field (bytes_at at 16 bytes.now)) → ⊥) result }
{
    let span = read_span(bytes, at)?;
    if is_span(end, &span) {
        Ok(span)
    } else {
        Err(DirError::At(at as u64))
    }
}
