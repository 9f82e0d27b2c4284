ghost use Rattle.std.specs.Prelude.{◌≡◌, ◌⊎◌, ◌↔◌, ℕ, ◌+◌, ◌<◌, ◌≤◌, List, [], Some, None, false, IfOk, IfErr, IfSome, IfNone, IsTrue, length};
ghost use Rattle.mk_value.specs.Heading.{Attribute, names_of};
ghost use Rattle.mk_value.specs.Kinds.{domain_of};
ghost use Rattle.mk_value.specs.Limits.{max_depth, max_properties};
ghost use Rattle.struct_text.specs.Bytes.{is_floating_letter, is_plain_letter};
ghost use Rattle.struct_text.specs.Flaws.{first_flaw};
ghost use Rattle.struct_text.specs.Offences.{IsFirstOffence, name_at};
ghost use Rattle.struct_text.specs.Reading.{AddsProperty, ArePropertiesAt, HasByte, IsKindAt, IsLetterAt, IsLetterOf, RefusesKind, RefusesLetter, RefusesProperty};
ghost use Rattle.struct_text.specs.Spelling.{Spells};
ghost use Rattle.struct_text.specs.Walk.{start as walk_start};
ghost use Rattle.struct_text.specs.declared.error.StructError.{StructError as Refusal};
ghost use Rattle.struct_text.specs.declared.error.StructError.TheVariants.{Memory as want_of_memory};

use crate::error::StructError;
use crate::names::read_name;
use mk_value::{Kind, MAX_DEPTH, Name, Prop, Props, Schema};
use std::alloc::Global;

/// Reads a structure text: the name of the view, and its schema.
///
/// A text that is none is refused with its first offence, the one at the least place: `StructError` says where each
/// stands. At one place `TooMany` is tested before `TooLong`, and that before `Repeated`. `Memory` comes where memory
/// ran out, and says nothing of the text. The time is linear in the text's length, but for the comparison of each name
/// with those before it in its brackets.
pub fn parse(alloc: Global, text: &str) -> Result<(Name, Schema), StructError>
    // What is read, the text spells; what the text spells is read.
    ensures found { IfOk result (λ read. Spells text.now read.0 read.1) }
    ensures accepted { (name : List ℕ) (properties : List Attribute) → Spells text.now name properties
        → (result ≡ Ok (name, properties)) ⊎ (result ≡ Err want_of_memory) }

    // What refuses it is its first offence; its first offence refuses it.
    ensures refused { IfErr result (λ e. (e ≡ want_of_memory) ⊎ IsFirstOffence text.now e) }
    ensures offence { (e : Refusal) → IsFirstOffence text.now e
        → (result ≡ Err e) ⊎ (result ≡ Err want_of_memory) }
{
    read_text(alloc, text.as_bytes())
}

/// Reads the bytes of a structure text.
fn read_text(alloc: Global, bytes: &[u8]) -> Result<(Name, Schema), StructError>
    ensures found { IfOk result (λ read. Spells bytes.now read.0 read.1) }
    ensures clean { IfOk result (λ read. first_flaw walk_start 0 bytes.now ≡ None) }
    ensures refused { IfErr result (λ e. (e ≡ want_of_memory) ⊎ (first_flaw walk_start 0 bytes.now ≡ Some e)) }
{
    let name = read_name(bytes, 0, &[])?;
    let name_end = name.as_bytes().len();
    if !has_byte(bytes, name_end, b'[') {
        return Err(StructError::Syntax(name_end));
    }
    let (schema, end) = read_properties(alloc, bytes, name_end + 1, 1)?;
    if end != bytes.len() {
        return Err(StructError::Syntax(end));
    }
    Ok((name, schema))
}

/// Reads properties joined by commas, and the closing bracket behind them; also where that ends.
#[cycle(properties)]
fn read_properties(
    alloc: Global,
    bytes: &[u8],
    start: usize,
    depth: usize,
) -> Result<(Schema, usize), StructError>
    requires within { start ≤ length bytes.now }
    requires open { 1 ≤ depth }
    requires shallow { depth ≤ max_depth }
    ensures found { IfOk result (λ read. ArePropertiesAt bytes.now start depth read.0 read.1) }
    ensures refused { IfErr result (RefusesProperty bytes.now start depth []) }
{
    let mut props = Props::new(alloc);
    let mut at = start;
    loop {
        let end = read_property(alloc, bytes, at, depth, &mut props)?;
        if has_byte(bytes, end, b']') {
            return Ok((Schema::of(props), end + 1));
        }
        if !has_byte(bytes, end, b',') {
            return Err(StructError::Syntax(end));
        }
        at = end + 1;
    }
}

/// Reads one property behind those that stand before it in the same brackets, and adds it to them; also where it ends.
#[cycle(properties)]
fn read_property(
    alloc: Global,
    bytes: &[u8],
    at: usize,
    depth: usize,
    props: &mut Props,
) -> Result<usize, StructError>
    requires within { at ≤ length bytes.now }
    requires few { length props.old ≤ max_properties }
    requires open { 1 ≤ depth }
    requires shallow { depth ≤ max_depth }
    ensures found { IfOk result (λ end. (property : Attribute) × AddsProperty bytes.now at depth props.old props.new property end) }
    ensures refused { IfErr result (RefusesProperty bytes.now at depth props.old) }
{
    let name = read_name(bytes, at, props.as_slice())?;
    let name_end = at + name.as_bytes().len();
    let (kind, end) = read_kind(alloc, bytes, name_end, depth)?;
    match props.push(Prop { name, kind }) {
        Ok(()) => Ok(end),
        Err(_) => Err(StructError::Memory),
    }
}

/// Reads what stands behind a property's name: its kind, and where that ends.
#[cycle(properties)]
fn read_kind(
    alloc: Global,
    bytes: &[u8],
    at: usize,
    depth: usize,
) -> Result<(Kind, usize), StructError>
    requires within { at ≤ length bytes.now }
    requires name_ended { name_at bytes.now at ≡ [] }
    requires open { 1 ≤ depth }
    requires shallow { depth ≤ max_depth }
    ensures found { IfOk result (λ read. IsKindAt bytes.now at depth (domain_of read.0) read.1) }
    ensures refused { IfErr result (RefusesKind bytes.now at depth) }
{
    if has_byte(bytes, at, b':') {
        return Ok((read_letter(bytes, at + 1)?, at + 2));
    }
    if !has_byte(bytes, at, b'[') {
        return Err(StructError::Syntax(at));
    }
    if depth == MAX_DEPTH {
        return Err(StructError::TooDeep(at));
    }
    let (schema, end) = read_properties(alloc, bytes, at + 1, depth + 1)?;
    Ok((Kind::V(schema), end))
}

/// Reads the letter of a kind.
fn read_letter(bytes: &[u8], at: usize) -> Result<Kind, StructError>
    ensures found { IfOk result (λ kind. IsLetterAt bytes.now at (domain_of kind)) }
    ensures refused { IfErr result (RefusesLetter bytes.now at) }
{
    let Some(letter) = byte_at(bytes, at) else {
        return Err(StructError::Syntax(at));
    };
    if is_floating(letter) {
        return Err(StructError::Floating(at));
    }
    match kind_of(letter) {
        Some(kind) => Ok(kind),
        None => Err(StructError::Syntax(at)),
    }
}

/// The kind of a letter.
fn kind_of(letter: u8) -> Option<Kind>
    ensures found { IfSome result (λ kind. IsLetterOf letter (domain_of kind)) }
    ensures none { IfNone result (is_plain_letter letter ≡ false) }
{
    match letter {
        b'I' => Some(Kind::I),
        b'L' => Some(Kind::L),
        b'S' => Some(Kind::S),
        b'B' => Some(Kind::B),
        _ => None,
    }
}

/// Whether this is the letter of a floating kind.
fn is_floating(letter: u8) -> bool
    ensures { result ≡ is_floating_letter letter }
{
    letter == b'F' || letter == b'D'
}

/// Whether this byte stands at a place of the text.
fn has_byte(bytes: &[u8], at: usize, byte: u8) -> bool
    ensures found { IsTrue result → (at < length bytes.now) × HasByte bytes.now at byte }
    ensures other { HasByte bytes.now at byte → IsTrue result }
{
    byte_at(bytes, at) == Some(byte)
}

/// The byte at a place of the text.
fn byte_at(bytes: &[u8], at: usize) -> Option<u8>
    ensures found { IfSome result (λ byte. (at < length bytes.now) × HasByte bytes.now at byte) }
    ensures end { IfNone result (length bytes.now ≤ at) }
{
    bytes.get(at).copied()
}
