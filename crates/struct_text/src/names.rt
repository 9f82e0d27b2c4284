ghost use Rattle.std.specs.Prelude.{◌≡◌, ◌+◌, ◌<◌, ◌≤◌, IfOk, IfErr, length, drop};
ghost use Rattle.std.specs.List.{list_any, prefix_len};
ghost use Rattle.mk_value.specs.Heading.{names_of};
ghost use Rattle.mk_value.specs.Limits.{max_properties};
ghost use Rattle.mk_value.specs.Names.{IsName, is_name_byte as name_byte, same_bytes};
ghost use Rattle.struct_text.specs.Bytes.{is_name_start as name_start_byte};
ghost use Rattle.struct_text.specs.Reading.{IsNameAt, RefusesName};

use crate::error::StructError;
use mk_value::{MAX_NAME, MAX_PROPERTIES, Name, Prop};

/// Reads the name at a place of the text, behind the properties that stand before it in the same brackets.
pub(crate) fn read_name(bytes: &[u8], at: usize, before: &[Prop]) -> Result<Name, StructError>
    requires within { at ≤ length bytes.now }
    requires few { length before.now ≤ max_properties }
    ensures found { IfOk result (IsNameAt bytes.now at (names_of before.now)) }
    ensures refused { IfErr result (RefusesName bytes.now at (names_of before.now)) }
{
    if at == bytes.len() || !is_name_start(bytes[at]) {
        return Err(StructError::Syntax(at));
    }
    if before.len() == MAX_PROPERTIES {
        return Err(StructError::TooMany(at));
    }
    let word = &bytes[at..word_end(bytes, at)];
    if word.len() > MAX_NAME {
        return Err(StructError::TooLong(at));
    }
    if has_name(before, word) {
        return Err(StructError::Repeated(at));
    }
    Ok(name_of(word))
}

/// Where the run of letters, digits and `_` from a place on ends.
fn word_end(bytes: &[u8], at: usize) -> usize
    requires { at ≤ length bytes.now }
    ensures run { result ≡ at + prefix_len name_byte (drop at bytes.now) }
    ensures within { result ≤ length bytes.now }
{
    let mut end = at;
    while end < bytes.len() && is_name_byte(bytes[end]) {
        end += 1;
    }
    end
}

/// Whether a property of this name is among those.
fn has_name(properties: &[Prop], word: &[u8]) -> bool
    ensures { result ≡ list_any (λ a. same_bytes a.name word.now) properties.now }
{
    properties
        .iter()
        .any(|property| property.name.as_bytes() == word)
}

/// The name of these bytes.
fn name_of(word: &[u8]) -> Name
    requires { IsName word.now }
    ensures { result ≡ word.now }
{
    Name::of(str::from_utf8(word).unwrap()).unwrap()
}

/// Whether a byte may stand in a name.
fn is_name_byte(byte: u8) -> bool
    ensures { result ≡ name_byte byte }
{
    byte.is_ascii_alphanumeric() || byte == b'_'
}

/// Whether a name may begin with a byte.
fn is_name_start(byte: u8) -> bool
    ensures { result ≡ name_start_byte byte }
{
    is_name_byte(byte) && !byte.is_ascii_digit()
}
