//! What stands in quotes, decoded.
ghost use Rattle.std.specs.Prelude.{◌≡◌, ◌+◌, ◌*◌, ◌-◌, ◌%◌, ◌<◌, All, IfOk};
ghost use Rattle.tokens.specs.Finding.{IsByte};
ghost use Rattle.tokens.specs.Meanings.{characters_of, digit_value as value_of, escape_of as escape, pairs_of};

use mk_value::{Bytes as ByteString, Memory};
use std::alloc::Global;

/// The characters that bytes in quotes stand for.
pub(crate) fn characters(alloc: Global, written: &[u8]) -> Result<ByteString, Memory>
    ensures { IfOk result (λ content. content.bytes ≡ characters_of written.now) }
{
    let mut content = ByteString::new(alloc);
    let mut escapes = false;
    for byte in written {
        if escapes {
            content.push(escape_of(*byte))?;
            escapes = false;
        } else if *byte == b'\\' {
            escapes = true;
        } else {
            content.push(*byte)?;
        }
    }
    Ok(content)
}

/// What a byte behind a backslash stands for.
fn escape_of(byte: u8) -> u8
    ensures { result ≡ escape byte }
{
    if byte == b'n' { b'\n' } else { byte }
}

/// The bytes that pairs of digits of base 16 stand for.
pub(crate) fn bytes_of(alloc: Global, digits: &[u8]) -> Result<ByteString, Memory>
    ensures pairs { IfOk result (λ content. content.bytes ≡ pairs_of digits.now) }
    ensures bytes { IfOk result (λ content. All IsByte content.bytes) }
{
    let mut content = ByteString::new(alloc);
    let mut high = None;
    for digit in digits {
        match high {
            Some(first) => {
                content.push(pair_value(first, *digit))?;
                high = None;
            }
            None => high = Some(*digit),
        }
    }
    Ok(content)
}

/// The byte that two digits stand for.
fn pair_value(high: u8, low: u8) -> u8
    ensures { result ≡ (16 * value_of high + value_of low) % 256 }
{
    ((16 * digit_value(high) + digit_value(low)) % 256) as u8
}

/// What a digit of base 16 in lower case stands for.
fn digit_value(digit: u8) -> u16
    ensures value { result ≡ value_of digit }
    ensures small { result < 256 }
{
    if digit < 58 {
        u16::from(digit.saturating_sub(48))
    } else {
        u16::from(digit.saturating_sub(87))
    }
}
