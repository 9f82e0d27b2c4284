//! Fields that are a count or a length.
ghost use Rattle.std.specs.Prelude.{◌≡◌, ◌<◌, ◌≤◌, length, MatchResult};
ghost use Rattle.byteorder.specs.Endian.{little_bytes};
ghost use Rattle.stream_codec.specs.declared.error.LoadError.TheVariants as load_error;
ghost use Rattle.stream_codec.specs.Fields.{number_of_field};

use crate::error::LoadError;
use byteorder::{ByteOrder, LittleEndian};

/// The number of four bytes that a field at this place is, if it is at most so much.
pub(crate) fn read_count(field: &[u8], most: u32, place: u64) -> Result<u32, LoadError>
    requires { length field.now ≡ 4 }
    ensures { MatchResult result
        (λ n. (n ≡ number_of_field field.now) × (little_bytes 4 n ≡ field.now) × (n ≤ most))
        (λ e. (e ≡ load_error.At place) × (most < number_of_field field.now)) }
{
    let count = LittleEndian::read_u32(field);
    if count > most {
        return Err(LoadError::At(place));
    }
    Ok(count)
}
