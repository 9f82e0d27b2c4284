// The bytes of a record.
ghost use Rattle.std.specs.Prelude.{◌≡◌, ◌+◌, ◌^◌, ◌<◌, ◌≤◌, ◌++◌, length, take, drop};
ghost use Rattle.byteorder.specs.Endian.{little_bytes};
ghost use Rattle.aside_disk.specs.Records.{head_bytes, record_len};

use byteorder::{ByteOrder, LittleEndian};
use host_io::MAX_WRITE;

/// The most bytes that a record has.
pub(crate) const MAX_RECORD: usize = MAX_WRITE + 16;

/// How many bytes a record has, of so many bytes of content.
pub(crate) fn record_len(len: u64) -> u64
    requires { len < 2 ^ 63 }
    ensures { result ≡ record_len len }
{
    (len + 31) / 16 * 16
}

/// What a record begins with.
fn head_bytes(place: u64, len: u64) -> [u8; 16]
    ensures { result ≡ little_bytes 8 place ++ little_bytes 8 len }
{
    let mut head = [0; 16];
    LittleEndian::write_u64(&mut head[..8], place);
    LittleEndian::write_u64(&mut head[8..], len);
    head
}

/// Puts two lists of bytes at the front of a piece, one behind the other.
fn put_both(piece: &mut [u8], head: &[u8], from: &[u8])
    requires { length head.now + length from.now ≤ length piece.old }
    ensures { piece.new ≡ head.now ++ from.now ++ drop (length head.now + length from.now) piece.old }
{
    let (front, rest) = piece.split_at_mut(head.len());
    front.copy_from_slice(head);
    rest[..from.len()].copy_from_slice(from);
}

/// A record of these bytes, which go to this place, and zeros behind it.
pub(crate) fn record_bytes(place: u64, from: &[u8]) -> [u8; MAX_RECORD]
    requires { length from.now ≤ 4096 }
    ensures { take (16 + length from.now) result ≡ head_bytes (record { place = place; bytes = from.now }) ++ from.now }
{
    let mut record = [0; MAX_RECORD];
    put_both(&mut record, &head_bytes(place, from.len() as u64), from);
    record
}
