//! One value of each width in a slice of bytes: where it stands, and how it is read and written there.
//! Loops over values are written once, over any lane, and the width is looked at before them.
ghost use Rattle.std.specs.Prelude.{◌≡◌, ℕ, ◌+◌, ◌-◌, ◌*◌, ◌/◌, ◌%◌, ◌^◌, ◌<◌, ◌≤◌, length};
ghost use Rattle.bit_pack.specs.declared.widths.Width.{Width};
ghost use Rattle.bit_pack.specs.declared.widths.Width.TheVariants.{W0, W1, W2, W4, W8, W16, W32, W64};
ghost use Rattle.bit_pack.specs.Width.{Holds};
ghost use Rattle.bit_pack.specs.Packed.{AreBytes, Reaches, value_at};
ghost use Rattle.bit_pack.specs.Lane.{Writes};

/// How the values of one width stand in bytes.
pub trait Lane {
    ghost width: { Width };

    /// The value at a place.
    fn read(bytes: &[u8], at: usize) -> i64
        requires { Reaches width bytes.now (at + 1) }
        ensures { result ≡ value_at width bytes.now at };

    /// Puts the value at a place, and leaves each other bit as it was. (Bytes behind a `&mut` are below
    /// 256 only by a premise.)
    fn write(bytes: &mut [u8], at: usize, value: i64)
        requires reaches { Reaches width bytes.old (at + 1) }
        requires holds { Holds width value }
        ensures { AreBytes bytes.old → Writes width bytes.old bytes.new at value };
}

/// The `bits` bits of the byte from bit `from` on.
fn field(byte: u8, from: usize, bits: usize) -> u8
    requires within { from + bits ≤ 8 }
    requires some { 0 < bits }
    requires short { bits < 8 }
    ensures { result ≡ byte / 2 ^ from % 2 ^ bits }
{
    (byte >> from) & ((1 << bits) - 1)
}

/// The byte with `value` in place of its `bits` bits from bit `from` on.
fn with_field(byte: u8, from: usize, bits: usize, value: u8) -> u8
    requires within { from + bits ≤ 8 }
    requires some { 0 < bits }
    requires short { bits < 8 }
    requires fits { value < 2 ^ bits }
    ensures { result + 2 ^ from * (byte / 2 ^ from % 2 ^ bits) ≡ byte + 2 ^ from * value }
{
    byte - (field(byte, from, bits) << from) + (value << from)
}

/// No bits: each value is 0.
pub struct Lane0;

impl Lane for Lane0 {
    ghost width = { W0 };

    fn read(_bytes: &[u8], _at: usize) -> i64 {
        0
    }

    fn write(_bytes: &mut [u8], _at: usize, _value: i64) {}
}

/// Eight values to a byte.
pub struct Lane1;

impl Lane for Lane1 {
    ghost width = { W1 };

    fn read(bytes: &[u8], at: usize) -> i64 {
        i64::from(field(bytes[at / 8], at % 8, 1))
    }

    fn write(bytes: &mut [u8], at: usize, value: i64) {
        bytes[at / 8] = with_field(bytes[at / 8], at % 8, 1, value as u8);
    }
}

/// Four values to a byte.
pub struct Lane2;

impl Lane for Lane2 {
    ghost width = { W2 };

    fn read(bytes: &[u8], at: usize) -> i64 {
        i64::from(field(bytes[at / 4], 2 * (at % 4), 2))
    }

    fn write(bytes: &mut [u8], at: usize, value: i64) {
        bytes[at / 4] = with_field(bytes[at / 4], 2 * (at % 4), 2, value as u8);
    }
}

/// Two values to a byte.
pub struct Lane4;

impl Lane for Lane4 {
    ghost width = { W4 };

    fn read(bytes: &[u8], at: usize) -> i64 {
        i64::from(field(bytes[at / 2], 4 * (at % 2), 4))
    }

    fn write(bytes: &mut [u8], at: usize, value: i64) {
        bytes[at / 2] = with_field(bytes[at / 2], 4 * (at % 2), 4, value as u8);
    }
}

/// A byte to a value.
pub struct Lane8;

impl Lane for Lane8 {
    ghost width = { W8 };

    fn read(bytes: &[u8], at: usize) -> i64 {
        i64::from(bytes[at].cast_signed())
    }

    fn write(bytes: &mut [u8], at: usize, value: i64) {
        bytes[at] = (value as i8).cast_unsigned();
    }
}

/// Two bytes to a value.
pub struct Lane16;

impl Lane for Lane16 {
    ghost width = { W16 };

    fn read(bytes: &[u8], at: usize) -> i64 {
        i64::from(i16::from_le_bytes([bytes[2 * at], bytes[2 * at + 1]]))
    }

    fn write(bytes: &mut [u8], at: usize, value: i64) {
        bytes[2 * at..2 * at + 2].copy_from_slice(&(value as i16).to_le_bytes());
    }
}

/// Four bytes to a value.
pub struct Lane32;

impl Lane for Lane32 {
    ghost width = { W32 };

    fn read(bytes: &[u8], at: usize) -> i64 {
        i64::from(i32::from_le_bytes([
            bytes[4 * at],
            bytes[4 * at + 1],
            bytes[4 * at + 2],
            bytes[4 * at + 3],
        ]))
    }

    fn write(bytes: &mut [u8], at: usize, value: i64) {
        bytes[4 * at..4 * at + 4].copy_from_slice(&(value as i32).to_le_bytes());
    }
}

/// Eight bytes to a value.
pub struct Lane64;

impl Lane for Lane64 {
    ghost width = { W64 };

    fn read(bytes: &[u8], at: usize) -> i64 {
        i64::from_le_bytes([
            bytes[8 * at],
            bytes[8 * at + 1],
            bytes[8 * at + 2],
            bytes[8 * at + 3],
            bytes[8 * at + 4],
            bytes[8 * at + 5],
            bytes[8 * at + 6],
            bytes[8 * at + 7],
        ])
    }

    fn write(bytes: &mut [u8], at: usize, value: i64) {
        bytes[8 * at..8 * at + 8].copy_from_slice(&value.to_le_bytes());
    }
}
