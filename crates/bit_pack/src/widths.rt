//! The eight widths, and which one values need.
ghost use Rattle.std.specs.Prelude.{◌≡◌, ◌≢◌, ℕ, ℤ, ◌*◌, ◌^◌, ◌<◌, ◌≤◌, ◌↔◌, max, pos, fold, IsTrue, IfSome, IfNone};
ghost use Rattle.std.specs.Int.{int_min, int_max};
ghost use Rattle.bit_pack.specs.declared.widths.Width.{Width};
ghost use Rattle.bit_pack.specs.Width.{bit_count, lowest, highest, Holds, IsLeastWidth, IsNarrower, least_width};
ghost use Rattle.bit_pack.specs.Packed.{packed_len};

/// How many bits each value of a packed list takes. Up to 4 bits are unsigned, and from 8 bits on
/// values are in two's complement.
#[derive(Clone, Copy, Debug, PartialEq, Eq)]
pub enum Width {
    /// No bits: each value is 0.
    W0,
    /// 0 and 1.
    W1,
    /// 0 to 3.
    W2,
    /// 0 to 15.
    W4,
    /// -128 to 127.
    W8,
    /// -32,768 to 32,767.
    W16,
    /// -2^31 to 2^31 - 1.
    W32,
    /// Each `i64`.
    W64,
}

impl Width {
    /// The bits of one value.
    pub fn bits(self) -> u8
        ensures { result ≡ bit_count self }
    {
        match self {
            Width::W0 => 0,
            Width::W1 => 1,
            Width::W2 => 2,
            Width::W4 => 4,
            Width::W8 => 8,
            Width::W16 => 16,
            Width::W32 => 32,
            Width::W64 => 64,
        }
    }

    /// The width of this many bits, or `None` where there is none.
    pub fn from_bits(bits: u8) -> Option<Width>
        ensures found { IfSome result (λ w. bit_count w ≡ bits) }
        ensures none { IfNone result ((w : Width) → bit_count w ≢ bits) }
    {
        match bits {
            0 => Some(Width::W0),
            1 => Some(Width::W1),
            2 => Some(Width::W2),
            4 => Some(Width::W4),
            8 => Some(Width::W8),
            16 => Some(Width::W16),
            32 => Some(Width::W32),
            64 => Some(Width::W64),
            _ => None,
        }
    }

    /// The least value of the width.
    pub fn lowest(self) -> i64
        ensures { result ≡ lowest self }
    {
        match self {
            Width::W0 | Width::W1 | Width::W2 | Width::W4 => 0,
            Width::W8 => -128,
            Width::W16 => -32_768,
            Width::W32 => -2_147_483_648,
            Width::W64 => i64::MIN,
        }
    }

    /// The greatest value of the width.
    pub fn highest(self) -> i64
        ensures { result ≡ highest self }
    {
        match self {
            Width::W0 => 0,
            Width::W1 => 1,
            Width::W2 => 3,
            Width::W4 => 15,
            Width::W8 => 127,
            Width::W16 => 32_767,
            Width::W32 => 2_147_483_647,
            Width::W64 => i64::MAX,
        }
    }

    /// Whether the value is one of the width.
    pub fn holds(self, value: i64) -> bool
        ensures { IsTrue result ↔ Holds self value }
    {
        self.lowest() <= value && value <= self.highest()
    }

    /// The least width that holds the value.
    pub fn of(value: i64) -> Width
        ensures holds { Holds result value }
        ensures least { (w : Width) → Holds w value → bit_count result ≤ bit_count w }
    {
        if Width::W4.holds(value) {
            Width::of_small(value)
        } else if Width::W8.holds(value) {
            Width::W8
        } else if Width::W16.holds(value) {
            Width::W16
        } else if Width::W32.holds(value) {
            Width::W32
        } else {
            Width::W64
        }
    }

    fn of_small(value: i64) -> Width
        requires { Holds Width.W4 value }
        ensures holds { Holds result value }
        ensures least { (w : Width) → Holds w value → bit_count result ≤ bit_count w }
    {
        match value {
            0 => Width::W0,
            1 => Width::W1,
            2 | 3 => Width::W2,
            _ => Width::W4,
        }
    }

    /// The wider of the two.
    pub fn wider(self, other: Width) -> Width
        ensures { bit_count result ≡ max (bit_count self) (bit_count other) }
    {
        if self.bits() < other.bits() {
            other
        } else {
            self
        }
    }

    /// The next narrower width, or `None` at no bits.
    pub fn narrower(self) -> Option<Width>
        ensures found { IfSome result (λ w. IsNarrower w self) }
        ensures none { IfNone result (bit_count self ≡ 0) }
    {
        match self {
            Width::W0 => None,
            Width::W1 => Some(Width::W0),
            Width::W2 => Some(Width::W1),
            Width::W4 => Some(Width::W2),
            Width::W8 => Some(Width::W4),
            Width::W16 => Some(Width::W8),
            Width::W32 => Some(Width::W16),
            Width::W64 => Some(Width::W32),
        }
    }

    /// How many bytes so many values take: the bits of all of them, in whole bytes.
    pub fn packed_len(self, count: usize) -> usize
        requires { 8 * count < 2 ^ 64 }
        ensures { result ≡ packed_len self count }
    {
        match self {
            Width::W0 => 0,
            Width::W1 => count.div_ceil(8),
            Width::W2 => count.div_ceil(4),
            Width::W4 => count.div_ceil(2),
            Width::W8 => count,
            Width::W16 => 2 * count,
            Width::W32 => 4 * count,
            Width::W64 => 8 * count,
        }
    }
}

/// The least and the greatest of the values and of 0.
fn range_of(values: &[i64]) -> (i64, i64)
    ensures low { result.0 ≡ fold int_min (pos 0) values.now }
    ensures high { result.1 ≡ fold int_max (pos 0) values.now }
{
    let mut low = 0i64;
    let mut high = 0i64;
    for value in values {
        low = low.min(*value);
        high = high.max(*value);
    }
    (low, high)
}

/// The least width that holds all values.
pub fn width_for(values: &[i64]) -> Width
    ensures least { IsLeastWidth result values.now }
    ensures value { result ≡ least_width values.now }
{
    let (low, high) = range_of(values);
    Width::of(low).wider(Width::of(high))
}
