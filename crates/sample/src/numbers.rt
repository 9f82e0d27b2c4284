ghost use Rattle.std.specs.Prelude.{◌≡◌, ◌<◌, ◌^◌};
ghost use Rattle.sample.specs.Numbers.{drawn, next_state};

/// The state after a draw.
pub(crate) fn next_state(state: u64) -> u64
    ensures { result ≡ next_state state }
{
    state
        .wrapping_mul(6_364_136_223_846_793_005)
        .wrapping_add(1_442_695_040_888_963_407)
}

/// The number that a draw gave, by the state after it: its upper 31 bits.
pub(crate) fn drawn(state: u64) -> u64
    ensures value { result ≡ drawn state }
    ensures small { result < 2 ^ 31 }
{
    state / (1 << 33)
}
