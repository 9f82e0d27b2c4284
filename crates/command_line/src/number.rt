ghost use Rattle.std.specs.Prelude.{◌≡◌, ◌≢◌, ◌<◌, ◌^◌, ◌⊎◌, ◌↔◌, ℕ, IfSome, IfNone, IsTrue, decimal, length, slice_index};

/// The number that a text spells: decimal digits, with no sign and no leading zero.
pub(crate) fn number_of(text: &str) -> Option<u64>
    ensures some { IfSome result (λ number. text.now ≡ decimal number) }
    ensures none { IfNone result ((number : ℕ) → number < 2 ^ 64 → text.now ≢ decimal number) }
{
    if has_sign_or_zero(text) {
        return None;
    }
    text.parse().ok()
}

/// Whether a text begins with `+`, or with a `0` that is not all of it.
fn has_sign_or_zero(text: &str) -> bool
    ensures { IsTrue result ↔ ((slice_index text.now 0 ≡ 43) ⊎ ((slice_index text.now 0 ≡ 48) × (1 < length text.now))) }
{
    match text.as_bytes() {
        [b'+', ..] | [b'0', _, ..] => true,
        _ => false,
    }
}
