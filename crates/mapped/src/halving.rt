ghost use Rattle.std.specs.Prelude.{◌≡◌, ◌+◌, ◌-◌, ◌*◌, ◌<◌, ◌≤◌};

/// A place between two others, which leaves at most half of what is between them on each side.
pub(crate) fn middle(low: usize, high: usize) -> usize
    requires { low < high }
    ensures from { low ≤ result }
    ensures below { result < high }
    ensures front { 2 * (result - low) ≤ high - low }
    ensures rest { 2 * (high - (result + 1)) ≤ high - low }
{
    low + (high - low) / 2
}
