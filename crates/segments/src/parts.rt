//! The parts in which a list is kept, one for each segment.
ghost use Rattle.std.specs.Prelude.{◌≡◌, ◌≤◌, ◌++◌, length, take, drop, OnOk, OnErr};

use mk_value::Memory;

/// Puts parts in place of those from `first` up to `after`.
///
/// # Errors
///
/// `Memory`, and the parts are as they were.
pub fn replace_parts<T: Drop>(
    parts: &mut Vec<T>,
    first: usize,
    after: usize,
    fresh: Vec<T>,
) -> Result<(), Memory>
    requires order { first ≤ after }
    requires in_range { after ≤ length parts.old.items }
    ensures ok { OnOk result (parts.new.items ≡ take first parts.old.items ++ (fresh.items ++ drop after parts.old.items)) }
    ensures err { OnErr result (parts.new.items ≡ parts.old.items) }
{
    parts.splice(first..after, fresh)?;
    Ok(())
}
