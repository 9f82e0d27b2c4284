ghost use Rattle.std.specs.Prelude.{length, All, IfNone, IfSome};
ghost use Rattle.std.specs.List.Sorted.{IsNonDecreasingBy};
ghost use Rattle.free_space.specs.Extents.{IsBlock};
ghost use Rattle.free_space.specs.Overlaps.{AreFirstNeighborsToMeet, AreNeighborsApart, place_of};

use crate::extent::extent_end;
use mk_value::Span;

/// The first neighbors that meet, of blocks in order of place.
pub(crate) fn first_to_meet(ordered: &[Span]) -> Option<(Span, Span)>
    requires blocks { All IsBlock ordered.now }
    requires by_place { IsNonDecreasingBy place_of ordered.now }
    ensures found { IfSome result (λ pair. AreFirstNeighborsToMeet ordered.now pair.0 pair.1) }
    ensures none { IfNone result (AreNeighborsApart ordered.now (length ordered.now)) }
{
    for at in 1..ordered.len() {
        let one = ordered[at - 1];
        let other = ordered[at];
        if other.place < extent_end(&one) {
            return Some((one, other));
        }
    }
    None
}
