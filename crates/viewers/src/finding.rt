//! Viewers by name.
ghost use Rattle.std.specs.Prelude.{◌≡◌, map, None, Some, find as first_that, MatchOption};
ghost use Rattle.mk_value.specs.Names.{same_bytes};
ghost use Rattle.viewers.specs.Meanings.{Meaning};

use crate::Viewer;
use mk_value::Name;

/// The first viewer of a name, if there is one.
pub fn find<'a, V: Viewer>(viewers: &'a [V], name: &Name) -> Option<&'a V>
    ensures { MatchOption result (first_that (λ (m : Meaning). same_bytes m.name name.now) (map V.meaning viewers.now) ≡ None) (λ viewer. first_that (λ (m : Meaning). same_bytes m.name name.now) (map V.meaning viewers.now) ≡ Some (V.meaning viewer.now)) }
{
    for viewer in viewers {
        if viewer.name().as_bytes() == name.as_bytes() {
            return Some(viewer);
        }
    }
    None
}
