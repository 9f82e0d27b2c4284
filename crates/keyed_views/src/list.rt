//! A list of mapped views.
ghost use Rattle.std.specs.Prelude.{◌≡◌, ◌++◌, ◌∷◌, [], position, OnErr, OnOk, Some, true};
ghost use Rattle.std.specs.List.{list_any};
ghost use Rattle.mk_value.specs.Names.{same_bytes};
ghost use Rattle.keyed_views.specs.declared.kept.Kept.{Kept};

use crate::kept::Kept;
use mk_value::{Memory, Name};

/// Whether the view of the name is mapped.
pub(crate) fn is_mapped(list: &[Kept], view: &Name) -> bool
    ensures { result ≡ list_any (λ (k : Kept). same_bytes k.view view.now) list.now }
{
    list.iter().any(|kept| kept.view == *view)
}

/// The place of the view of the name, if it is mapped.
pub(crate) fn find(list: &[Kept], view: &Name) -> Option<usize>
    ensures { result ≡ position (λ (k : Kept). same_bytes k.view view.now) list.now }
{
    list.iter().position(|kept| kept.view == *view)
}

/// The place of the view of the name, which is mapped.
pub(crate) fn at(list: &[Kept], view: &Name) -> usize
    requires { list_any (λ (k : Kept). same_bytes k.view view.now) list.now ≡ true }
    ensures { position (λ (k : Kept). same_bytes k.view view.now) list.now ≡ Some result }
{
    find(list, view).unwrap()
}

/// Puts a mapped view behind the others.
pub(crate) fn push(list: &mut Vec<Kept>, kept: Kept) -> Result<(), Memory>
    ensures ok { OnOk result (list.new.items ≡ list.old.items ++ kept ∷ []) }
    ensures err { OnErr result (list.new.items ≡ list.old.items) }
{
    list.push(kept)?;
    Ok(())
}
