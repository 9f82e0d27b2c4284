//! The tables of views, shared.
ghost use Rattle.std.specs.Prelude.{◌≡◌, position, None, Some, IsSome, MatchOption};
ghost use Rattle.mk_value.specs.Names.{same_bytes};
ghost use Rattle.view_store.specs.Views.{table_of};

use mk_value::Name;
use tables::Shared;
use view_store::{Names, Root};

/// The table of the view of a name, which is there.
pub(crate) fn shared<'a>(views: &'a Root, name: &Name) -> &'a Shared
    requires { IsSome (table_of views.now name.now) }
    ensures { table_of views.now name.now ≡ Some result.now }
{
    view_of(views, name).unwrap()
}

/// The table of the view of a name, shared.
pub fn view_of<'a>(views: &'a Root, name: &Name) -> Option<&'a Shared>
    ensures { MatchOption result (table_of views.now name.now ≡ None) (λ table. table_of views.now name.now ≡ Some table.now) }
{
    match place_in(views.names(), name) {
        Some(at) => Some(&views.tables()[at]),
        None => None,
    }
}

/// The place of a name among names.
fn place_in(names: &Names, name: &Name) -> Option<usize>
    ensures { result ≡ position (λ known. same_bytes known name.now) names.now }
{
    names.as_slice().iter().position(|known| *known == *name)
}
