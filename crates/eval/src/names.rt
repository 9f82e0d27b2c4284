//! Names that stand for tables.
use crate::error::NameError;
use derived::Derived;
use mk_value::{Path, Same, TableRead};

/// What names stand for: a list of names with a table each, of which the first of a name decides.
pub trait Names<T: TableRead + Same + Drop> {
    ghost use Rattle.std.specs.Prelude.{List};
    ghost use Rattle.eval.specs.Names.{Named, IsSeen, view_at};

    ghost named: { Self → List Named };

    /// The table to which a path leads.
    ///
    /// # Errors
    ///
    /// `NoName`, `NoProp`, `WrongKind`, `OutOfRange`, in this order over the whole path; after a property that is no view nothing is looked
    /// at. Else `Memory`.
    fn view(&self, path: &Path) -> Result<Derived<T>, NameError>
        ensures { IsSeen (view_at (named self.now) path.now) result };
}
