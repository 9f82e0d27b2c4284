//! One computed watch.
ghost use Rattle.std.specs.Prelude.{◌≡◌, map, true};
ghost use Rattle.derived.specs.Layers.{table_of};
ghost use Rattle.eval.specs.Values.{Evaluates};
ghost use Rattle.computing.specs.Computed.{has_keys, shown_of};

use derived::Derived;
use eval::{EvalError, counts_by, keep_by};
use mk_value::{Name, Same, Sequence, TableRead};
use std::alloc::Global;
use std::marker::Model;
use viewers::Viewer;

/// What a computed watch shows of the rows of its source.
#[derive(Drop)]
pub enum Computation {
    /// For each key of these properties, the number of its rows under this name.
    Counts(Sequence<Name>, Name),
    /// The rows on which the answer of the viewer of this name on these properties is not 0.
    Filter(Name, Sequence<Name>),
}

/// A computed watch: its name, the name over which it stands, and what it shows of that. Counts have a key.
#[derive(Drop)]
pub struct Computed {
    name: Name,
    source: Name,
    shows: Computation,
}

impl Model for Computed {
    ghost use Rattle.computing.specs.Computed.{ComputedWatch};

    ghost Value = { ComputedWatch };

    ghost use Rattle.std.specs.Coded.{codes};

    ghost coded = { Prim.hlevel (codes) };

    ghost use Rattle.std.specs.Prelude.{◌≡◌, true};
    ghost use Rattle.computing.specs.Computed.{has_keys};

    ghost view = { λ c. record { name = c.name; source = c.source; shows = c.shows } };

    ghost invariant = { λ c. has_keys c.shows ≡ true };
}

impl Computed {
    /// A computed watch of a name over a source.
    pub fn new(name: Name, source: Name, shows: Computation) -> Computed
        requires { has_keys shows ≡ true }
        ensures { result ≡ record { name = name; source = source; shows = shows } }
    {
        Computed {
            name,
            source,
            shows,
        }
    }

    /// Its name.
    pub fn name(&self) -> &Name
        ensures { result.now ≡ self.now.name }
    {
        &self.name
    }

    /// The name over which it stands.
    pub fn source(&self) -> &Name
        ensures { result.now ≡ self.now.source }
    {
        &self.source
    }

    /// What it shows.
    pub fn shows(&self) -> &Computation
        ensures shows { result.now ≡ self.now.shows }
        ensures keys { has_keys result.now ≡ true }
    {
        &self.shows
    }
}

/// What is shown of a table.
///
/// # Errors
///
/// The refusal of the operator; `Viewer` where no viewer has the name. Else `Memory`.
pub fn shown<T: TableRead + Same + Drop, V: Viewer>(
    alloc: Global,
    base: Derived<T>,
    viewers: &[V],
    shows: &Computation,
) -> Result<Derived<T>, EvalError>
    requires { has_keys shows.now ≡ true }
    ensures { Evaluates table_of (shown_of (map V.meaning viewers.now) shows.now (table_of base)) result }
{
    match shows {
        Computation::Counts(keys, count) => counts_by(alloc, base, keys.as_slice(), count),
        Computation::Filter(viewer, props) => keep_by(
            alloc,
            base,
            viewers,
            viewer,
            props.as_slice(),
        ),
    }
}
