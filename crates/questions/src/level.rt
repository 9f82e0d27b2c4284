//! Names, and behind them those of computed watches.
ghost use Rattle.std.specs.Prelude.{◌≡◌, ◌↔◌, IsTrue};
ghost use Rattle.eval.specs.declared.error.NameError.TheVariants as name_error;

use computing::{AtHand, Computed, computed_table};
use derived::Derived;
use eval::{NameError, Names};
use mk_value::{Memory, Name, Path};
use std::alloc::Global;
use tables::Shared;
use viewers::Viewer;

/// Names, and behind them those of computed watches that stand over sources.
#[derive(Drop)]
pub(crate) struct Level<'a, N: Names<Shared>, S: Names<Shared>, V: Viewer> {
    pub(crate) names: &'a N,
    pub(crate) sources: &'a S,
    pub(crate) viewers: &'a [V],
    pub(crate) watches: &'a [Computed],
    pub(crate) alloc: Global,
}

impl<N: Names<Shared>, S: AtHand<Shared>, V: Viewer> Names<Shared> for Level<'_, N, S, V> {
    ghost use Rattle.std.specs.Prelude.{◌++◌, map};
    ghost use Rattle.computing.specs.Computed.{names_of};

    ghost named = { λ l. N.named l.names.now ++ names_of (S.named l.sources.now) (map V.meaning l.viewers.now) l.watches.now };

    fn view(&self, path: &Path) -> Result<Derived<Shared>, NameError> {
        // No steps may follow a computed watch.
        if !path.steps().is_empty() {
            return self.names.view(path);
        }
        match self.names.view(path) {
            Ok(table) => Ok(table),
            Err(error) if is_absent(&error) => {
                computed_table(
                    self.alloc,
                    self.sources,
                    self.viewers,
                    self.watches,
                    path.name(),
                )
            }
            Err(error) => Err(error),
        }
    }
}

impl<N: AtHand<Shared>, S: AtHand<Shared>, V: Viewer> AtHand<Shared> for Level<'_, N, S, V> {
    /// Those of the names that come first; computed watches have none.
    fn counts_at_hand(
        &self,
        alloc: Global,
        name: &Name,
        keys: &[Name],
        count: &Name,
    ) -> Result<Option<Derived<Shared>>, Memory> {
        self.names.counts_at_hand(alloc, name, keys, count)
    }

    /// Those of the names that come first; computed watches have none.
    fn rows_at_hand<W: Viewer>(
        &self,
        alloc: Global,
        name: &Name,
        viewer: &W,
        props: &[Name],
    ) -> Result<Option<Derived<Shared>>, Memory> {
        self.names.rows_at_hand(alloc, name, viewer, props)
    }
}

/// Whether it is that nothing has the name.
pub(crate) fn is_absent(error: &NameError) -> bool
    ensures { IsTrue result ↔ (error.now ≡ name_error.NoName) }
{
    matches!(error, NameError::NoName)
}
