//! What the name of a computed watch stands for.
ghost use Rattle.std.specs.Prelude.{◌≡◌, [], find as first_that, length, map, Ok, IfOk, IfSome};
ghost use Rattle.derived.specs.Layers.{table_of};
ghost use Rattle.eval.specs.Names.{IsSeen, Named, seen_at};
ghost use Rattle.eval.specs.Values.{Evaluates};
ghost use Rattle.mk_value.specs.Names.{same_bytes};
ghost use Rattle.computing.specs.Computed.{names_of, value_of};

use crate::computed::{Computation, Computed, shown};
use derived::Derived;
use eval::{EvalError, NameError, Names};
use mk_value::{Memory, Name, Path, Same, TableRead};
use std::alloc::Global;
use viewers::{Viewer, find};

/// Names of which some may have counts of their rows at hand, or those of them that a viewer keeps. No answer shows which have.
pub trait AtHand<T: TableRead + Same + Drop>: Names<T> {
    ghost use Rattle.std.specs.Prelude.{◌≡◌, Ok, IfOk, IfSome};
    ghost use Rattle.computing.specs.Computed.{counts_over, rows_over};
    ghost use Rattle.derived.specs.Layers.{table_of};

    /// The counts of what a name stands for, by these keys and under this name, where they are at hand.
    ///
    /// # Errors
    ///
    /// `Memory`.
    fn counts_at_hand(
        &self,
        alloc: Global,
        name: &Name,
        keys: &[Name],
        count: &Name,
    ) -> Result<Option<Derived<T>>, Memory>
        ensures { IfOk result (λ found. IfSome found (λ d. counts_over (Self.named self.now) name.now keys.now count.now ≡ Ok (table_of d))) };

    /// The rows of what a name stands for on which the answer of a viewer on these properties is not 0, where they are at hand.
    ///
    /// # Errors
    ///
    /// `Memory`.
    fn rows_at_hand<V: Viewer>(
        &self,
        alloc: Global,
        name: &Name,
        viewer: &V,
        props: &[Name],
    ) -> Result<Option<Derived<T>>, Memory>
        ensures { IfOk result (λ found. IfSome found (λ d. rows_over (Self.named self.now) name.now (V.meaning viewer.now) props.now ≡ Ok (table_of d))) };
}

/// The table of the first computed watch of a name that has one.
///
/// # Errors
///
/// `NoName` where there is none. Else `Memory`.
pub fn computed_table<T: TableRead + Same + Drop, S: AtHand<T>, V: Viewer>(
    alloc: Global,
    sources: &S,
    viewers: &[V],
    watches: &[Computed],
    name: &Name,
) -> Result<Derived<T>, NameError>
    ensures { IsSeen (seen_at (first_that (λ (n : Named). same_bytes n.name name.now) (names_of (S.named sources.now) (map V.meaning viewers.now) watches.now)) []) result }
{
    let Some((first, rest)) = watches.split_first() else {
        return Err(NameError::NoName);
    };
    if *first.name() != *name {
        return computed_table(alloc, sources, viewers, rest, name);
    }
    match value(alloc, sources, viewers, first) {
        Ok(table) => Ok(table),
        Err(error) if error.is_memory() => Err(NameError::Memory),
        Err(_) => computed_table(alloc, sources, viewers, rest, name),
    }
}

/// What a computed watch shows now.
fn value<T: TableRead + Same + Drop, S: AtHand<T>, V: Viewer>(
    alloc: Global,
    sources: &S,
    viewers: &[V],
    watch: &Computed,
) -> Result<Derived<T>, EvalError>
    ensures { Evaluates table_of (value_of (S.named sources.now) (map V.meaning viewers.now) watch.now) result }
{
    if let Some(table) = at_hand(alloc, sources, viewers, watch)? {
        return Ok(table);
    }
    let source = Path::new(alloc, watch.source().copy()?);
    match sources.view(&source) {
        Ok(base) => shown(alloc, base, viewers, watch.shows()),
        Err(error) => Err(EvalError::Name(error)),
    }
}

/// What a computed watch shows now, where it is at hand.
fn at_hand<T: TableRead + Same + Drop, S: AtHand<T>, V: Viewer>(
    alloc: Global,
    sources: &S,
    viewers: &[V],
    watch: &Computed,
) -> Result<Option<Derived<T>>, Memory>
    ensures { IfOk result (λ found. IfSome found (λ d. value_of (S.named sources.now) (map V.meaning viewers.now) watch.now ≡ Ok (table_of d))) }
{
    match watch.shows() {
        Computation::Counts(keys, count) => {
            sources.counts_at_hand(alloc, watch.source(), keys.as_slice(), count)
        }
        Computation::Filter(name, props) => match find(viewers, name) {
            Some(viewer) => sources.rows_at_hand(alloc, watch.source(), viewer, props.as_slice()),
            None => Ok(None),
        },
    }
}
