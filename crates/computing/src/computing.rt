//! All computed watches.
ghost use Rattle.std.specs.Prelude.{◌≡◌, ◌≤◌, ◌<◌, ◌++◌, ◌∷◌, [], length, position, OnErr, OnOk};
ghost use Rattle.mk_value.specs.Names.{same_bytes};
ghost use Rattle.computing.specs.Computed.{ComputedWatch, count as how_many, has_name as any_has, has_source as any_stands_over, is_computed as is_name_of_one, is_count as is_name_of_count, is_filter as is_name_of_filter, is_source as is_stood_over, no_computations, with_watch, without_computed, without_first};

use crate::computed::{Computation, Computed};
use mk_value::{Memory, Name};
use std::alloc::Global;
use std::marker::Model;

/// Filters, which stand over views and other watches, and counts, which stand over these and over filters: each in the order in which they
/// were put.
#[derive(Drop)]
pub struct Computing {
    filters: Vec<Computed>,
    counts: Vec<Computed>,
}

impl Model for Computing {
    ghost use Rattle.computing.specs.Computed.{Computations};

    ghost Value = { Computations };

    ghost use Rattle.std.specs.Coded.{codes};

    ghost coded = { Prim.hlevel (codes) };

    ghost use Rattle.std.specs.Prelude.{◌≤◌, ◌+◌, length};

    ghost view = { λ c. record { filters = c.filters.items; counts = c.counts.items } };

    // There are at most 64 watches in all, so that their number is known without a bound of its own.
    ghost invariant = { λ c. length c.filters.items + length c.counts.items ≤ 64 };
}

impl Computing {
    /// No computed watches.
    pub fn new(alloc: Global) -> Computing
        ensures { result ≡ no_computations }
    {
        Computing {
            filters: Vec::new(alloc),
            counts: Vec::new(alloc),
        }
    }

    /// Gives all of them up. It takes no memory.
    pub fn clear(&mut self)
        ensures { self.new ≡ no_computations }
    {
        self.filters.clear();
        self.counts.clear();
    }

    /// The filters.
    pub fn filters(&self) -> &[Computed]
        ensures { result.now ≡ self.now.filters }
    {
        &self.filters
    }

    /// The counts.
    pub fn counts(&self) -> &[Computed]
        ensures { result.now ≡ self.now.counts }
    {
        &self.counts
    }

    /// The number of filters and counts.
    pub fn count(&self) -> usize
        ensures value { result ≡ how_many self.now }
        ensures few { result ≤ 64 }
    {
        self.filters.len() + self.counts.len()
    }

    /// Whether one of them has the name.
    pub fn is_computed(&self, name: &Name) -> bool
        ensures { result ≡ is_name_of_one self.now name.now }
    {
        self.is_filter(name) || self.is_count(name)
    }

    /// Whether a filter has the name.
    pub fn is_filter(&self, name: &Name) -> bool
        ensures { result ≡ is_name_of_filter self.now name.now }
    {
        has_name(&self.filters, name)
    }

    /// Whether counts have the name.
    pub fn is_count(&self, name: &Name) -> bool
        ensures { result ≡ is_name_of_count self.now name.now }
    {
        has_name(&self.counts, name)
    }

    /// Whether one of them stands over what has the name.
    pub fn is_source(&self, name: &Name) -> bool
        ensures { result ≡ is_stood_over self.now name.now }
    {
        has_source(&self.filters, name) || has_source(&self.counts, name)
    }

    /// Puts one more behind the others of its sort.
    ///
    /// # Errors
    ///
    /// `Memory`, and they are as before.
    pub fn put(&mut self, watch: Computed) -> Result<(), Memory>
        requires { how_many self.old < 64 }
        ensures ok { OnOk result (self.new ≡ with_watch self.old watch) }
        ensures err { OnErr result (self.new ≡ self.old) }
    {
        match watch.shows() {
            Computation::Counts(_, _) => push(&mut self.counts, watch),
            Computation::Filter(_, _) => push(&mut self.filters, watch),
        }
    }

    /// Takes the one of a name out.
    pub fn take_out(&mut self, name: &Name)
        ensures { self.new ≡ without_computed self.old name.now }
    {
        take_out_first(&mut self.filters, name);
        take_out_first(&mut self.counts, name);
    }
}

/// Whether one has the name.
fn has_name(watches: &[Computed], name: &Name) -> bool
    ensures { result ≡ any_has watches.now name.now }
{
    watches.iter().any(|watch| *watch.name() == *name)
}

/// Whether one stands over what has the name.
fn has_source(watches: &[Computed], name: &Name) -> bool
    ensures { result ≡ any_stands_over watches.now name.now }
{
    watches.iter().any(|watch| *watch.source() == *name)
}

/// Puts one behind the others.
fn push(watches: &mut Vec<Computed>, watch: Computed) -> Result<(), Memory>
    ensures ok { OnOk result (watches.new.items ≡ watches.old.items ++ watch ∷ []) }
    ensures err { OnErr result (watches.new.items ≡ watches.old.items) }
{
    watches.push(watch)?;
    Ok(())
}

/// The place of the first of a name.
fn place_of(watches: &[Computed], name: &Name) -> Option<usize>
    ensures { result ≡ position (λ (w : ComputedWatch). same_bytes w.name name.now) watches.now }
{
    watches.iter().position(|watch| *watch.name() == *name)
}

/// Takes the first of a name out, if it is there.
fn take_out_first(watches: &mut Vec<Computed>, name: &Name)
    ensures { watches.new.items ≡ without_first watches.old.items name.now }
{
    if let Some(at) = place_of(watches, name) {
        drop(watches.remove(at));
    }
}
