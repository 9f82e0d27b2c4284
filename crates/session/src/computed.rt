//! Computed watches: putting counts and filters over views and watches.
ghost use Rattle.std.specs.Prelude.{◌≡◌, ◌<◌, find, map, true, IfErr, IfOk, MatchOption, OnErr, OnOk, None, Ok, Some};
ghost use Rattle.std.specs.Result.{result_err};
ghost use Rattle.computing.specs.Computed.{ComputedWatch, count as count_computed, has_keys};
ghost use Rattle.watches.specs.Keeping.{max_watches};
ghost use Rattle.mk_value.specs.Names.{same_bytes};
ghost use Rattle.session.specs.Commands.{computed_size, with_computation};
ghost use Rattle.session.specs.Naming.{computed_due, computed_over_due, is_deep as is_chain_deep, may_stand as may_one_stand, shape_refusal};
ghost use Rattle.session.specs.Refusals.{AnswersDue};

use crate::Session;
use crate::refusals::{of_memory, of_question};
use cmd_text::Refusal;
use computing::{Computation, Computed};
use mk_value::{Name, TableRead};
use questions::QuestionError;
use viewers::Viewer;

/// The longest chain of watches.
const MAX_CHAIN: usize = 4;

impl Session {
    /// Puts counts or a filter over a source, and gives the number of its rows.
    ///
    /// # Errors
    ///
    /// The first that is due: `NoName` where the source is no view and no watch, or no viewer has the name; `Exists` where something has the new
    /// name, or the counts get the name of a key; `NoProp`, `Kind` by the properties, and `Kind` where it may not stand over the source;
    /// `Limit` where the counts would have 65 properties, the chain would be five long, or it would be the 65th watch. `Memory`.
    pub(crate) fn put_computed<V: Viewer>(
        &mut self,
        viewers: &[V],
        name: &Name,
        source: &Name,
        shows: Computation,
    ) -> Result<u64, Refusal>
        requires { has_keys shows ≡ true }
        ensures due { AnswersDue (computed_due (map V.meaning viewers.now) self.old name.now source.now shows) result }
        ensures size { IfOk result (λ size. size ≡ computed_size (map V.meaning viewers.now) self.old source.now shows) }
        ensures ok { OnOk result (self.new ≡ with_computation self.old name.now source.now shows) }
        ensures err { OnErr result (self.new ≡ self.old) }
    {
        let size = self.check_computed(viewers, name, source, &shows)?;
        self.push_computed(name, source, shows)?;
        Ok(size)
    }

    /// The number of rows of counts or of a filter over a source, where it may be put.
    fn check_computed<V: Viewer>(
        &self,
        viewers: &[V],
        name: &Name,
        source: &Name,
        shows: &Computation,
    ) -> Result<u64, Refusal>
        requires { has_keys shows.now ≡ true }
        ensures due { AnswersDue (computed_due (map V.meaning viewers.now) self.now name.now source.now shows.now) result }
        ensures size { IfOk result (λ size. size ≡ computed_size (map V.meaning viewers.now) self.now source.now shows.now) }
        ensures room { IfOk result (λ size. count_computed self.now.computed < max_watches) }
    {
        let base = match self.scope(viewers).source(self.alloc, source) {
            Ok(base) => base,
            Err(error) => return Err(of_question(error)),
        };
        match self.scope(viewers).shown(self.alloc, base, shows) {
            Ok(table) => self.check_shown(Ok(table.size() as u64), name, source, shows),
            Err(QuestionError::Memory) => Err(Refusal::Memory),
            Err(error) => self.check_shown(Err(error), name, source, shows),
        }
    }

    /// Answers the first refusal of counts or a filter over a source, which shows so many rows of it or is refused itself.
    fn check_shown(
        &self,
        shown: Result<u64, QuestionError>,
        name: &Name,
        source: &Name,
        shows: &Computation,
    ) -> Result<u64, Refusal>
        ensures due { result_err result ≡ computed_over_due shown self.now name.now source.now shows.now }
        ensures size { IfOk result (λ size. shown ≡ Ok size) }
        ensures room { IfOk result (λ size. count_computed self.now.computed < max_watches) }
    {
        if let Err(QuestionError::NoName) = shown {
            return Err(Refusal::NoName);
        }
        if self.is_taken(name) {
            return Err(Refusal::Exists);
        }
        check_shape(shown)?;
        if !self.may_stand(source, shows) {
            return Err(Refusal::Kind);
        }
        match shown {
            Ok(size) if !self.is_deep(source) && !self.is_full() => Ok(size),
            _ => Err(Refusal::Limit),
        }
    }

    /// Whether counts or a filter may stand over what has the name.
    fn may_stand(&self, source: &Name, shows: &Computation) -> bool
        ensures { result ≡ may_one_stand shows.now self.now.computed source.now }
    {
        match shows {
            Computation::Filter(_, _) => !self.computed.is_computed(source),
            Computation::Counts(_, _) => !self.computed.is_count(source),
        }
    }

    /// Whether a watch over what has the name would make a chain of five.
    fn is_deep(&self, source: &Name) -> bool
        ensures { result ≡ is_chain_deep self.now source.now }
    {
        match filter_of(self.computed.filters(), source) {
            Some(filter) => self.watches.depth(filter.source()) >= MAX_CHAIN - 1,
            None => self.watches.depth(source) >= MAX_CHAIN,
        }
    }

    /// Adds a computed watch.
    fn push_computed(
        &mut self,
        name: &Name,
        source: &Name,
        shows: Computation,
    ) -> Result<(), Refusal>
        requires keys { has_keys shows ≡ true }
        requires room { count_computed self.old.computed < max_watches }
        ensures memory { IfErr result (λ e. e ≡ Refusal.Memory) }
        ensures ok { OnOk result (self.new ≡ with_computation self.old name.now source.now shows) }
        ensures err { OnErr result (self.new ≡ self.old) }
    {
        let name = name.copy().map_err(of_memory)?;
        let source = source.copy().map_err(of_memory)?;
        let watch = Computed::new(name, source, shows);
        self.computed.put(watch).map_err(of_memory)
    }
}

/// Answers the refusal by the properties of what is shown.
fn check_shape(shown: Result<u64, QuestionError>) -> Result<(), Refusal>
    ensures { result_err result ≡ shape_refusal shown }
{
    match shown {
        Ok(_) | Err(QuestionError::NoName) | Err(QuestionError::Limit) => Ok(()),
        Err(error) => Err(of_question(error)),
    }
}

/// The filter of a name.
fn filter_of<'a>(filters: &'a [Computed], name: &Name) -> Option<&'a Computed>
    ensures { MatchOption result (find (λ (f : ComputedWatch). same_bytes f.name name.now) filters.now ≡ None) (λ f. find (λ (f : ComputedWatch). same_bytes f.name name.now) filters.now ≡ Some f.now) }
{
    let Some((first, rest)) = filters.split_first() else {
        return None;
    };
    if *first.name() == *name {
        return Some(first);
    }
    filter_of(rest, name)
}
