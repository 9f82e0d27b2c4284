//! Mappings: keeping the rows of views by key.
ghost use Rattle.std.specs.Prelude.{◌≡◌, OnErr, OnOk};
ghost use Rattle.keyed_views.specs.Mapped.{without_mapping};
ghost use Rattle.session.specs.Commands.{with_mapping};
ghost use Rattle.session.specs.Naming.{map_due, unmap_due};
ghost use Rattle.session.specs.Refusals.{AnswersDue};

use crate::Session;
use crate::refusals::of_mapping;
use cmd_text::Refusal;
use keyed_views::By;
use mk_value::Name;
use watches::view_of;

impl Session {
    /// Keeps the rows of a view by their first values, so many, as a key.
    ///
    /// # Errors
    ///
    /// The first that is due: `NoName` where there is no such view; `Kind` where one of these properties is a view; `Range` where there are none, or
    /// more than properties; `Limit` where it would be the 65th mapping; `Keys` by the rows; `InUse` where the view has a mapping. `Memory`.
    pub(crate) fn map(&mut self, by: By, name: &Name, keys: u64) -> Result<(), Refusal>
        ensures due { AnswersDue (map_due self.old by name.now keys) result }
        ensures ok { OnOk result (self.new ≡ with_mapping self.old by name.now keys) }
        ensures err { OnErr result (self.new ≡ self.old) }
    {
        let Some(table) = view_of(self.store.views(), name) else {
            return Err(Refusal::NoName);
        };
        self.mappings
            .put(name, by, keys as usize, table)
            .map_err(of_mapping)
    }

    /// Gives the mapping of a view up.
    ///
    /// # Errors
    ///
    /// `NoName` where there is none.
    pub(crate) fn unmap(&mut self, name: &Name) -> Result<(), Refusal>
        ensures due { AnswersDue (unmap_due self.old name.now) result }
        ensures ok { OnOk result (self.new ≡ record self.old { mappings = without_mapping self.old.mappings name.now }) }
        ensures err { OnErr result (self.new ≡ self.old) }
    {
        if !self.mappings.is_mapped(name) {
            return Err(Refusal::NoName);
        }
        self.mappings.take_out(name);
        Ok(())
    }
}
