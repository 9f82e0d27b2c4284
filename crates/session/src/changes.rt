//! The commands that put rows in and change them: by key where the rows of the view are kept by key, and else where they were asked to be.
ghost use Rattle.std.specs.Prelude.{List, All};
ghost use Rattle.cmd_text.specs.declared.command.Command.TheVariants as commands;
ghost use Rattle.mk_value.specs.Conversions.{IsProper};
ghost use Rattle.mk_value.specs.LiteralValues.{literal_of};
ghost use Rattle.viewers.specs.Meanings.{Meaning};
ghost use Rattle.session.specs.Answered.{Answered};

use crate::{Session, replies};
use cmd_text::Reply;
use mk_value::{Literal, Literals, Name, Path};

impl Session {
    /// Puts a row of literals into a view, and answers its place.
    pub(crate) fn answer_add(&mut self, path: &Path, literals: &Literals) -> Reply
        requires { All IsProper literals.now }
        ensures { (viewers : List Meaning) → Answered viewers (commands.Add path.now literals.now) self.old result self.new }
    {
        match self.mapping_on(path) {
            Some(keys) => replies::count(self.add_by_key(path, literals, keys)),
            None => replies::count(self.add(path, literals)),
        }
    }

    /// Puts copies of a row of literals into a view, and answers the new size.
    pub(crate) fn answer_insert(
        &mut self,
        path: &Path,
        place: u64,
        copies: u64,
        literals: &Literals,
    ) -> Reply
        requires { All IsProper literals.now }
        ensures { (viewers : List Meaning) → Answered viewers (commands.Insert path.now place copies literals.now) self.old result self.new }
    {
        match self.mapping_on(path) {
            Some(keys) => replies::count(self.insert_by_key(path, place, copies, literals, keys)),
            None => replies::count(self.insert(path, place, copies, literals)),
        }
    }

    /// Gives a property of a row of a view the value of a literal.
    pub(crate) fn answer_set(
        &mut self,
        path: &Path,
        row: u64,
        prop: &Name,
        literal: &Literal,
    ) -> Reply
        requires { IsProper (literal_of literal.now) }
        ensures { (viewers : List Meaning) → Answered viewers (commands.Set path.now row prop.now literal.now) self.old result self.new }
    {
        match self.mapping_on(path) {
            Some(keys) => replies::done(self.set_by_key(path, row, prop, literal, keys)),
            None => replies::done(self.set(path, row, prop, literal)),
        }
    }
}
