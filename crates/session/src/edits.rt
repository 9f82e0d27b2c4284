//! Edits of the rows of views, but those that are kept by key.
ghost use Rattle.std.specs.Prelude.{◌≡◌, ◌+◌, ◌-◌, ◌≤◌, [], ◌∷◌, All, IfOk, None, OnErr, OnOk, true};
ghost use Rattle.std.specs.Result.{result_err};
ghost use Rattle.mk_value.specs.Conversions.{IsProper, becomes};
ghost use Rattle.mk_value.specs.Data.{IsOf};
ghost use Rattle.mk_value.specs.Heading.{find};
ghost use Rattle.mk_value.specs.Limits.{max_rows};
ghost use Rattle.mk_value.specs.LiteralValues.{literal_of};
ghost use Rattle.mk_value.specs.Values.{datum_of};
ghost use Rattle.view_store.specs.Fitting.{are_of};
ghost use Rattle.view_store.specs.Refusals.{due, schema_of};
ghost use Rattle.session.specs.Commands.{changed, events_at, inserted, removed};
ghost use Rattle.session.specs.Fitting.{all_short, is_short};
ghost use Rattle.session.specs.Keyed.{mapping_on};
ghost use Rattle.session.specs.Refusals.{AnswersDue, add_due, by_rows, by_schema, copies_refusal, first_of, insert_due, literal_refusal, literals_refusal, max_copies, place_refusal, remove_due, row_refusal, rows_refusal, set_due, unless};
ghost use Rattle.session.specs.Values.{domain_named, schema_named, size_named, values_for};
ghost use Rattle.session.specs.World.{with_line};

use crate::Session;
use crate::change::Change;
use crate::refusals::of_edit;
use crate::values::{check_literal, check_literals, make_row, make_value_of};
use cmd_text::Refusal;
use mk_value::{Literal, Literals, MAX_ROWS, Name, Path, Row, Value};

/// The most copies of a row that one `insert` puts in.
pub const MAX_COPIES: u64 = 65_536;

impl Session {
    /// Puts a row of literals behind the last of a view, and gives its place.
    pub(crate) fn add(&mut self, path: &Path, literals: &Literals) -> Result<u64, Refusal>
        requires proper { All IsProper literals.now }
        requires apart { mapping_on self.old path.now ≡ None }
        ensures due { AnswersDue (add_due self.old.store.views path.now literals.now) result }
        ensures place { IfOk result (λ place. place ≡ size_named self.old.store.views path.now) }
        ensures ok { OnOk result (self.new ≡ with_line self.old (inserted self.old.store.views path.now (size_named self.old.store.views path.now) 1 literals.now) path.now.name 1) }
        ensures err { OnErr result (self.new ≡ self.old) }
    {
        self.check_row_of(path, literals)?;
        let size = self.size_of(path)?;
        self.put(path, size, size, 1, literals)?;
        Ok(size)
    }

    /// Puts copies of a row of literals before a place of a view, and gives the new size.
    pub(crate) fn insert(
        &mut self,
        path: &Path,
        place: u64,
        copies: u64,
        literals: &Literals,
    ) -> Result<u64, Refusal>
        requires proper { All IsProper literals.now }
        requires apart { mapping_on self.old path.now ≡ None }
        ensures due { AnswersDue (insert_due self.old.store.views path.now place copies literals.now) result }
        ensures size { IfOk result (λ size. size ≡ size_named self.old.store.views path.now + copies) }
        ensures ok { OnOk result (self.new ≡ with_line self.old (inserted self.old.store.views path.now place copies literals.now) path.now.name (events_at path.now.steps copies)) }
        ensures err { OnErr result (self.new ≡ self.old) }
    {
        self.check_row_of(path, literals)?;
        let size = self.size_of(path)?;
        check_place(size, place)?;
        self.put(path, size, place, copies, literals)
    }

    /// Gives a property of a row of a view the value of a literal.
    pub(crate) fn set(
        &mut self,
        path: &Path,
        row: u64,
        prop: &Name,
        literal: &Literal,
    ) -> Result<(), Refusal>
        requires proper { IsProper (literal_of literal.now) }
        requires apart { mapping_on self.old path.now ≡ None }
        ensures due { AnswersDue (set_due self.old.store.views path.now row prop.now (literal_of literal.now)) result }
        ensures ok { OnOk result (self.new ≡ with_line self.old (changed self.old.store.views path.now row prop.now (literal_of literal.now)) path.now.name 1) }
        ensures err { OnErr result (self.new ≡ self.old) }
    {
        self.check_value_of(path, prop, literal)?;
        let size = self.size_of(path)?;
        check_row(size, row)?;
        let value = self.value_of(path, prop, literal)?;
        let change = Change::Set {
            at: row as usize,
            prop,
            value: &value,
        };
        self.change(path, change)
    }

    /// Removes so many rows of a view from a place on, and gives the new size.
    pub(crate) fn remove(&mut self, path: &Path, place: u64, rows: u64) -> Result<u64, Refusal>
        ensures due { AnswersDue (remove_due self.old.store.views path.now place rows) result }
        ensures size { IfOk result (λ size. size ≡ size_named self.old.store.views path.now - rows) }
        ensures ok { OnOk result (self.new ≡ with_line self.old (removed self.old.store.views path.now place rows) path.now.name (events_at path.now.steps rows)) }
        ensures err { OnErr result (self.new ≡ self.old) }
    {
        let size = self.size_of(path)?;
        let left = check_rows(size, place, rows)?;
        self.remove_rows(path, place as usize, rows as usize)?;
        Ok(left)
    }

    /// Puts copies of a row of literals before a place of a view that has so many rows, and gives the new size.
    fn put(
        &mut self,
        path: &Path,
        size: u64,
        place: u64,
        copies: u64,
        literals: &Literals,
    ) -> Result<u64, Refusal>
        requires proper { All IsProper literals.now }
        requires fit { by_schema (schema_of self.old.store.views path.now) (λ schema. literals_refusal literals.now schema) ≡ None }
        requires there { by_rows self.old.store.views path.now ≡ None }
        requires size { size ≡ size_named self.old.store.views path.now }
        requires place { place ≤ size }
        requires apart { mapping_on self.old path.now ≡ None }
        ensures due { AnswersDue (first_of (copies_refusal size copies ∷ unless (all_short literals.now) Refusal.Limit ∷ [])) result }
        ensures size { IfOk result (λ after. after ≡ size + copies) }
        ensures ok { OnOk result (self.new ≡ with_line self.old (inserted self.old.store.views path.now place copies literals.now) path.now.name (events_at path.now.steps copies)) }
        ensures err { OnErr result (self.new ≡ self.old) }
    {
        let after = check_copies(size, copies)?;
        let row = self.row_of(path, literals)?;
        let insert = Change::Insert {
            at: place as usize,
            row: &row,
            copies: copies as usize,
        };
        self.change(path, insert)?;
        Ok(after)
    }

    /// Answers the refusal of a row of literals that the names of the path and the schema of its view give alone.
    pub(crate) fn check_row_of(&self, path: &Path, literals: &Literals) -> Result<(), Refusal>
        ensures { result_err result ≡ by_schema (schema_of self.now.store.views path.now) (λ schema. literals_refusal literals.now schema) }
    {
        match self.store.views().schema(path) {
            Ok(schema) => check_literals(literals, schema),
            Err(error) => Err(of_edit(error)),
        }
    }

    /// Answers the refusal of a literal for a property that the names of the path and the schema of its view give alone.
    pub(crate) fn check_value_of(
        &self,
        path: &Path,
        prop: &Name,
        literal: &Literal,
    ) -> Result<(), Refusal>
        ensures { result_err result ≡ by_schema (schema_of self.now.store.views path.now) (λ schema. literal_refusal (literal_of literal.now) schema (find schema prop.now)) }
    {
        match self.store.views().schema(path) {
            Ok(schema) => check_literal(literal, schema, prop),
            Err(error) => Err(of_edit(error)),
        }
    }

    /// The row of literals that fit the view of a path.
    pub(crate) fn row_of(&self, path: &Path, literals: &Literals) -> Result<Row, Refusal>
        requires proper { All IsProper literals.now }
        requires fit { by_schema (schema_of self.now.store.views path.now) (λ schema. literals_refusal literals.now schema) ≡ None }
        ensures due { AnswersDue (unless (all_short literals.now) Refusal.Limit) result }
        ensures value { IfOk result (λ row. row ≡ values_for (schema_named self.now.store.views path.now) literals.now) }
        ensures whole { IfOk result (λ row. are_of row (schema_named self.now.store.views path.now) ≡ true) }
    {
        match self.store.views().schema(path) {
            Ok(schema) => make_row(self.alloc, literals, schema),
            Err(_) => unreachable!(),
        }
    }

    /// The value of a literal that fits a property of the view of a path.
    pub(crate) fn value_of(
        &self,
        path: &Path,
        prop: &Name,
        literal: &Literal,
    ) -> Result<Value, Refusal>
        requires proper { IsProper (literal_of literal.now) }
        requires fit { by_schema (schema_of self.now.store.views path.now) (λ schema. literal_refusal (literal_of literal.now) schema (find schema prop.now)) ≡ None }
        ensures due { AnswersDue (unless (is_short (literal_of literal.now)) Refusal.Limit) result }
        ensures value { IfOk result (λ value. datum_of value ≡ becomes (literal_of literal.now) (domain_named (schema_named self.now.store.views path.now) prop.now)) }
        ensures whole { IfOk result (λ value. IsOf (datum_of value) (domain_named (schema_named self.now.store.views path.now) prop.now)) }
    {
        match self.store.views().schema(path) {
            Ok(schema) => make_value_of(self.alloc, literal, schema, prop),
            Err(_) => unreachable!(),
        }
    }
}

/// Answers the refusal of a place before, or behind the last of, so many rows.
pub(crate) fn check_place(size: u64, place: u64) -> Result<(), Refusal>
    ensures { result_err result ≡ place_refusal size place }
{
    if place > size {
        return Err(Refusal::Range(size));
    }
    Ok(())
}

/// Answers the refusal of one of so many rows.
pub(crate) fn check_row(size: u64, row: u64) -> Result<(), Refusal>
    ensures { result_err result ≡ row_refusal size row }
{
    if row >= size {
        return Err(Refusal::Range(size));
    }
    Ok(())
}

/// The number of rows that are left of so many without those from a place on, or the refusal of these.
fn check_rows(size: u64, place: u64, rows: u64) -> Result<u64, Refusal>
    ensures due { result_err result ≡ rows_refusal size place rows }
    ensures left { IfOk result (λ left. left ≡ size - rows) }
{
    if place > size || rows > size - place {
        return Err(Refusal::Range(size));
    }
    Ok(size - rows)
}

/// The number of rows with so many copies more, or the refusal of these.
fn check_copies(size: u64, copies: u64) -> Result<u64, Refusal>
    ensures due { result_err result ≡ copies_refusal size copies }
    ensures after { IfOk result (λ after. after ≡ size + copies) }
    ensures few { OnOk result (copies ≤ max_copies) }
    ensures room { IfOk result (λ after. after ≤ max_rows) }
{
    if copies > MAX_COPIES || size > MAX_ROWS as u64 - copies {
        return Err(Refusal::Limit);
    }
    Ok(size + copies)
}
