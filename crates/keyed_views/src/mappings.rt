//! All mappings, by the names of their views.
ghost use Rattle.std.specs.Prelude.{◌≡◌, ◌≤◌, ◌<◌, ◌+◌, ◌++◌, ◌∷◌, [], ℕ, List, length, take, true, None, Some, Err, IfErr, IfOk, IsSome, MatchOption, OnErr, OnOk};
ghost use Rattle.keyed_views.specs.Keyed.{edits_of};
ghost use Rattle.keyed_views.specs.declared.keyed.KeyedEdit.TheVariants.{Remove};
ghost use Rattle.mapped.specs.Refusals.{count_due};
ghost use Rattle.mk_value.specs.Data.{Datum, IsRowOf};
ghost use Rattle.mk_value.specs.Heading.{find as find_property};
ghost use Rattle.mk_value.specs.Limits.{max_rows};
ghost use Rattle.mk_value.specs.Values.{datum_of};
ghost use Rattle.row_edits.specs.Edits.{size_by};
ghost use Rattle.view_store.specs.Views.{NamedTable, table_of};
ghost use Rattle.keyed_views.specs.Keeping.{AllBring, AreKept, AreKeptOver, AreReady, EditsRows, mapped};
ghost use Rattle.keyed_views.specs.Mapped.{is_mapped as is_view_mapped, mapping_of, order_in, put_edit, row_with, set_edit, without_mapping};
ghost use Rattle.keyed_views.specs.Refusals.{AnswersPut, put_due, schema_due};
ghost use Rattle.keyed_views.specs.declared.error.MappingError.{MappingError as MappingErrorValue};
ghost use Rattle.relations.specs.Fitting.{is_view as is_view_domain};
ghost use Rattle.std.specs.List.{list_any};
ghost use Rattle.std.specs.Result.{result_err};

use crate::by::By;
use crate::coming::Coming;
use crate::error::MappingError;
use crate::kept::Kept;
use crate::list::{at, find, is_mapped, push};
use crate::mapping::Mapping;
use mk_value::{Memory, Name, Row, Schema, TableRead, Value};
use relations::lookup::is_view;
use std::alloc::Global;
use std::marker::Model;
use tables::Shared;

/// The most mappings.
pub const MAX_MAPPINGS: usize = 64;

/// The views that are kept by key, by their names, and what is kept of each.
#[derive(Drop)]
pub struct Mappings {
    list: Vec<Kept>,
}

impl Model for Mappings {
    ghost use Rattle.std.specs.Prelude.{List};
    ghost use Rattle.keyed_views.specs.declared.kept.Kept.{Kept};

    ghost Value = { List Kept };

    ghost use Rattle.std.specs.Coded.{codes};
    ghost use Rattle.mapped.specs.Index.{index_code};

    ghost coded = { Prim.hlevel (codes, index_code) };

    ghost use Rattle.keyed_views.specs.Keeping.{AreWhole};

    ghost view = { λ m. m.list.items };

    ghost invariant = { λ m. AreWhole m.list.items };
}

/// By what a view is kept, and how many first values of a row are its key.
#[derive(Clone, Copy, Debug)]
pub struct ByKeys {
    pub by: By,
    pub keys: usize,
}

impl Mappings {
    /// No mappings.
    pub fn new(alloc: Global) -> Mappings
        ensures { result ≡ [] }
    {
        Mappings {
            list: Vec::new(alloc),
        }
    }

    /// Gives all mappings up.
    pub fn clear(&mut self)
        ensures { self.new ≡ [] }
    {
        self.list.clear();
    }

    /// How many mappings there are.
    pub fn count(&self) -> usize
        ensures { result ≡ length (mapped self.now) }
    {
        self.list.len()
    }

    /// Whether the view of the name is mapped.
    pub fn is_mapped(&self, view: &Name) -> bool
        ensures { result ≡ is_view_mapped (mapped self.now) view.now }
    {
        is_mapped(&self.list, view)
    }

    /// The mapping of the view of the name.
    pub fn get(&self, view: &Name) -> Option<ByKeys>
        ensures { MatchOption result (mapping_of (mapped self.now) view.now ≡ None) (λ m. mapping_of (mapped self.now) view.now ≡ Some (record { view = view.now; by = m.by; keys = m.keys })) }
    {
        match find(&self.list, view) {
            Some(at) => {
                let kept = &self.list[at];
                Some(ByKeys {
                    by: kept.mapping.by(),
                    keys: kept.keys,
                })
            }
            None => None,
        }
    }

    /// Of how many values the key is in whose order the rows of the view stand, where they are kept in order.
    pub fn order(&self, view: &Name) -> Option<usize>
        ensures { result ≡ order_in (mapping_of (mapped self.now) view.now) }
    {
        match self.get(view) {
            Some(
                ByKeys {
                    by: By::Order,
                    keys,
                },
            ) => Some(keys),
            _ => None,
        }
    }

    /// Maps the view of a name, which has this table, by the first values of its rows, so many.
    ///
    /// # Errors
    ///
    /// The first that is due: `Kind` where one of these properties is a view; `Range` where there are none, or more than properties; `Limit`
    /// where it would be the 65th mapping; `Keys` by the rows; `InUse` where the view is mapped. Only an index takes memory to look at the rows, so
    /// by one `Memory` may come in place of the last two. `Memory` may also come where none is due.
    pub fn put(
        &mut self,
        view: &Name,
        by: By,
        keys: usize,
        table: &Shared,
    ) -> Result<(), MappingError>
        ensures due { AnswersPut by (put_due by keys table.now.schema table.now.rows (mapped self.old) view.now) result }
        // By the schema it is refused without memory.
        ensures unfit { (e : MappingErrorValue) → schema_due keys table.now.schema ≡ Some e → result ≡ Err e }
        ensures ok { OnOk result (mapped self.new ≡ mapped self.old ++ record { view = view.now; by = by; keys = keys } ∷ []) }
        ensures kept { (views : List NamedTable) → table_of views view.now ≡ Some table.now → AreKept views self.old → AreKept views self.new }
        ensures err { OnErr result (self.new ≡ self.old) }
    {
        check_schema(table.schema(), keys)?;
        if self.list.len() >= MAX_MAPPINGS {
            return Err(MappingError::Limit);
        }
        let alloc = *self.list.allocator();
        let mapping = Mapping::make(alloc, by, keys, table)?;
        if self.is_mapped(view) {
            return Err(MappingError::InUse);
        }
        let view = view.copy()?;
        let kept = Kept {
            view,
            keys,
            mapping,
        };
        push(&mut self.list, kept)?;
        Ok(())
    }

    /// Gives up the mapping of the view of a name.
    pub fn take_out(&mut self, view: &Name)
        requires { is_view_mapped (mapped self.old) view.now ≡ true }
        ensures rest { mapped self.new ≡ without_mapping (mapped self.old) view.now }
        ensures kept { (views : List NamedTable) → AreKept views self.old → AreKept views self.new }
    {
        let at = at(&self.list, view);
        drop(self.list.remove(at));
    }

    /// How a row is put into a mapped view, with the place before which it would be put. It takes all memory that it needs to follow it.
    ///
    /// # Errors
    ///
    /// `Memory`.
    pub fn put_edit(
        &mut self,
        view: &Name,
        table: &Shared,
        row: &Row,
        place: usize,
    ) -> Result<Coming, Memory>
        requires mapped { is_view_mapped (mapped self.old) view.now ≡ true }
        requires kept { AreKeptOver view.now table.now.schema table.now.rows self.old }
        requires row { IsRowOf row.now table.now.schema }
        requires place { place ≤ length table.now.rows }
        ensures edit { (by : _) (keys : ℕ) → mapping_of (mapped self.old) view.now ≡ Some (record { view = view.now; by = by; keys = keys })
            → IfOk result (λ c. c.edit ≡ put_edit by keys row.now place table.now.rows) }
        ensures ready { IfOk result (λ c. size_by (edits_of c.edit) (length table.now.rows) ≤ max_rows → AreReady view.now c self.new) }
        ensures brings { IfOk result (λ c. AllBring view.now table.now.rows row.now c self.new) }
        ensures same { mapped self.new ≡ mapped self.old }
        ensures kept { (views : List NamedTable) → AreKept views self.old → AreKept views self.new }
    {
        let alloc = *self.list.allocator();
        let at = at(&self.list, view);
        self.list[at].put(alloc, table, row, place)
    }

    /// How the row at a place of a mapped view becomes one with another value of a property. It takes all memory that it needs to follow it.
    ///
    /// # Errors
    ///
    /// `Memory`.
    pub fn set_edit(
        &mut self,
        view: &Name,
        table: &Shared,
        place: usize,
        prop: &Name,
        value: &Value,
    ) -> Result<Coming, Memory>
        requires mapped { is_view_mapped (mapped self.old) view.now ≡ true }
        requires kept { AreKeptOver view.now table.now.schema table.now.rows self.old }
        requires named { IsSome (find_property table.now.schema prop.now) }
        requires row { IsRowOf (row_with table.now.schema table.now.rows place prop.now (datum_of value.now)) table.now.schema }
        requires there { place < length table.now.rows }
        ensures edit { (by : _) (keys : ℕ) → mapping_of (mapped self.old) view.now ≡ Some (record { view = view.now; by = by; keys = keys })
            → IfOk result (λ c. c.edit ≡ set_edit by keys (row_with table.now.schema table.now.rows place prop.now (datum_of value.now)) place table.now.rows) }
        ensures ready { IfOk result (λ c. AreReady view.now c self.new) }
        ensures brings { IfOk result (λ c. AllBring view.now table.now.rows (row_with table.now.schema table.now.rows place prop.now (datum_of value.now)) c self.new) }
        ensures same { mapped self.new ≡ mapped self.old }
        ensures kept { (views : List NamedTable) → AreKept views self.old → AreKept views self.new }
    {
        let alloc = *self.list.allocator();
        let at = at(&self.list, view);
        self.list[at].set(alloc, table, place, prop, value)
    }

    /// How rows of a mapped view go, from a place on. It takes no memory, nor does it take any to follow it.
    pub fn remove_edit(&self, view: &Name, table: &Shared, place: usize, count: usize) -> Coming
        requires mapped { is_view_mapped (mapped self.now) view.now ≡ true }
        requires kept { AreKeptOver view.now table.now.schema table.now.rows self.now }
        requires there { place + count ≤ length table.now.rows }
        ensures edit { result.edit ≡ Remove place count }
        ensures ready { AreReady view.now result self.now }
        ensures brings { AllBring view.now table.now.rows [] result self.now }
    {
        let alloc = *self.list.allocator();
        let at = at(&self.list, view);
        self.list[at].remove(alloc, table, place, count)
    }

    /// The mapping of a view follows what comes to it. It takes no memory.
    pub fn follow(&mut self, view: &Name, coming: Coming)
        requires mapped { is_view_mapped (mapped self.old) view.now ≡ true }
        requires ready { AreReady view.now coming self.old }
        ensures same { mapped self.new ≡ mapped self.old }
        ensures kept { (old new : List NamedTable) (rows : List (List Datum)) (row : List Datum) → AreKept old self.old → AllBring view.now rows row coming self.old
            → EditsRows view.now row (edits_of coming.edit) rows old new → AreKept new self.new }
    {
        let at = at(&self.list, view);
        self.list[at].mapping.follow(coming);
    }
}

/// Answers the refusal of keys, so many, that the schema gives alone.
fn check_schema(schema: &Schema, keys: usize) -> Result<(), MappingError>
    ensures { result_err result ≡ schema_due keys schema.now }
{
    if has_view(schema, keys.min(schema.len())) {
        return Err(MappingError::Kind);
    }
    if keys == 0 || keys > schema.len() {
        return Err(MappingError::Range(schema.len() as u64));
    }
    Ok(())
}

/// Whether one of the first properties, so many, is a view.
fn has_view(schema: &Schema, count: usize) -> bool
    requires { count ≤ length schema.now }
    ensures { result ≡ list_any (λ a. is_view_domain a.domain) (take count schema.now) }
{
    for at in 0..count {
        let prop = &schema.as_slice()[at];
        if is_view(&prop.kind) {
            return true;
        }
    }
    false
}
