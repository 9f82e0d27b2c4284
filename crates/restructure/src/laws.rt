//! Laws of restructuring: what the definitions that the contracts cite say of every schema, row and value.
ghost use Rattle.std.specs.Prelude.{◌≡◌, List, map};
ghost use Rattle.mk_value.specs.Data.{Datum, IsOf};
ghost use Rattle.mk_value.specs.Heading.{Attribute, Domain, IsDomain, IsHeading, find};
ghost use Rattle.tables.specs.Rests.{RestsOn};
ghost use Rattle.tables.specs.Tables.{IsTable, StoredTable};
ghost use Rattle.restructure.specs.Restructuring.{restructured, restructured_row, restructured_value, value_under};

/// A law of rows: a row has for each property of the new schema, in order, what the old value of that name becomes.
pub fn by_name()
    ensures { (old new : List Attribute) (row : List Datum) → restructured_row old new row ≡ map (λ a. value_under old (find old a.name) a.domain row) new }
{}

/// A law of values: what is made of a value is of the new kind; a value of the same kind stays; and a number or a text that went
/// over to the wider kind comes back as it was.
pub fn there_and_back()
    ensures fits { (old new : Domain) (d : Datum) → IsOf d old → IsOf (restructured_value old new d) new }
    ensures same { (e : Domain) (d : Datum) → IsDomain e → IsOf d e → restructured_value e e d ≡ d }
    ensures number { (d : Datum) → IsOf d Domain.integer → restructured_value Domain.long Domain.integer (restructured_value Domain.integer Domain.long d) ≡ d }
    ensures text { (d : Datum) → IsOf d Domain.text → restructured_value Domain.bytes Domain.text (restructured_value Domain.text Domain.bytes d) ≡ d }
{}

/// A law of homes: under any whole schema a table rests on what it was, whatever homes its columns have. Each home that is left is
/// that of an old column of the same kind and values, and where the extents of the old homes do not meet, neither do these.
pub fn rests_on_what_it_was()
    ensures { (t : StoredTable) (new : List Attribute) → IsTable t → IsHeading new → RestsOn (restructured t new) t }
{}
