//! What is kept of a view by its rows, and counts of the same rows in another order.
ghost use Rattle.std.specs.Prelude.{◌≡◌, ℕ, List, None, Some};
ghost use Rattle.std.specs.List.Sorted.{IsPermutation};
ghost use Rattle.derived.specs.Grouping.{counts};
ghost use Rattle.mk_value.specs.Data.{AreRowsOf, Datum};
ghost use Rattle.mk_value.specs.Heading.{Attribute};
ghost use Rattle.relations.specs.Refusals.{a_view};
ghost use Rattle.tables.specs.Tables.{StoredTable};
ghost use Rattle.view_store.specs.Views.{NamedTable, table_of};
ghost use Rattle.kept_counts.specs.Keeping.{AreCounted, AreCountedOver, Counted};

/// What is kept of a view is right over its rows.
pub fn counted_over_view()
    ensures { (views : List NamedTable) (all : List Counted) (view : List ℕ) (t : StoredTable) → AreCounted views all → table_of views view ≡ Some t → AreCountedOver view t.schema t.rows all }
{}

/// Counts of rows are those of the same rows in any other order, so that counts over a sorting are those of what it sorts.
pub fn counts_in_any_order()
    ensures { (keys : List (List ℕ)) (count : List ℕ) (schema : List Attribute) (rows other : List (List Datum)) → AreRowsOf rows schema → a_view schema keys ≡ None → IsPermutation rows other
        → counts keys count (record { schema = schema; rows = other }) ≡ counts keys count (record { schema = schema; rows = rows }) }
{}
