//! What counts come to: each key that rows have, ascending, and the number of its rows.
ghost use Rattle.std.specs.Prelude.{◌≡◌, ◌-◌, ◌<◌, [], ℕ, ℤ, Bool, List, None, count_by, false, length, map, slice_index, slice_index_or};
ghost use Rattle.std.specs.Ordering.{is_eq};
ghost use Rattle.std.specs.declared.cmp.Ordering.TheVariants.{Less};
ghost use Rattle.mk_value.specs.Data.{AreRowsOf, Datum};
ghost use Rattle.mk_value.specs.Heading.{Attribute, Domain};
ghost use Rattle.relations.specs.Sorting.{row_cmp};
ghost use Rattle.relations.specs.declared.criteria.Key.{Key};
ghost use Rattle.live.specs.declared.op.WatchOp.TheVariants as op;
ghost use Rattle.live_counts.specs.Counting.{AreCounts, counted_row, keys_in, run_end};
ghost use Rattle.live_counts.specs.Filtering.{own_turn};
ghost use Rattle.live_counts.specs.States.{CountsState};
ghost use Rattle.derived.specs.Grouping.{counts};
ghost use Rattle.derived.specs.Viewing.{keep, keep_due};
ghost use Rattle.live.specs.Laws.{IsAnswer};
ghost use Rattle.live.specs.Watching.{IsTurn};
ghost use Rattle.live.specs.declared.turn.Turn.{Turn};
ghost use Rattle.live.specs.declared.turn.Turn.TheVariants as turns;
ghost use Rattle.mk_value.specs.Tables.{Table};
ghost use Rattle.relations.specs.Columns.{column_of};
ghost use Rattle.relations.specs.Positions.{numbers, passing};
ghost use Rattle.relations.specs.Refusals.{a_view, absent};
ghost use Rattle.relations.specs.Rows.{once, rows_at};
ghost use Rattle.viewed.specs.Asking.{is_kept};

/// The first rows of the runs have keys that ascend, and a run is as long as rows have its key.
pub fn runs_count_rows()
    ensures rise { (schema : List Attribute) (keys : List Key) (rows : List (List Datum)) (counts : CountsState) (i k : ℕ) → AreCounts schema rows counts → counts.op ≡ op.Sort keys → i < k → k < length counts.starts
        → row_cmp schema keys (slice_index_or rows (slice_index counts.kept (slice_index counts.starts i)) []) (slice_index_or rows (slice_index counts.kept (slice_index counts.starts k)) []) ≡ Less }
    ensures count { (schema : List Attribute) (keys : List Key) (rows : List (List Datum)) (counts : CountsState) (i : ℕ) → AreCounts schema rows counts → counts.op ≡ op.Sort keys → i < length counts.starts
        → run_end counts i - slice_index counts.starts i ≡ count_by (λ row. is_eq (row_cmp schema keys row (slice_index_or rows (slice_index counts.kept (slice_index counts.starts i)) []))) rows }
{}

/// What happened to the rows of a filter is told of its rows, so that counts can stand over it; and a filter answers by whether the row
/// passed and passes.
pub fn filters_answer()
    ensures turn { (test : List Datum → Bool) (turn : Turn) (old new : List (List Datum)) → IsTurn turn old new
        → IsTurn (own_turn (passing test [] old) (passing test [] new) turn) (rows_at old (passing test [] old)) (rows_at new (passing test [] new)) }
    ensures comes { (test : List Datum → Bool) (q : ℕ) (old new : List (List Datum)) → IsTurn (turns.Comes q) old new
        → IsAnswer false (test (slice_index_or new q [])) (own_turn (passing test [] old) (passing test [] new) (turns.Comes q)) }
    ensures goes { (test : List Datum → Bool) (p : ℕ) (old new : List (List Datum)) → IsTurn (turns.Goes p) old new
        → IsAnswer (test (slice_index_or old p [])) false (own_turn (passing test [] old) (passing test [] new) (turns.Goes p)) }
    ensures changes { (test : List Datum → Bool) (p : ℕ) (old new : List (List Datum)) → IsTurn (turns.Changes p) old new
        → IsAnswer (test (slice_index_or old p [])) (test (slice_index_or new p [])) (own_turn (passing test [] old) (passing test [] new) (turns.Changes p)) }
{}

/// The rows of a filter are those that the operator `keep` keeps.
pub fn filters_keep()
    ensures { (viewer : List ℕ) (takes : List Domain) (gives : List Datum → ℤ) (args : List (List ℕ)) (t : Table) → keep_due viewer takes args t.schema ≡ None
        → rows_at t.rows (passing (is_kept gives (map (column_of t.schema) args)) [] t.rows) ≡ (keep gives args t).rows }
{}

/// The runs are the rows of the operator `counts` by the same keys.
pub fn counts_are_the_operator()
    ensures { (keys : List (List ℕ)) (count : List ℕ) (t : Table) (c : CountsState) → AreRowsOf t.rows t.schema → absent t.schema keys ≡ None → a_view t.schema keys ≡ None
        → AreCounts t.schema t.rows c → c.op ≡ op.Sort (keys_in t.schema (map (column_of t.schema) (once keys)))
        → map (counted_row t.schema (once keys) t.rows c) (numbers (length c.starts)) ≡ (counts keys count t).rows }
{}
