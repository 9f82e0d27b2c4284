//! Laws of edits and of their events.
ghost use Rattle.std.specs.Prelude.{◌≡◌, ◌+◌, ◌<◌, ◌≤◌, ◌++◌, ◌∷◌, [], ℕ, List, true, length, map, take};
ghost use Rattle.mk_value.specs.Data.{Datum};
ghost use Rattle.row_edits.specs.Edits.{AreInRange, IsInRange, bring, edited, edited_by};
ghost use Rattle.row_edits.specs.Events.{begun, count_all, count_of, event_of, events_by, happened, rows_after};
ghost use Rattle.row_edits.specs.Lines.{IsLine, row_at};
ghost use Rattle.row_edits.specs.declared.edit.RowEdit.{RowEdit};

/// Each event of an edit leads from the rows once the events before it have happened to the rows once it has happened too; with none of
/// them the rows are as before, and with all of them the edit is whole.
pub fn events_happen()
    ensures next { (e : RowEdit) (k : ℕ) (row : List Datum) (rows : List (List Datum)) → IsInRange e (length rows) → k < count_of e
        → edited row (begun (k + 1) e) rows ≡ happened row (event_of e k) (edited row (begun k e) rows) }
    ensures none { (e : RowEdit) (row : List Datum) (rows : List (List Datum)) → edited row (begun 0 e) rows ≡ rows }
    ensures all { (e : RowEdit) → begun (count_of e) e ≡ e }
    ensures some { (e : RowEdit) (k size : ℕ) → IsInRange e size → k ≤ count_of e → IsInRange (begun k e) size }
{}

/// The rows after edits are those after their events, one by one; and where whole edits and a part of the next have happened, these are
/// the first events of all.
pub fn edits_are_events()
    ensures rows { (edits : List RowEdit) (row : List Datum) (rows : List (List Datum)) → AreInRange edits (length rows)
        → rows_after row (events_by edits) rows ≡ edited_by row edits rows }
    ensures first { (whole rest : List RowEdit) (e : RowEdit) (k : ℕ) → k ≤ count_of e
        → events_by (whole ++ begun k e ∷ []) ≡ take (count_all whole + k) (events_by (whole ++ e ∷ rest)) }
    ensures count { (edits : List RowEdit) → length (events_by edits) ≡ count_all edits }
{}

/// Edits whose row stands at a place after them are a line, with that place as its home.
pub fn lines_are_edits()
    ensures { (edits : List RowEdit) (home : ℕ) (row : List Datum) (before after : List (List Datum)) → AreInRange edits (length before)
        → after ≡ edited_by row edits before → (bring edits ≡ true → (home < length after) × (row_at after home ≡ row))
        → IsLine edits home before after }
{}
