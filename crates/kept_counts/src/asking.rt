//! Whether a law keeps a row, by its values as they are lent. It takes no memory, so that what follows an edit cannot fail.
ghost use Rattle.std.specs.Prelude.{◌≡◌, ◌<◌, ◌+ℤ◌, [], FitsSigned, length, pos, slice_index_or, true, None};
ghost use Rattle.std.specs.Int.{w64};
ghost use Rattle.std.specs.Option.{ForSome};
ghost use Rattle.derived.specs.Refusals.{is_zero};
ghost use Rattle.live.specs.Watching.{comes_to, root_turn};
ghost use Rattle.live_counts.specs.Filtering.{FitsBy};
ghost use Rattle.mk_value.specs.Data.{cell};
ghost use Rattle.mk_value.specs.Tables.{number_in};
ghost use Rattle.relations.specs.Columns.{column_of};
ghost use Rattle.relations.specs.Refusals.{absent};
ghost use Rattle.relations.specs.Rows.{has};
ghost use Rattle.viewers.specs.Laws.{size_of};
ghost use Rattle.viewers.specs.declared.law.Law.TheVariants as laws;
ghost use Rattle.kept_counts.specs.Keeping.{is_kept_by};

use live::Turn;
use mk_value::{Lent, Name, TableRead};
use relations::lookup::column;
use row_edits::Event;
use viewers::Law;

/// Whether the row that an event brought or changed is kept. Where none comes it is of no meaning.
pub(crate) fn fits<T: TableRead>(rows: &T, law: Law, props: &[Name], event: &Event) -> bool
    requires present { absent (T.schema rows.now) props.now ≡ None }
    requires there { ForSome (comes_to (root_turn event.now)) (λ row. row < length (T.rows rows.now)) }
    ensures { FitsBy (is_kept_by (T.schema rows.now) law props.now) (comes_to (root_turn event.now)) result (T.rows rows.now) }
{
    match Turn::of_root(event).comes_to() {
        Some(row) => keeps(rows, law, props, row),
        None => false,
    }
}

/// Whether the law's answer on a row, by its values for these names, is not 0. It asks once.
fn keeps<T: TableRead>(rows: &T, law: Law, props: &[Name], row: usize) -> bool
    requires present { absent (T.schema rows.now) props.now ≡ None }
    requires row_in { row < length (T.rows rows.now) }
    ensures { result ≡ is_kept_by (T.schema rows.now) law props.now (slice_index_or (T.rows rows.now) row []) }
{
    match law {
        Law::Length => keeps_length(rows, props, row),
        Law::Twice => keeps_twice(rows, props, row),
        Law::Sum => keeps_sum(rows, props, row),
    }
}

/// Whether a text is not empty.
fn keeps_length<T: TableRead>(rows: &T, props: &[Name], row: usize) -> bool
    requires present { absent (T.schema rows.now) props.now ≡ None }
    requires row_in { row < length (T.rows rows.now) }
    ensures { result ≡ is_kept_by (T.schema rows.now) laws.Length props.now (slice_index_or (T.rows rows.now) row []) }
{
    if props.len() != 1 {
        return false;
    }
    size_at(rows, &props[0], row) != 0
}

/// Whether a number is not 0.
fn keeps_twice<T: TableRead>(rows: &T, props: &[Name], row: usize) -> bool
    requires present { absent (T.schema rows.now) props.now ≡ None }
    requires row_in { row < length (T.rows rows.now) }
    ensures { result ≡ is_kept_by (T.schema rows.now) laws.Twice props.now (slice_index_or (T.rows rows.now) row []) }
{
    if props.len() != 1 {
        return false;
    }
    number_at(rows, &props[0], row) != 0
}

/// Whether the sum of two numbers is not 0.
fn keeps_sum<T: TableRead>(rows: &T, props: &[Name], row: usize) -> bool
    requires present { absent (T.schema rows.now) props.now ≡ None }
    requires row_in { row < length (T.rows rows.now) }
    ensures { result ≡ is_kept_by (T.schema rows.now) laws.Sum props.now (slice_index_or (T.rows rows.now) row []) }
{
    if props.len() != 2 {
        return false;
    }
    let one = number_at(rows, &props[0], row);
    let two = number_at(rows, &props[1], row);
    !sum_is_zero(one, two)
}

/// Whether the sum of two numbers is 0. It may be none of kind L.
fn sum_is_zero(one: i64, two: i64) -> bool
    ensures { result ≡ is_zero (one +ℤ two) }
{
    match one.checked_add(two) {
        Some(sum) => sum == 0,
        None => false,
    }
}

/// The number of bytes of a text, and 0 of another value.
fn size_at<T: TableRead>(rows: &T, prop: &Name, row: usize) -> usize
    requires present { has (T.schema rows.now) prop.now ≡ true }
    requires row_in { row < length (T.rows rows.now) }
    ensures { pos result ≡ size_of (cell (T.rows rows.now) row (column_of (T.schema rows.now) prop.now)) }
{
    match rows.lend(row, column(rows.schema(), prop)) {
        Lent::S(text) => text.len(),
        _ => 0,
    }
}

/// The number that a value is, and 0 of another value.
fn number_at<T: TableRead>(rows: &T, prop: &Name, row: usize) -> i64
    requires present { has (T.schema rows.now) prop.now ≡ true }
    requires row_in { row < length (T.rows rows.now) }
    ensures value { result ≡ number_in (cell (T.rows rows.now) row (column_of (T.schema rows.now) prop.now)) }
    ensures fits { FitsSigned w64 result }
{
    rows.lend(row, column(rows.schema(), prop)).number()
}
