//! Two tables of one schema as sets of rows: two rows are the same where all their values are, views row by row.
ghost use Rattle.std.specs.Prelude.{◌≡◌, ◌<◌, ◌≤◌, [], All, length, false, not, slice_index_or, true, None, IfErr, IfOk, OnOk};
ghost use Rattle.std.specs.List.{filter};
ghost use Rattle.std.specs.Result.{result_err};
ghost use Rattle.mk_value.specs.Limits.{max_rows};
ghost use Rattle.derived.specs.Layers.{table_of};
ghost use Rattle.relations.specs.Positions.{numbers, passing};
ghost use Rattle.derived.specs.Operators.{different, intersect, minus, union, unique, with_rows};
ghost use Rattle.relations.specs.Answers.{AnswersDue};
ghost use Rattle.relations.specs.Refusals.{other_schema};
ghost use Rattle.derived.specs.Refusals.{different_due, union_due};
ghost use Rattle.relations.specs.Answers.{AnswersCounted};
ghost use Rattle.joins.specs.Counted.{IsRefusedAt};
ghost use Rattle.relations.specs.Equality.{is_row_among};
ghost use Rattle.grouping.specs.Index.{first_positions};
ghost use Rattle.grouping.specs.WholeRows.{is_plain as has_plain_values};
ghost use Rattle.joins.specs.Sets.{is_kept, is_wanted};

use crate::placing::groups_near;
use derived::{Derived, concat, gather};
use grouping::{KeyIndex, RowIndex, is_plain, unique, whole_index};
use mk_value::{Memory, Positions, Row, Same, TableRead};
use relations::{Columns, DerivedError, all_columns, copy_row, copy_rows};
use std::alloc::Global;

/// How many times fewer rows are looked up one by one.
const SMALL: usize = 16;

/// The first's rows that the second has, in the first's order; equal rows of the first as often as they stand there.
///
/// # Errors
///
/// `OtherSchema` exactly where names or kinds differ. Else `Memory`.
pub fn intersect<T: TableRead + Same + Drop>(
    alloc: Global,
    a: Derived<T>,
    b: Derived<T>,
) -> Result<Derived<T>, DerivedError>
    ensures due { AnswersDue (other_schema (table_of a) (table_of b)) result }
    ensures ok { IfOk result (λ d. table_of d ≡ intersect (table_of a) (table_of b)) }
{
    keep(alloc, a, &b, true)
}

/// The first's rows that the second has not, in the first's order. A row of the second takes out each row that equals it.
///
/// # Errors
///
/// `OtherSchema` exactly where names or kinds differ. Else `Memory`.
pub fn minus<T: TableRead + Same + Drop>(
    alloc: Global,
    a: Derived<T>,
    b: Derived<T>,
) -> Result<Derived<T>, DerivedError>
    ensures due { AnswersDue (other_schema (table_of a) (table_of b)) result }
    ensures ok { IfOk result (λ d. table_of d ≡ minus (table_of a) (table_of b)) }
{
    keep(alloc, a, &b, false)
}

/// What the first has alone, then what the second has alone, each in its order.
///
/// # Errors
///
/// The first that is due: `OtherSchema` where names or kinds differ, `TooManyRows`. Else `Memory`, which may also come before the
/// rows are counted.
pub fn different<T: TableRead + Same + Drop>(
    alloc: Global,
    a: Derived<T>,
    b: Derived<T>,
) -> Result<Derived<T>, DerivedError>
    ensures due { AnswersCounted (different_due (table_of a) (table_of b)) result }
    ensures ok { IfOk result (λ d. table_of d ≡ different (table_of a) (table_of b)) }
{
    check_same(&a, &b)?;
    differing(alloc, a, b)
}

/// The rows of both, the first's and then the second's, each of equal rows where it stands first.
///
/// # Errors
///
/// The first that is due: `OtherSchema` where names or kinds differ, `TooManyRows`, for which each of equal rows counts once. Else
/// `Memory`, which may also come before the rows are counted.
pub fn union<T: TableRead + Same + Drop>(
    alloc: Global,
    a: Derived<T>,
    b: Derived<T>,
) -> Result<Derived<T>, DerivedError>
    ensures due { AnswersCounted (union_due (table_of a) (table_of b)) result }
    ensures ok { IfOk result (λ d. table_of d ≡ union (table_of a) (table_of b)) }
{
    check_same(&a, &b)?;
    united(alloc, a, b)
}

/// What each of two tables of one schema has alone.
fn differing<T: TableRead + Same + Drop>(
    alloc: Global,
    a: Derived<T>,
    b: Derived<T>,
) -> Result<Derived<T>, DerivedError>
    requires { other_schema (table_of a) (table_of b) ≡ None }
    ensures ok { IfOk result (λ d. table_of d ≡ different (table_of a) (table_of b)) }
    ensures few { OnOk result (length (different (table_of a) (table_of b)).rows ≤ max_rows) }
    ensures err { IfErr result (IsRefusedAt (length (different (table_of a) (table_of b)).rows)) }
{
    let of_second = kept_positions(alloc, &b, &a, false)?;
    let first = kept(alloc, a, &b, false)?;
    let second = gather(alloc, b, of_second)?;
    concat(alloc, first, second)
}

/// The rows of two tables of one schema, each of equal rows once.
fn united<T: TableRead + Same + Drop>(
    alloc: Global,
    a: Derived<T>,
    b: Derived<T>,
) -> Result<Derived<T>, DerivedError>
    requires { other_schema (table_of a) (table_of b) ≡ None }
    ensures ok { IfOk result (λ d. table_of d ≡ union (table_of a) (table_of b)) }
    ensures few { OnOk result (length (union (table_of a) (table_of b)).rows ≤ max_rows) }
    ensures err { IfErr result (IsRefusedAt (length (union (table_of a) (table_of b)).rows)) }
{
    if is_plain(a.schema()) && is_plain(b.schema()) {
        return united_plain(alloc, a, b);
    }
    let first = unique(alloc, a)?;
    let second = unique_besides(alloc, b, &first)?;
    concat(alloc, first, second)
}

/// The same where no value is a view. It sorts the rows of each table once, and copies none.
fn united_plain<T: TableRead + Same + Drop>(
    alloc: Global,
    a: Derived<T>,
    b: Derived<T>,
) -> Result<Derived<T>, DerivedError>
    requires due { other_schema (table_of a) (table_of b) ≡ None }
    requires first { has_plain_values a.schema ≡ true }
    requires second { has_plain_values b.schema ≡ true }
    ensures ok { IfOk result (λ d. table_of d ≡ union (table_of a) (table_of b)) }
    ensures few { OnOk result (length (union (table_of a) (table_of b)).rows ≤ max_rows) }
    ensures err { IfErr result (IsRefusedAt (length (union (table_of a) (table_of b)).rows)) }
{
    let parts = united_parts(alloc, &a, &b)?;
    let first = gather(alloc, a, parts.first)?;
    let second = gather(alloc, b, parts.second)?;
    concat(alloc, first, second)
}

/// Positions in each of two tables.
#[derive(Drop)]
struct Parts {
    first: Positions,
    second: Positions,
}

/// The positions of the rows that the union of two tables has of each.
fn united_parts<T: TableRead + Same + Drop>(
    alloc: Global,
    a: &Derived<T>,
    b: &Derived<T>,
) -> Result<Parts, Memory>
    requires first { has_plain_values a.now.schema ≡ true }
    requires second { has_plain_values b.now.schema ≡ true }
    ensures first { IfOk result (λ parts. parts.first ≡ first_positions a.now.rows) }
    ensures second { IfOk result (λ parts. parts.second ≡ filter (λ i. not (is_row_among a.now.rows (slice_index_or b.now.rows i []))) (first_positions b.now.rows)) }
    ensures few { (length a.now.rows ≤ max_rows) × (length b.now.rows ≤ max_rows) }
{
    let _sizes = (a.size(), b.size());
    let ones = whole_index(alloc, a)?;
    let twos = whole_index(alloc, b)?;
    let first = ones.firsts(alloc)?;
    let firsts = twos.firsts(alloc)?;
    let shared = twos.shared(alloc, &ones)?;
    let second = unmarked(alloc, &firsts, &shared)?;
    Ok(Parts { first, second })
}

/// Those of the positions at which no mark stands.
fn unmarked(alloc: Global, positions: &Positions, marks: &[bool]) -> Result<Positions, Memory>
    requires { All (λ i. i < length marks.now) positions.now }
    ensures { IfOk result (λ kept. kept ≡ filter (λ i. not (slice_index_or marks.now i false)) positions.now) }
{
    let mut kept = Positions::new(alloc);
    for position in positions.as_slice() {
        let mark = marks[*position as usize];
        if mark {
            continue;
        }
        kept.push(*position)?;
    }
    Ok(kept)
}

/// The rows of a table that another has not, each of equal rows once.
fn unique_besides<T: TableRead + Same + Drop>(
    alloc: Global,
    table: Derived<T>,
    other: &Derived<T>,
) -> Result<Derived<T>, DerivedError>
    ensures due { AnswersDue None result }
    ensures ok { IfOk result (λ d. table_of d ≡ minus (unique (table_of table)) (table_of other.now)) }
{
    let rows = unique(alloc, table)?;
    Ok(kept(alloc, rows, other, false)?)
}

/// Refuses two tables of different schemas.
fn check_same<T: TableRead + Same + Drop>(
    a: &Derived<T>,
    b: &Derived<T>,
) -> Result<(), DerivedError>
    ensures { result_err result ≡ other_schema (table_of a.now) (table_of b.now) }
{
    if !a.schema().is_same(b.schema()) {
        return Err(DerivedError::OtherSchema);
    }
    Ok(())
}

/// The first's rows that the second has, or those that it has not; refused where the schemas differ.
fn keep<T: TableRead + Same + Drop>(
    alloc: Global,
    a: Derived<T>,
    b: &Derived<T>,
    among: bool,
) -> Result<Derived<T>, DerivedError>
    ensures due { AnswersDue (other_schema (table_of a) (table_of b.now)) result }
    ensures ok { IfOk result (λ d. table_of d ≡ with_rows (table_of a) (filter (is_kept among b.now.rows) a.rows)) }
{
    check_same(&a, b)?;
    Ok(kept(alloc, a, b, among)?)
}

/// The first's rows that the second has, or those that it has not.
fn kept<T: TableRead + Same + Drop>(
    alloc: Global,
    a: Derived<T>,
    b: &Derived<T>,
    among: bool,
) -> Result<Derived<T>, Memory>
    ensures { IfOk result (λ d. table_of d ≡ with_rows (table_of a) (filter (is_kept among b.now.rows) a.rows)) }
{
    let positions = kept_positions(alloc, &a, b, among)?;
    gather(alloc, a, positions)
}

/// The positions of the first's rows that the second has, or of those that it has not.
fn kept_positions<T: TableRead + Same + Drop>(
    alloc: Global,
    a: &Derived<T>,
    b: &Derived<T>,
    among: bool,
) -> Result<Positions, Memory>
    ensures kept { IfOk result (λ positions. positions ≡ passing (is_kept among b.now.rows) [] a.now.rows) }
    ensures few { IfOk result (λ positions. length positions ≤ max_rows) }
{
    if is_plain(a.schema()) && is_plain(b.schema()) {
        return kept_of_plain(alloc, a, b, among);
    }
    let rows = copy_rows(alloc, b)?;
    let index = RowIndex::new(alloc, rows)?;
    positions_by(alloc, a, &index, among)
}

/// The same where no value is a view. It copies no row.
fn kept_of_plain<T: TableRead + Same + Drop>(
    alloc: Global,
    a: &Derived<T>,
    b: &Derived<T>,
    among: bool,
) -> Result<Positions, Memory>
    requires first { has_plain_values a.now.schema ≡ true }
    requires second { has_plain_values b.now.schema ≡ true }
    ensures kept { IfOk result (λ positions. positions ≡ passing (is_kept among b.now.rows) [] a.now.rows) }
    ensures few { IfOk result (λ positions. length positions ≤ max_rows) }
{
    let index = whole_index(alloc, b)?;
    if is_small(a.size(), b.size()) || is_small(b.size(), a.size()) {
        return kept_one_by_one(alloc, a, &index, among);
    }
    kept_in_order(alloc, a, &index, among)
}

/// Whether a number of rows is small beside another, so that looking them up one by one is faster than sorting the others.
fn is_small(rows: usize, others: usize) -> bool {
    rows < others / SMALL
}

/// The positions of the rows that an index of whole rows has, or of those that it has not: each row is looked up.
fn kept_one_by_one<'x, T: TableRead + Same + Drop>(
    alloc: Global,
    a: &Derived<T>,
    index: &'x KeyIndex<'x, Derived<T>>,
    among: bool,
) -> Result<Positions, Memory>
    ensures kept { IfOk result (λ positions. positions ≡ passing (is_kept among index.now) [] a.now.rows) }
    ensures few { IfOk result (λ positions. length positions ≤ max_rows) }
{
    let columns = all_columns(alloc, a.schema().len())?;
    let mut near = groups_near(alloc, a.size())?;
    positions_in(alloc, a, &columns, index, &mut near, among)
}

/// The same positions, for which the rows are sorted too, and then gone along together with those of the index.
fn kept_in_order<'x, T: TableRead + Same + Drop>(
    alloc: Global,
    a: &Derived<T>,
    index: &'x KeyIndex<'x, Derived<T>>,
    among: bool,
) -> Result<Positions, Memory>
    requires { has_plain_values a.now.schema ≡ true }
    ensures kept { IfOk result (λ positions. positions ≡ passing (is_kept among index.now) [] a.now.rows) }
    ensures few { IfOk result (λ positions. length positions ≤ max_rows) }
{
    let _size = a.size();
    let own = whole_index(alloc, a)?;
    let shared = own.shared(alloc, index)?;
    wanted(alloc, &shared, among)
}

/// The places of the marks, or of those that are none.
fn wanted(alloc: Global, marks: &[bool], among: bool) -> Result<Positions, Memory>
    requires { length marks.now ≤ max_rows }
    ensures kept { IfOk result (λ positions. positions ≡ passing (is_wanted among) false marks.now) }
    ensures few { IfOk result (λ positions. length positions ≤ max_rows) }
{
    let mut positions = Positions::new(alloc);
    for at in 0..marks.len() {
        let mark = marks[at];
        if mark != among {
            continue;
        }
        positions.push(at as u32)?;
    }
    Ok(positions)
}

/// The positions of the rows that an index of whole rows has, or of those that it has not. In `near` it remembers groups.
fn positions_in<'x, T: TableRead + Same + Drop>(
    alloc: Global,
    table: &Derived<T>,
    columns: &Columns,
    index: &'x KeyIndex<'x, Derived<T>>,
    near: &mut [usize],
    among: bool,
) -> Result<Positions, Memory>
    requires some { 0 < length near.old }
    requires all { columns.now ≡ numbers (length table.now.schema) }
    ensures kept { IfOk result (λ positions. positions ≡ passing (is_kept among index.now) [] table.now.rows) }
    ensures few { IfOk result (λ positions. length positions ≤ max_rows) }
{
    let mut positions = Positions::new(alloc);
    for at in 0..table.size() {
        if index.has_partner(near, table, at, columns) != among {
            continue;
        }
        positions.push(at as u32)?;
    }
    Ok(positions)
}

/// The positions of the rows that an index has, or of those that it has not.
fn positions_by<T: TableRead + Same + Drop>(
    alloc: Global,
    table: &Derived<T>,
    index: &RowIndex,
    among: bool,
) -> Result<Positions, Memory>
    ensures kept { IfOk result (λ positions. positions ≡ passing (is_kept among index.now) [] table.now.rows) }
    ensures few { IfOk result (λ positions. length positions ≤ max_rows) }
{
    let mut positions = Positions::new(alloc);
    for at in 0..table.size() {
        let row = copy_row(alloc, table, at)?;
        if !is_row_kept(index, &row, among) {
            continue;
        }
        positions.push(at as u32)?;
    }
    Ok(positions)
}

/// Whether a row is kept: where the index has it, or where the index has it not.
fn is_row_kept(index: &RowIndex, row: &Row, among: bool) -> bool
    ensures { result ≡ is_kept among index.now row.now }
{
    if among {
        index.has(row)
    } else {
        !index.has(row)
    }
}
