//! Reading all that a table has, or all of a column.
ghost use Rattle.std.specs.Prelude.{◌<◌, length};

use mk_value::{Lent, Memory, TableRead, Value};

/// Reads each value of the table where it lies, and adds them up: a number counts itself, a text or byte string its length, and a view,
/// which is copied out, its rows.
pub fn total<T: TableRead>(table: &T) -> Result<u64, Memory> {
    let mut sum = 0u64;
    for row in 0..table.size() {
        sum = sum.wrapping_add(row_total(table, row)?);
    }
    Ok(sum)
}

/// What the values of a row add up to.
fn row_total<T: TableRead>(table: &T, row: usize) -> Result<u64, Memory>
    requires { row < length (T.rows table.now) }
{
    let mut sum = 0u64;
    for col in 0..table.schema().len() {
        sum = sum.wrapping_add(weight(table, row, col)?);
    }
    Ok(sum)
}

/// Reads each value of a column in order, and adds them up. Where there is no such column there are no values.
pub fn column_total<T: TableRead>(table: &T, col: usize) -> Result<u64, Memory> {
    let mut sum = 0u64;
    if col >= table.schema().len() {
        return Ok(sum);
    }
    for row in 0..table.size() {
        sum = sum.wrapping_add(weight(table, row, col)?);
    }
    Ok(sum)
}

/// What a value counts.
fn weight<T: TableRead>(table: &T, row: usize, col: usize) -> Result<u64, Memory>
    requires row_in { row < length (T.rows table.now) }
    requires col_in { col < length (T.schema table.now) }
{
    Ok(match table.lend(row, col) {
        Lent::I(number) => i64::from(number).cast_unsigned(),
        Lent::L(number) => number.cast_unsigned(),
        Lent::S(bytes) => bytes.len() as u64,
        Lent::B(bytes) => bytes.len() as u64,
        Lent::V(_) => count_rows(&table.get(row, col)?),
    })
}

/// The number of rows of a view.
fn count_rows(value: &Value) -> u64 {
    match value {
        Value::V(rows) => rows.len() as u64,
        _ => 0,
    }
}
