//! The order of whole rows: numbers by size, texts and byte strings byte by byte, views row by row; the first difference
//! decides, and a proper prefix is less. Two rows tie only where they are the same.
ghost use Rattle.std.specs.Prelude.{◌≡◌};
ghost use Rattle.mk_value.specs.Values.{datum_of};
ghost use Rattle.relations.specs.WholeOrder.{whole_cmp, whole_row_cmp, whole_rows_cmp};

use mk_value::{Row, Rows, Value, cmp_value};
use std::cmp::Ordering;

/// The order of two values. Values of two kinds compare by their kinds, in the order I, L, S, B, V. It takes no memory.
#[cycle(whole)]
pub fn cmp_whole_value(a: &Value, b: &Value) -> Ordering
    ensures { result ≡ whole_cmp (datum_of a.now) (datum_of b.now) }
{
    match (a, b) {
        (Value::V(ones), Value::V(twos)) => cmp_whole_rows(ones, twos),
        _ => cmp_value(a, b),
    }
}

/// The order of two rows: the first value that differs decides, and a proper prefix is less. It takes no memory.
#[cycle(whole)]
pub fn cmp_whole_row(a: &Row, b: &Row) -> Ordering
    ensures { result ≡ whole_row_cmp a.now b.now }
{
    let ones = a.as_slice();
    let twos = b.as_slice();
    for at in 0..ones.len().min(twos.len()) {
        let order = cmp_whole_value(&ones[at], &twos[at]);
        if order.is_ne() {
            return order;
        }
    }
    ones.len().cmp(&twos.len())
}

/// The order of two lists of rows: the first row that differs decides, and a proper prefix is less.
#[cycle(whole)]
fn cmp_whole_rows(a: &Rows, b: &Rows) -> Ordering
    ensures { result ≡ whole_rows_cmp a.now b.now }
{
    let ones = a.as_slice();
    let twos = b.as_slice();
    for at in 0..ones.len().min(twos.len()) {
        let order = cmp_whole_row(&ones[at], &twos[at]);
        if order.is_ne() {
            return order;
        }
    }
    ones.len().cmp(&twos.len())
}
