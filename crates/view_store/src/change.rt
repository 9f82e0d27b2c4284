use mk_value::{Name, Row, Value};

/// An edit of a list of rows.
#[derive(Clone, Copy)]
pub(crate) enum Change<'a> {
    /// Put copies of a row, so many times, before the row at a place. Values missing at its end are defaults.
    Insert(usize, &'a Row, usize),
    /// Give a property of a row another value.
    Set(usize, &'a Name, &'a Value),
    /// Remove so many rows from a place on.
    Remove(usize, usize),
}
