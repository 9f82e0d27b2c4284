//! A value that is put at the end of a column in two steps, the second of which takes no memory.
ghost use Rattle.std.specs.Prelude.{◌≡◌, ◌<◌, [], ◌∷◌, ◌++◌, length, None, IfOk, IfErr};
ghost use Rattle.int_col.specs.Numbers.{Push};

use crate::column::IntCol;
use crate::growing::Growing;
use mk_value::Span;
use std::marker::Model;

/// How the value is put there.
#[derive(Drop)]
pub(crate) enum Way {
    /// Into the last segment, which takes it, of a column that has this home without it.
    InPlace(Growing, Option<Span>),
    /// By a copy.
    Copied(Box<Copied>),
}

/// A column, and a copy of it with the value. It is boxed, so that a value that is put in place moves no room for it.
#[derive(Drop)]
pub(crate) struct Copied {
    before: IntCol,
    longer: IntCol,
}

/// A column and a value for which it has made itself ready: from here on nothing fails. A caller sees both.
#[derive(Drop)]
pub struct PreparedPush {
    way: Way,
    value: i64,
}

impl Model for PreparedPush {
    ghost use Rattle.int_col.specs.Numbers.{Push};
    ghost use Rattle.int_col.specs.Prepared.{column_before, IsPrepared};

    ghost Value = { Push };

    ghost view = { λ p. record { column = column_before p.way; value = p.value } };

    ghost invariant = { λ p. IsPrepared p.way p.value };
}

impl PreparedPush {
    /// A column, and a value that is to be put at its end. It is done in place where the last segment is the column's own, has room
    /// and takes the value at its width.
    ///
    /// # Errors
    ///
    /// The column as it was, for want of memory.
    #[inline(always)]
    pub(crate) fn of(column: IntCol, value: i64) -> Result<PreparedPush, IntCol>
        requires { length column.values < 16777216 }
        ensures ok { IfOk result (λ prepared. prepared ≡ record { column = column; value = value }) }
        ensures err { IfErr result (λ same. same ≡ column) }
    {
        match column.into_growing(value) {
            Ok((growing, home)) => Ok(PreparedPush {
                way: Way::InPlace(growing, home),
                value,
            }),
            Err(column) => PreparedPush::copied(column, value),
        }
    }

    /// The same by a copy.
    #[inline(never)]
    fn copied(column: IntCol, value: i64) -> Result<PreparedPush, IntCol>
        requires { length column.values < 16777216 }
        ensures ok { IfOk result (λ prepared. prepared ≡ record { column = column; value = value }) }
        ensures err { IfErr result (λ same. same ≡ column) }
    {
        let Ok(longer) = column.grown(value) else {
            return Err(column);
        };
        let alloc = column.allocator();
        let copied = Copied {
            before: column,
            longer,
        };
        match Box::new(alloc, copied) {
            Ok(copied) => Ok(PreparedPush {
                way: Way::Copied(copied),
                value,
            }),
            Err(failed) => Err(failed.value.before),
        }
    }

    /// The column with the value at its end, and without a home. It takes no memory.
    #[inline(always)]
    pub fn finish(self) -> IntCol
        ensures values { result.values ≡ self.column.values ++ self.value ∷ [] }
        ensures home { result.home ≡ None }
    {
        let PreparedPush { way, value } = self;
        match way {
            Way::InPlace(mut growing, _home) => {
                growing.push(value);
                IntCol::of_growing(growing, None)
            }
            Way::Copied(copied) => Box::into_inner(copied).longer,
        }
    }

    /// The column as it was. It takes no memory.
    pub fn cancel(self) -> IntCol
        ensures { result ≡ self.column }
    {
        let PreparedPush { way, value: _value } = self;
        match way {
            Way::InPlace(growing, home) => IntCol::of_growing(growing, home),
            Way::Copied(copied) => Box::into_inner(copied).before,
        }
    }
}
