//! A value that is put at the end of a column in two steps, the second of which takes no memory.
ghost use Rattle.std.specs.Prelude.{◌≡◌, ◌<◌, [], ◌∷◌, ◌++◌, length, None, IfOk, IfErr};
ghost use Rattle.segments.specs.Joined.{joined};
ghost use Rattle.bytes_col.specs.Spine.{HasSizes, LastTakes, strings_of};
ghost use Rattle.bytes_col.specs.Strings.{Push};

use crate::column::{BytesCol, GrowingColumn};
use crate::growing::Growing;
use crate::home::KeptHome;
use int_col::IntCol;
use std::marker::Model;

/// A column, and a copy that has one more value.
#[derive(Drop)]
pub(crate) struct Copied {
    pub(crate) before: BytesCol,
    pub(crate) longer: BytesCol,
}

/// How the value is put there.
#[derive(Drop)]
pub(crate) enum Way {
    /// It stands in the last chunk, its size is ready, and the column has this home without it.
    InPlace(Growing, int_col::PreparedPush, KeptHome),
    /// By a copy. Both columns are in memory of their own, so that a push in place does not move room for them.
    Copied(Box<Copied>),
}

/// A column that is ready for one more value: from here on nothing fails. A caller sees the column and the values that it is to have.
#[derive(Drop)]
pub struct PreparedPush {
    way: Way,
}

impl Model for PreparedPush {
    ghost use Rattle.bytes_col.specs.Strings.{Push};
    ghost use Rattle.bytes_col.specs.Prepared.{column_before, values_after, IsPrepared};

    ghost Value = { Push };

    ghost view = { λ p. record { column = column_before p.way; values = values_after p.way } };

    ghost invariant = { λ p. IsPrepared p.way };
}

impl PreparedPush {
    /// A column that is to have one more value. It is put in place where the last chunk is the column's own and has room.
    ///
    /// # Errors
    ///
    /// The column as it was, for want of memory.
    #[inline(always)]
    pub(crate) fn of(column: BytesCol, value: &[u8]) -> Result<PreparedPush, BytesCol>
        requires { length column.values < 16777216 }
        ensures ok { IfOk result (λ prepared. prepared ≡ record { column = column; values = column.values ++ value.now ∷ [] }) }
        ensures err { IfErr result (λ same. same ≡ column) }
    {
        match column.into_parts() {
            Ok(parts) => PreparedPush::in_place(parts, value),
            Err(column) => PreparedPush::copied(column, value),
        }
    }

    /// The same in place.
    #[inline(always)]
    fn in_place(parts: GrowingColumn, value: &[u8]) -> Result<PreparedPush, BytesCol>
        requires takes { LastTakes parts.growing }
        requires sizes { HasSizes (joined parts.growing) parts.sizes }
        requires few { length (joined parts.growing) < 16777216 }
        ensures ok { IfOk result (λ prepared. prepared ≡ record { column = strings_of parts.growing parts.home; values = joined parts.growing ++ value.now ∷ [] }) }
        ensures err { IfErr result (λ same. same ≡ strings_of parts.growing parts.home) }
    {
        let GrowingColumn {
            growing,
            sizes,
            home,
        } = parts;
        match KeptHome::of(growing.allocator(), home) {
            Ok(home) => PreparedPush::in_last_chunk(growing, sizes, home, value),
            Err(home) => Err(BytesCol::of_parts(GrowingColumn {
                growing,
                sizes,
                home,
            })),
        }
    }

    /// The same, where the home is put away.
    #[inline(always)]
    fn in_last_chunk(
        mut growing: Growing,
        sizes: IntCol,
        home: KeptHome,
        value: &[u8],
    ) -> Result<PreparedPush, BytesCol>
        requires takes { LastTakes growing }
        requires sizes { HasSizes (joined growing) sizes }
        requires few { length (joined growing) < 16777216 }
        ensures ok { IfOk result (λ prepared. prepared ≡ record { column = strings_of growing home; values = joined growing ++ value.now ∷ [] }) }
        ensures err { IfErr result (λ same. same ≡ strings_of growing home) }
    {
        match sizes.prepare_push(value.len() as i64) {
            Ok(sizes) => match growing.append(value) {
                Ok(()) => Ok(PreparedPush {
                    way: Way::InPlace(growing, sizes, home),
                }),
                Err(_) => Err(BytesCol::of_parts(GrowingColumn {
                    growing,
                    sizes: sizes.cancel(),
                    home: home.take(),
                })),
            },
            Err(sizes) => Err(BytesCol::of_parts(GrowingColumn {
                growing,
                sizes,
                home: home.take(),
            })),
        }
    }

    /// The same by a copy.
    #[inline(never)]
    fn copied(column: BytesCol, value: &[u8]) -> Result<PreparedPush, BytesCol>
        requires { length column.values < 16777216 }
        ensures ok { IfOk result (λ prepared. prepared ≡ record { column = column; values = column.values ++ value.now ∷ [] }) }
        ensures err { IfErr result (λ same. same ≡ column) }
    {
        match column.grown(value) {
            Ok(longer) => PreparedPush::of_copy(Copied {
                before: column,
                longer,
            }),
            Err(_) => Err(column),
        }
    }

    /// The same with a copy that was made.
    fn of_copy(copied: Copied) -> Result<PreparedPush, BytesCol>
        requires { copied.longer.home ≡ None }
        ensures ok { IfOk result (λ prepared. prepared ≡ record { column = copied.before; values = copied.longer.values }) }
        ensures err { IfErr result (λ same. same ≡ copied.before) }
    {
        match Box::new(copied.before.allocator(), copied) {
            Ok(copied) => Ok(PreparedPush {
                way: Way::Copied(copied),
            }),
            Err(failed) => Err(failed.value.before),
        }
    }

    /// The column with the value at its end, and without a home. It takes no memory.
    #[inline(always)]
    pub fn finish(self) -> BytesCol
        ensures values { result.values ≡ self.values }
        ensures home { result.home ≡ None }
    {
        match self.way {
            Way::InPlace(growing, sizes, _home) => BytesCol::of_parts(GrowingColumn {
                growing,
                sizes: sizes.finish(),
                home: None,
            }),
            Way::Copied(copied) => Box::into_inner(copied).longer,
        }
    }

    /// The column as it was. It takes no memory.
    pub fn cancel(self) -> BytesCol
        ensures { result ≡ self.column }
    {
        match self.way {
            Way::InPlace(mut growing, sizes, home) => {
                growing.pop();
                BytesCol::of_parts(GrowingColumn {
                    growing,
                    sizes: sizes.cancel(),
                    home: home.take(),
                })
            }
            Way::Copied(copied) => Box::into_inner(copied).before,
        }
    }
}
