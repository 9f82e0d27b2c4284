//! What the stock viewers answer, to be boxed by the program that hands them in.
ghost use Rattle.std.specs.Prelude.{◌≡◌, ◌^◌, ◌≤ℤ◌, ◌<ℤ◌, neg_ℤ, pos, [], ◌∷◌};
ghost use Rattle.mk_value.specs.Data.{IsOf};
ghost use Rattle.mk_value.specs.Heading.{Domain};
ghost use Rattle.mk_value.specs.Tables.{number_in};
ghost use Rattle.mk_value.specs.Values.{datum_of};
ghost use Rattle.viewers.specs.Laws.{AreArguments, gives};

use crate::Law;
use mk_value::{Row, Value};

/// The number of bytes of a text.
pub fn length(row: &Row) -> i64
    requires { AreArguments (Domain.text ∷ []) row.now }
    ensures { result ≡ gives Law.Length row.now }
{
    match &row.as_slice()[0] {
        Value::S(text) => text.len() as i64,
        _ => unreachable!(),
    }
}

/// Two times a number of kind I.
pub fn twice(row: &Row) -> i64
    requires { AreArguments (Domain.integer ∷ []) row.now }
    ensures { result ≡ gives Law.Twice row.now }
{
    2 * number(&row.as_slice()[0])
}

/// The sum of two numbers of kind I.
pub fn sum(row: &Row) -> i64
    requires { AreArguments (Domain.integer ∷ Domain.integer ∷ []) row.now }
    ensures { result ≡ gives Law.Sum row.now }
{
    let values = row.as_slice();
    number(&values[0]) + number(&values[1])
}

/// The number that a value of kind I is.
fn number(value: &Value) -> i64
    requires { IsOf (datum_of value.now) Domain.integer }
    ensures value { result ≡ number_in (datum_of value.now) }
    ensures least { neg_ℤ (pos (2 ^ 31)) ≤ℤ result }
    ensures greatest { result <ℤ pos (2 ^ 31) }
{
    match value {
        Value::I(number) => i64::from(*number),
        _ => unreachable!(),
    }
}
