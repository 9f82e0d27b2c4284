//! The order of a value that is lent beside another value, or another that is lent.
ghost use Rattle.std.specs.Prelude.{◌≡◌};
ghost use Rattle.mk_value.specs.Order.{kind_rank};
ghost use Rattle.mk_value.specs.Values.{datum_of};
ghost use Rattle.relations.specs.Cells.{lent_cmp, lent_rank, lents_cmp};

use mk_value::{Lent, Value};
use std::cmp::Ordering;

/// The order of a value that is lent beside another. Values of two kinds compare by their kinds, in the order I, L, S, B, V, and
/// views are not told apart. It takes no memory.
pub fn cmp_lent(lent: Lent<'_>, with: &Value) -> Ordering
    ensures { result ≡ lent_cmp lent.entry (datum_of with.now) }
{
    match (lent, with) {
        (Lent::I(one), Value::I(two)) => one.cmp(two),
        (Lent::L(one), Value::L(two)) => one.cmp(two),
        (Lent::S(one), Value::S(two)) => one.cmp(two.as_str().as_bytes()),
        (Lent::B(one), Value::B(two)) => one.cmp(two.as_slice()),
        (lent, with) => rank_lent(lent).cmp(&rank(with)),
    }
}

/// The order of two values that are lent, as of `cmp_lent`. It takes no memory.
pub fn cmp_lents(one: Lent<'_>, two: Lent<'_>) -> Ordering
    ensures { result ≡ lents_cmp one.entry two.entry }
{
    match (one, two) {
        (Lent::I(one), Lent::I(two)) => one.cmp(&two),
        (Lent::L(one), Lent::L(two)) => one.cmp(&two),
        (Lent::S(one), Lent::S(two)) => one.cmp(two),
        (Lent::B(one), Lent::B(two)) => one.cmp(two),
        (one, two) => rank_lent(one).cmp(&rank_lent(two)),
    }
}

/// The place of the kind of a value that is lent among the kinds.
fn rank_lent(lent: Lent<'_>) -> u8
    ensures { result ≡ lent_rank lent.entry }
{
    match lent {
        Lent::I(_) => 0,
        Lent::L(_) => 1,
        Lent::S(_) => 2,
        Lent::B(_) => 3,
        Lent::V(_) => 4,
    }
}

/// The place of a value's kind among the kinds.
fn rank(value: &Value) -> u8
    ensures { result ≡ kind_rank (datum_of value.now) }
{
    match value {
        Value::I(_) => 0,
        Value::L(_) => 1,
        Value::S(_) => 2,
        Value::B(_) => 3,
        Value::V(_) => 4,
    }
}
