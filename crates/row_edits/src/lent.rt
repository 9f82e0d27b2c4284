//! The order of values that are lent.
ghost use Rattle.std.specs.Prelude.{◌≡◌};
ghost use Rattle.mk_value.specs.Data.{Datum};
ghost use Rattle.mk_value.specs.Lending.{Lends};
ghost use Rattle.mk_value.specs.Order.{kind_rank, value_cmp};

use mk_value::Lent;
use std::cmp::Ordering;

/// The order of two values that are lent: that of the values.
pub(crate) fn cmp_lent(a: &Lent, b: &Lent) -> Ordering
    ensures { (d e : Datum) → Lends a.now d → Lends b.now e → result ≡ value_cmp d e }
{
    match (a, b) {
        (Lent::I(one), Lent::I(two)) => one.cmp(two),
        (Lent::L(one), Lent::L(two)) => one.cmp(two),
        (Lent::S(one), Lent::S(two)) | (Lent::B(one), Lent::B(two)) => one.cmp(two),
        _ => rank(a).cmp(&rank(b)),
    }
}

/// The place of the kind of a value among the kinds.
fn rank(lent: &Lent) -> u8
    ensures { (d : Datum) → Lends lent.now d → result ≡ kind_rank d }
{
    match lent {
        Lent::I(_) => 0,
        Lent::L(_) => 1,
        Lent::S(_) => 2,
        Lent::B(_) => 3,
        Lent::V(_) => 4,
    }
}
