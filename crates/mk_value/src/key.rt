ghost use Rattle.std.specs.Prelude.{◌≡◌};
ghost use Rattle.mk_value.specs.Order.{kind_rank, value_cmp};
ghost use Rattle.mk_value.specs.Values.{datum_of};

use crate::sequence::Sequence;
use crate::value::Value;
use std::cmp::Ordering;
use std::marker::Model;

/// The order of two values of one kind that is no view: numbers by size, texts and byte strings byte by byte, a proper
/// prefix less. Values of two kinds compare by their kinds, in the order I, L, S, B, V, and views tie. It takes no memory.
pub fn cmp_value(a: &Value, b: &Value) -> Ordering
    ensures { result ≡ value_cmp (datum_of a.now) (datum_of b.now) }
{
    match (a, b) {
        (Value::I(one), Value::I(two)) => one.cmp(two),
        (Value::L(one), Value::L(two)) => one.cmp(two),
        (Value::S(one), Value::S(two)) => one.as_str().cmp(two.as_str()),
        (Value::B(one), Value::B(two)) => one.as_slice().cmp(two.as_slice()),
        _ => rank(a).cmp(&rank(b)),
    }
}

/// The place of a value's kind among the kinds.
fn rank(value: &Value) -> u8
    ensures { result ≡ kind_rank (datum_of value.now) }
{
    match value {
        Value::I(_) => 0,
        Value::L(_) => 1,
        Value::S(_) => 2,
        Value::B(_) => 3,
        Value::V(_) => 4,
    }
}

/// What one property gives to a sort key: its value, which is no view, and whether it counts downwards.
#[derive(Debug, Drop)]
pub struct KeyPart {
    pub value: Value,
    pub down: bool,
}

impl Model for KeyPart {
    ghost use Rattle.mk_value.specs.Order.{Key, key_code, IsPlain};
    ghost use Rattle.mk_value.specs.DataCode.{datum_code};
    ghost use Rattle.mk_value.specs.Values.{datum_of};

    ghost Value = { Key };

    ghost coded = { key_code datum_code };

    ghost view = { λ k. record { value = datum_of k.value; down = k.down } };

    ghost invariant = { λ k. IsPlain (datum_of k.value) };
}

/// The parts of a sort key, the first the most significant.
pub type KeyParts = Sequence<KeyPart>;

/// A sort key and the position of its row, which decides between equal keys.
#[derive(Debug, Drop)]
pub struct KeyRow {
    pub parts: KeyParts,
    pub at: u64,
}

impl Ord for KeyPart {
    ghost use Rattle.mk_value.specs.Order.{key_cmp};
    ghost use Rattle.mk_value.specs.OrderLaws.{key_cmp_total};
    ghost use Rattle.std.proofs.Common.{rules};
    ghost use Rattle.std.specs.Cmp.Rules.{comparing};

    ghost cmp = { key_cmp };

    ghost total = { key_cmp_total };

    ghost matches_partial_cmp = { Prim.search (comparing, rules) };

    ghost matches_eq = { Prim.search (comparing, rules) };

    fn cmp(&self, other: &KeyPart) -> Ordering {
        let directions = self.down.cmp(&other.down);
        let kinds = rank(&self.value).cmp(&rank(&other.value));
        let values = if self.down {
            cmp_value(&self.value, &other.value).reverse()
        } else {
            cmp_value(&self.value, &other.value)
        };
        directions.then(kinds.then(values))
    }
}

impl PartialOrd for KeyPart {
    ghost use Rattle.mk_value.specs.Order.{key_cmp};
    ghost use Rattle.mk_value.specs.OrderLaws.{key_cmp_total};
    ghost use Rattle.std.specs.Ordering.{as_partial_cmp};
    ghost use Rattle.std.specs.Cmp.{partial_order_from_total};

    ghost partial_cmp = { as_partial_cmp key_cmp };

    ghost laws = { partial_order_from_total key_cmp_total };

    fn partial_cmp(&self, other: &KeyPart) -> Option<Ordering> {
        Some(self.cmp(other))
    }
}

impl PartialEq for KeyPart {
    ghost use Rattle.mk_value.specs.Order.{key_cmp};
    ghost use Rattle.mk_value.specs.OrderLaws.{key_cmp_total};
    ghost use Rattle.std.specs.Ordering.{eq_by_cmp};
    ghost use Rattle.std.specs.Cmp.{partial_equiv_from_equiv, eq_by_cmp_equiv};

    ghost eq = { eq_by_cmp key_cmp };

    ghost laws = { partial_equiv_from_equiv (eq_by_cmp_equiv key_cmp_total) };

    fn eq(&self, other: &KeyPart) -> bool {
        self.cmp(other).is_eq()
    }
}

impl Eq for KeyPart {
    ghost use Rattle.mk_value.specs.OrderLaws.{key_cmp_total};
    ghost use Rattle.std.specs.Cmp.{eq_by_cmp_equiv};

    ghost laws = { eq_by_cmp_equiv key_cmp_total };
}

impl Ord for KeyRow {
    ghost use Rattle.mk_value.specs.Order.{keys_cmp};
    ghost use Rattle.mk_value.specs.OrderLaws.{keys_cmp_total};
    ghost use Rattle.std.specs.Ordering.{nat_cmp, on, then_cmp};
    ghost use Rattle.std.proofs.Common.{rules};
    ghost use Rattle.std.specs.Cmp.Rules.{comparing};
    ghost use Rattle.std.specs.Cmp.{nat_cmp_total, on_total, then_total};

    ghost cmp = { then_cmp (on (λ r. r.parts) keys_cmp) (on (λ r. r.at) nat_cmp) };

    ghost total = { then_total (on_total (λ r. r.parts) keys_cmp_total) (on_total (λ r. r.at) nat_cmp_total) };

    ghost matches_partial_cmp = { Prim.search (comparing, rules) };

    ghost matches_eq = { Prim.search (comparing, rules) };

    fn cmp(&self, other: &KeyRow) -> Ordering {
        let parts = self.parts.as_slice().cmp(other.parts.as_slice());
        parts.then(self.at.cmp(&other.at))
    }
}

impl PartialOrd for KeyRow {
    ghost use Rattle.mk_value.specs.Order.{keys_cmp};
    ghost use Rattle.mk_value.specs.OrderLaws.{keys_cmp_total};
    ghost use Rattle.std.specs.Ordering.{as_partial_cmp, nat_cmp, on, then_cmp};
    ghost use Rattle.std.specs.Cmp.{nat_cmp_total, on_total, partial_order_from_total, then_total};

    ghost partial_cmp = { as_partial_cmp (then_cmp (on (λ r. r.parts) keys_cmp) (on (λ r. r.at) nat_cmp)) };

    ghost laws = { partial_order_from_total (then_total (on_total (λ r. r.parts) keys_cmp_total) (on_total (λ r. r.at) nat_cmp_total)) };

    fn partial_cmp(&self, other: &KeyRow) -> Option<Ordering> {
        Some(self.cmp(other))
    }
}

impl PartialEq for KeyRow {
    ghost use Rattle.mk_value.specs.Order.{keys_cmp};
    ghost use Rattle.mk_value.specs.OrderLaws.{keys_cmp_total};
    ghost use Rattle.std.specs.Ordering.{eq_by_cmp, nat_cmp, on, then_cmp};
    ghost use Rattle.std.specs.Cmp.{eq_by_cmp_equiv, nat_cmp_total, on_total, partial_equiv_from_equiv, then_total};

    ghost eq = { eq_by_cmp (then_cmp (on (λ r. r.parts) keys_cmp) (on (λ r. r.at) nat_cmp)) };

    ghost laws = { partial_equiv_from_equiv (eq_by_cmp_equiv (then_total (on_total (λ r. r.parts) keys_cmp_total) (on_total (λ r. r.at) nat_cmp_total))) };

    fn eq(&self, other: &KeyRow) -> bool {
        self.cmp(other).is_eq()
    }
}

impl Eq for KeyRow {
    ghost use Rattle.mk_value.specs.OrderLaws.{keys_cmp_total};
    ghost use Rattle.std.specs.Cmp.{eq_by_cmp_equiv, nat_cmp_total, on_total, then_total};

    ghost laws = { eq_by_cmp_equiv (then_total (on_total (λ r. r.parts) keys_cmp_total) (on_total (λ r. r.at) nat_cmp_total)) };
}
