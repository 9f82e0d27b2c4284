//! What operators are asked by: bounds on values, and keys to sort by.
ghost use Rattle.std.specs.Prelude.{◌≡◌};

use mk_value::{Name, Value};
use std::marker::Model;

/// Interval on the values of a property: the least and the greatest that are asked for.
#[derive(Debug, Drop)]
pub struct Criterion {
    pub prop: Name,
    pub low: Value,
    pub high: Value,
}

impl Model for Criterion {
    ghost use Rattle.relations.specs.Criteria.{Interval, interval_code};

    ghost Value = { Interval };

    ghost coded = { interval_code };

    ghost use Rattle.mk_value.specs.Values.{datum_of};

    ghost view = { λ c. record { prop = c.prop; low = datum_of c.low; high = datum_of c.high } };
}

/// A property to sort by, and whether its values count downwards.
#[derive(Debug, Drop)]
pub struct Key {
    pub prop: Name,
    pub down: bool,
}

/// What names a property of a table.
pub trait Named {
    ghost use Rattle.std.specs.Prelude.{ℕ, List};

    ghost prop: { Self → List ℕ };

    fn prop(&self) -> &Name
        ensures { result.now ≡ prop self.now };
}

impl Named for Name {
    ghost prop = { λ name. name };

    fn prop(&self) -> &Name {
        self
    }
}

impl Named for Criterion {
    ghost prop = { λ c. c.prop };

    fn prop(&self) -> &Name {
        &self.prop
    }
}

impl Named for Key {
    ghost prop = { λ k. k.prop };

    fn prop(&self) -> &Name {
        &self.prop
    }
}
