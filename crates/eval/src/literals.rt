//! Criteria and bounds of expressions, as the operators take them.
ghost use Rattle.std.specs.Prelude.{◌≡◌, map, IfOk};
ghost use Rattle.eval.specs.Literals.{interval_of};
ghost use Rattle.eval.specs.Values.{asked as asked_by, bounded as bounded_by};

use expr_text::{Bound, Crit};
use mk_value::{Literal, Memory, Name};
use relations::{LiteralBounds, Named};
use std::alloc::Global;

/// A property, and the least and the greatest literal that are asked for. They are lent by an expression.
#[derive(Clone, Copy)]
pub struct Asked<'a> {
    prop: &'a Name,
    low: &'a Literal,
    high: &'a Literal,
}

impl Named for Asked<'_> {
    ghost prop = { λ a. a.prop.now };

    fn prop(&self) -> &Name {
        self.prop
    }
}

impl LiteralBounds for Asked<'_> {
    ghost use Rattle.eval.specs.Literals.{interval_of};
    ghost use Rattle.std.specs.Prelude.{refl};

    ghost bounds = { interval_of };

    fn low(&self) -> &Literal {
        self.low
    }

    fn high(&self) -> &Literal {
        self.high
    }

    ghost same_prop = { λ a. refl };
}

/// Criteria: each literal is the least and the greatest that is asked for.
pub fn criteria_asked(alloc: Global, criteria: &[Crit]) -> Result<Vec<Asked<'_>>, Memory>
    ensures { IfOk result (λ items. map interval_of items.items ≡ map asked_by criteria.now) }
{
    let mut items = Vec::new(alloc);
    for criterion in criteria {
        items.push(Asked {
            prop: &criterion.prop,
            low: &criterion.value,
            high: &criterion.value,
        })?;
    }
    Ok(items)
}

/// Bounds.
pub fn bounds_asked(alloc: Global, bounds: &[Bound]) -> Result<Vec<Asked<'_>>, Memory>
    ensures { IfOk result (λ items. map interval_of items.items ≡ map bounded_by bounds.now) }
{
    let mut items = Vec::new(alloc);
    for bound in bounds {
        items.push(Asked {
            prop: &bound.prop,
            low: &bound.low,
            high: &bound.high,
        })?;
    }
    Ok(items)
}
