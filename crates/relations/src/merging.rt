//! Criteria and keys with each property once: the interval that all criteria of a property ask together, and the first key of it.
//!
//! So a row is tested or compared once by each property, however often it is named.
ghost use Rattle.std.specs.Prelude.{◌≡◌, IfOk, IfSome, OnOk};
ghost use Rattle.std.specs.List.{list_any};
ghost use Rattle.mk_value.specs.Names.{same_bytes};
ghost use Rattle.mk_value.specs.Values.{datum_of};
ghost use Rattle.relations.specs.Merging.{AsksAlso, AskAs, IsNamedAt, OrderAs, greater, lesser, met};

use crate::criteria::{Criterion, Key};
use mk_value::{Memory, Name, Sequence, Value, cmp_value};
use std::alloc::Global;

/// Criteria that ask of a row what these ask, with one interval for each property.
pub fn merged(alloc: Global, criteria: &[Criterion]) -> Result<Sequence<Criterion>, Memory>
    ensures { IfOk result (AskAs criteria.now) }
{
    let mut merged = Sequence::new(alloc);
    for criterion in criteria {
        add(&mut merged, criterion)?;
    }
    Ok(merged)
}

/// Takes a criterion in: it narrows the interval of its property, where there is one.
fn add(merged: &mut Sequence<Criterion>, criterion: &Criterion) -> Result<(), Memory>
    ensures { OnOk result (AsksAlso merged.old criterion.now merged.new) }
{
    let both = match place_of(merged.as_slice(), &criterion.prop) {
        Some(at) => meet(merged.remove(at), criterion)?,
        None => copy(criterion)?,
    };
    merged.push(both)
}

/// Where the criterion of a property stands, if there is one.
fn place_of(criteria: &[Criterion], prop: &Name) -> Option<usize>
    ensures { IfSome result (IsNamedAt criteria.now prop.now) }
{
    for at in 0..criteria.len() {
        let criterion = &criteria[at];
        if criterion.prop == *prop {
            return Some(at);
        }
    }
    None
}

/// What two criteria of one property ask together.
fn meet(held: Criterion, criterion: &Criterion) -> Result<Criterion, Memory>
    ensures { IfOk result (λ both. both ≡ met held criterion.now) }
{
    let low = greater(held.low, &criterion.low)?;
    let high = lesser(held.high, &criterion.high)?;
    let prop = held.prop;
    Ok(Criterion { prop, low, high })
}

/// The greater of two values.
fn greater(held: Value, other: &Value) -> Result<Value, Memory>
    ensures { IfOk result (λ value. datum_of value ≡ greater (datum_of held) (datum_of other.now)) }
{
    if cmp_value(&held, other).is_lt() {
        return other.copy();
    }
    Ok(held)
}

/// The lesser of two values.
fn lesser(held: Value, other: &Value) -> Result<Value, Memory>
    ensures { IfOk result (λ value. datum_of value ≡ lesser (datum_of held) (datum_of other.now)) }
{
    if cmp_value(&held, other).is_gt() {
        return other.copy();
    }
    Ok(held)
}

fn copy(criterion: &Criterion) -> Result<Criterion, Memory>
    ensures { IfOk result (λ copy. copy ≡ criterion.now) }
{
    let prop = criterion.prop.copy()?;
    let low = criterion.low.copy()?;
    let high = criterion.high.copy()?;
    Ok(Criterion { prop, low, high })
}

/// Keys that order rows as these do: of each property the first, since one that is given again never decides.
pub fn deciding_keys(alloc: Global, keys: &[Key]) -> Result<Sequence<Key>, Memory>
    ensures { IfOk result (OrderAs keys.now) }
{
    let mut deciding = Sequence::new(alloc);
    for key in keys {
        if has_key(deciding.as_slice(), &key.prop) {
            continue;
        }
        let prop = key.prop.copy()?;
        let down = key.down;
        deciding.push(Key { prop, down })?;
    }
    Ok(deciding)
}

/// Whether one of the keys is of this property.
fn has_key(keys: &[Key], prop: &Name) -> bool
    ensures { result ≡ list_any (λ key. same_bytes key.prop prop.now) keys.now }
{
    keys.iter().any(|key| key.prop == *prop)
}
