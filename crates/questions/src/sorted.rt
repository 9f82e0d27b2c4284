//! By what the value of an expression is known to be sorted.
ghost use Rattle.std.specs.Prelude.{◌≡◌, ◌≤◌, length, map, IfOk};
ghost use Rattle.std.specs.List.{list_any};
ghost use Rattle.expr_text.specs.Meanings.{query_of};
ghost use Rattle.eval.specs.Values.{key_of};
ghost use Rattle.mk_value.specs.Names.{same_bytes};
ghost use Rattle.relations.specs.Sorting.{all_keys, keys_or_all};
ghost use Rattle.watches.specs.Watches.{op_of};
ghost use Rattle.questions.specs.Places.{begin as begin_keys, first_keys as keys_once, keys_in_order, keys_shown, known_keys as keys_known, order_at as order_where, upwards as keys_upwards};

use crate::known::Known;
use expr_text::{Crit, Expr, Order};
use live::WatchOp;
use mk_value::{Kind, Memory, Name, Path, Schema, Sequence};
use relations::Key;
use std::alloc::Global;

impl Known<'_> {
    /// The keys by which the value of an expression is known to be sorted, each property once; none where it is no sorting, no view that is
    /// kept in the order of its keys and no watch that is a sorting.
    pub(crate) fn known_keys(
        &self,
        alloc: Global,
        expr: &Expr,
        schema: &Schema,
    ) -> Result<Sequence<Key>, Memory>
        ensures { IfOk result (λ keys. keys ≡ keys_known self.now.watches self.now.mappings (query_of expr.now) schema.now) }
    {
        match expr {
            Expr::Sort(_, orders) => {
                let keys = given_or_all(alloc, orders.as_slice(), schema)?;
                first_keys(alloc, keys.as_slice())
            }
            Expr::Path(path) => self.named_keys(alloc, path, schema),
            _ => Ok(Sequence::new(alloc)),
        }
    }

    /// The keys of the view to which a path leads, if its rows stand in their order, and else those of the watch of its name.
    fn named_keys(
        &self,
        alloc: Global,
        path: &Path,
        schema: &Schema,
    ) -> Result<Sequence<Key>, Memory>
        ensures { IfOk result (λ keys. keys ≡ keys_in_order (order_where self.now.mappings path.now) (op_of self.now.watches path.now.name) schema.now) }
    {
        match self.order_at(path) {
            Some(count) => upwards(alloc, schema, count.min(schema.len())),
            None => self.watched_keys(alloc, path.name()),
        }
    }

    /// Of how many values the key is in whose order the rows of the view to which a path leads stand, if they do.
    pub(crate) fn order_at(&self, path: &Path) -> Option<usize>
        ensures { result ≡ order_where self.now.mappings path.now }
    {
        if path.steps().is_empty() {
            return self.mappings.order(path.name());
        }
        None
    }

    /// The keys of the watch of a name, each property once; none where it is no sorting, or there is none.
    fn watched_keys(&self, alloc: Global, name: &Name) -> Result<Sequence<Key>, Memory>
        ensures { IfOk result (λ keys. keys ≡ keys_shown (op_of self.now.watches name.now)) }
    {
        match self.watches.op(name) {
            Some(WatchOp::Sort(keys)) => first_keys(alloc, keys.as_slice()),
            _ => Ok(Sequence::new(alloc)),
        }
    }
}

/// Whether the criteria name the first of the keys, in order.
pub(crate) fn begin(criteria: &[Crit], keys: &[Key]) -> bool
    ensures { result ≡ begin_keys criteria.now keys.now }
{
    let Some((criterion, criteria)) = criteria.split_first() else {
        return true;
    };
    match keys.split_first() {
        Some((key, keys)) => criterion.prop == key.prop && begin(criteria, keys),
        None => false,
    }
}

/// The keys, each property once: the first of it decides.
fn first_keys(alloc: Global, keys: &[Key]) -> Result<Sequence<Key>, Memory>
    ensures { IfOk result (λ first. first ≡ keys_once keys.now) }
{
    let mut first = Sequence::new(alloc);
    for key in keys {
        if is_among(first.as_slice(), &key.prop) {
            continue;
        }
        first.push(copy(key)?)?;
    }
    Ok(first)
}

/// Whether one of the keys has this name.
fn is_among(keys: &[Key], prop: &Name) -> bool
    ensures { result ≡ list_any (λ key. same_bytes key.prop prop.now) keys.now }
{
    keys.iter().any(|key| key.prop == *prop)
}

fn copy(key: &Key) -> Result<Key, Memory>
    ensures { IfOk result (λ copy. copy ≡ key.now) }
{
    let prop = key.prop.copy()?;
    Ok(Key {
        prop,
        down: key.down,
    })
}

/// The keys that are given, or where none is all properties that are no views, upwards.
fn given_or_all(alloc: Global, orders: &[Order], schema: &Schema) -> Result<Sequence<Key>, Memory>
    ensures { IfOk result (λ keys. keys ≡ keys_or_all schema.now (map key_of orders.now)) }
{
    if orders.is_empty() {
        return plain_keys(alloc, schema);
    }
    keys_given(alloc, orders)
}

/// The keys that are given.
pub(crate) fn keys_given(alloc: Global, orders: &[Order]) -> Result<Sequence<Key>, Memory>
    ensures { IfOk result (λ keys. keys ≡ map key_of orders.now) }
{
    let mut keys = Sequence::new(alloc);
    for order in orders {
        keys.push(key(order)?)?;
    }
    Ok(keys)
}

/// The key that is given.
fn key(order: &Order) -> Result<Key, Memory>
    ensures { IfOk result (λ key. key ≡ key_of order.now) }
{
    let prop = order.prop.copy()?;
    Ok(Key {
        prop,
        down: order.down,
    })
}

/// The first properties, so many, upwards.
pub(crate) fn upwards(alloc: Global, schema: &Schema, count: usize) -> Result<Sequence<Key>, Memory>
    requires { count ≤ length schema.now }
    ensures { IfOk result (λ keys. keys ≡ keys_upwards count schema.now) }
{
    let mut keys = Sequence::new(alloc);
    for col in 0..count {
        let prop = &schema.as_slice()[col];
        let prop = prop.name.copy()?;
        keys.push(Key { prop, down: false })?;
    }
    Ok(keys)
}

/// All properties that are no views, upwards.
fn plain_keys(alloc: Global, schema: &Schema) -> Result<Sequence<Key>, Memory>
    ensures { IfOk result (λ keys. keys ≡ all_keys schema.now) }
{
    let mut keys = Sequence::new(alloc);
    for col in 0..schema.len() {
        let prop = &schema.as_slice()[col];
        if matches!(&prop.kind, Kind::V(_)) {
            continue;
        }
        let prop = prop.name.copy()?;
        keys.push(Key { prop, down: false })?;
    }
    Ok(keys)
}
