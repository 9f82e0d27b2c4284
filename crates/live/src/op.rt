use mk_value::Sequence;
use relations::{Criterion, Key};

/// Bounds on the values of properties, all of which a row keeps.
pub type Criteria = Sequence<Criterion>;

/// Properties to sort by, the first that differs deciding.
pub type Keys = Sequence<Key>;

/// What a watch shows of the rows of its source.
#[derive(Debug, Drop)]
pub enum WatchOp {
    /// Those within the bounds, in their order. A selection is a range whose bounds are equal.
    Range(Criteria),
    /// All of them in the order of the keys, ties as they stand.
    Sort(Keys),
}
