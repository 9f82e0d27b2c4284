//! Expressions and what stands in them.

use mk_value::{Literal, Name, Path, Sequence};
use std::marker::Model;

/// A property and the value that is asked for.
#[derive(Debug, Drop)]
pub struct Crit {
    pub prop: Name,
    pub value: Literal,
}

impl Model for Crit {
    ghost use Rattle.expr_text.specs.Arguments.{Criterion, criterion_code};

    ghost Value = { Criterion };

    ghost coded = { criterion_code };

    ghost use Rattle.mk_value.specs.LiteralValues.{literal_of};

    ghost view = { λ c. record { prop = c.prop; value = literal_of c.value } };
}

/// A property, and the least and the greatest of the values that are asked for.
#[derive(Debug, Drop)]
pub struct Bound {
    pub prop: Name,
    pub low: Literal,
    pub high: Literal,
}

impl Model for Bound {
    ghost use Rattle.expr_text.specs.Arguments.{Range, range_code};

    ghost Value = { Range };

    ghost coded = { range_code };

    ghost use Rattle.mk_value.specs.LiteralValues.{literal_of};

    ghost view = { λ b. record { prop = b.prop; low = literal_of b.low; high = literal_of b.high } };
}

/// A property to sort by, and whether its values count downwards.
#[derive(Debug, Drop)]
pub struct Order {
    pub prop: Name,
    pub down: bool,
}

/// A list of names.
pub type NameList = Sequence<Name>;

/// A list of values that are asked for.
pub type Crits = Sequence<Crit>;

/// A list of bounds.
pub type Bounds = Sequence<Bound>;

/// A list of properties to sort by.
pub type Orders = Sequence<Order>;

/// A view that is asked for: one that a path leads to, or what an operator gives. The arguments stand in the order in which they are written.
#[derive(Drop)]
pub enum Expr {
    /// The view that the path leads to.
    Path(Path),
    /// The rows with these values.
    Select(Box<Expr>, Crits),
    /// The rows with each value at or between its bounds.
    Range(Box<Expr>, Bounds),
    /// The rows in order.
    Sort(Box<Expr>, Orders),
    /// The named properties.
    Project(Box<Expr>, NameList),
    /// All properties but the named ones.
    Without(Box<Expr>, NameList),
    /// The same rows, a property having another name.
    Rename(Box<Expr>, Name, Name),
    /// Rows at equal distances: the first, the limit and the step.
    Slice(Box<Expr>, u64, u64, i64),
    /// The rows of the first and then those of the second.
    Concat(Box<Expr>, Box<Expr>),
    /// Each row of the first beside the row at its place in the second.
    Pair(Box<Expr>, Box<Expr>),
    /// Each row of the first beside each row of the second.
    Product(Box<Expr>, Box<Expr>),
    /// The first of equal rows.
    Unique(Box<Expr>),
    /// The rows of either, each once.
    Union(Box<Expr>, Box<Expr>),
    /// The rows of the first that the second has.
    Intersect(Box<Expr>, Box<Expr>),
    /// The rows of the first that the second has not.
    Minus(Box<Expr>, Box<Expr>),
    /// The rows of either that the other has not.
    Different(Box<Expr>, Box<Expr>),
    /// A row for each key, with the rows of that key as a view of the name.
    GroupBy(Box<Expr>, NameList, Name),
    /// A row for each key, with the number of its rows under the name.
    Counts(Box<Expr>, NameList, Name),
    /// The pairs of rows that agree on the named properties.
    Join(Box<Expr>, Box<Expr>, NameList),
    /// The same, and each row of the first that has no partner.
    OuterJoin(Box<Expr>, Box<Expr>, NameList),
    /// Each row beside each row of its view of the name.
    JoinProp(Box<Expr>, Name),
    /// The same, and each row whose view is empty.
    OuterJoinProp(Box<Expr>, Name),
    /// Each row with what a viewer answers on the named values, under the last name.
    Calc(Box<Expr>, Name, NameList, Name),
    /// The rows on which the viewer's answer on the named values is not 0.
    Keep(Box<Expr>, Name, NameList),
}
