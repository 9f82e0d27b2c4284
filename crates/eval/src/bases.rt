//! What an expression stands on.
ghost use Rattle.expr_text.specs.Meanings.{query_of};
ghost use Rattle.eval.specs.Parts.{AreBases};

use expr_text::Expr;
use mk_value::{Name, Path};

/// A path, or one expression or two that an operator stands before.
pub(crate) enum Bases<'a> {
    Path(&'a Path),
    One(&'a Expr),
    Two(&'a Expr, &'a Expr),
}

/// What an expression stands on.
pub(crate) fn bases_of(expr: &Expr) -> Bases<'_>
    ensures { AreBases (query_of expr.now) result }
{
    match expr {
        Expr::Path(path) => Bases::Path(path),
        Expr::Select(base, _)
        | Expr::Range(base, _)
        | Expr::Sort(base, _)
        | Expr::Project(base, _)
        | Expr::Without(base, _)
        | Expr::Rename(base, _, _)
        | Expr::Slice(base, _, _, _)
        | Expr::Unique(base)
        | Expr::GroupBy(base, _, _)
        | Expr::Counts(base, _, _)
        | Expr::JoinProp(base, _)
        | Expr::OuterJoinProp(base, _)
        | Expr::Calc(base, _, _, _)
        | Expr::Keep(base, _, _) => Bases::One(base),
        Expr::Concat(first, second)
        | Expr::Pair(first, second)
        | Expr::Product(first, second)
        | Expr::Union(first, second)
        | Expr::Intersect(first, second)
        | Expr::Minus(first, second)
        | Expr::Different(first, second)
        | Expr::Join(first, second, _)
        | Expr::OuterJoin(first, second, _) => Bases::Two(first, second),
    }
}

/// Whether an expression names what has this name.
pub fn is_asked_of(expr: &Expr, name: &Name) -> bool {
    match bases_of(expr) {
        Bases::Path(path) => *path.name() == *name,
        Bases::One(base) => is_asked_of(base, name),
        Bases::Two(first, second) => is_asked_of(first, name) || is_asked_of(second, name),
    }
}
