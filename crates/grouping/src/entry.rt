//! A row with its position, in an order that no two rows of a list share.
ghost use Rattle.std.specs.Prelude.{◌≡◌};

use mk_value::Row;
use relations::cmp_whole_row;
use std::cmp::Ordering;

/// A row of a list, and its position, which decides between equal rows.
#[derive(Clone, Copy, Debug)]
pub(crate) struct Entry<'a> {
    pub row: &'a Row,
    pub at: u32,
}

impl Ord for Entry<'_> {
    ghost use Rattle.relations.specs.WholeOrder.{whole_row_cmp};
    ghost use Rattle.relations.specs.OrderLaws.{whole_row_cmp_total};
    ghost use Rattle.std.specs.Ordering.{nat_cmp, on, then_cmp};
    ghost use Rattle.std.proofs.Common.{rules};
    ghost use Rattle.std.specs.Cmp.Rules.{comparing};
    ghost use Rattle.std.specs.Cmp.{nat_cmp_total, on_total, then_total};

    ghost cmp = { then_cmp (on (λ e. e.row.now) whole_row_cmp) (on (λ e. e.at) nat_cmp) };

    ghost total = { then_total (on_total (λ e. e.row.now) whole_row_cmp_total) (on_total (λ e. e.at) nat_cmp_total) };

    ghost matches_partial_cmp = { Prim.search (comparing, rules) };

    ghost matches_eq = { Prim.search (comparing, rules) };

    fn cmp(&self, other: &Self) -> Ordering {
        cmp_whole_row(self.row, other.row).then(self.at.cmp(&other.at))
    }
}

impl PartialOrd for Entry<'_> {
    ghost use Rattle.relations.specs.WholeOrder.{whole_row_cmp};
    ghost use Rattle.relations.specs.OrderLaws.{whole_row_cmp_total};
    ghost use Rattle.std.specs.Ordering.{as_partial_cmp, nat_cmp, on, then_cmp};
    ghost use Rattle.std.specs.Cmp.{nat_cmp_total, on_total, partial_order_from_total, then_total};

    ghost partial_cmp = { as_partial_cmp (then_cmp (on (λ e. e.row.now) whole_row_cmp) (on (λ e. e.at) nat_cmp)) };

    ghost laws = { partial_order_from_total (then_total (on_total (λ e. e.row.now) whole_row_cmp_total) (on_total (λ e. e.at) nat_cmp_total)) };

    fn partial_cmp(&self, other: &Self) -> Option<Ordering> {
        Some(self.cmp(other))
    }
}

impl PartialEq for Entry<'_> {
    ghost use Rattle.relations.specs.WholeOrder.{whole_row_cmp};
    ghost use Rattle.relations.specs.OrderLaws.{whole_row_cmp_total};
    ghost use Rattle.std.specs.Ordering.{eq_by_cmp, nat_cmp, on, then_cmp};
    ghost use Rattle.std.specs.Cmp.{eq_by_cmp_equiv, nat_cmp_total, on_total, partial_equiv_from_equiv, then_total};

    ghost eq = { eq_by_cmp (then_cmp (on (λ e. e.row.now) whole_row_cmp) (on (λ e. e.at) nat_cmp)) };

    ghost laws = { partial_equiv_from_equiv (eq_by_cmp_equiv (then_total (on_total (λ e. e.row.now) whole_row_cmp_total) (on_total (λ e. e.at) nat_cmp_total))) };

    fn eq(&self, other: &Self) -> bool {
        self.cmp(other).is_eq()
    }
}

impl Eq for Entry<'_> {
    ghost use Rattle.relations.specs.OrderLaws.{whole_row_cmp_total};
    ghost use Rattle.std.specs.Ordering.{nat_cmp};
    ghost use Rattle.std.specs.Cmp.{eq_by_cmp_equiv, nat_cmp_total, on_total, then_total};

    ghost laws = { eq_by_cmp_equiv (then_total (on_total (λ e. e.row.now) whole_row_cmp_total) (on_total (λ e. e.at) nat_cmp_total)) };
}
