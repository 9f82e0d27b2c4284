//! What may be asked of rows.
ghost use Rattle.std.specs.Prelude.{◌≡◌, map, IfSome};
ghost use Rattle.mk_value.specs.Kinds.{domain_of};
ghost use Rattle.viewers.specs.Laws.{AreArguments, gives as law_gives};
ghost use Rattle.viewers.specs.Meanings.{Meaning};

use crate::Law;
use mk_value::{Kind, Name, Row, Sequence};

/// Kinds in order.
pub type Kinds = Sequence<Kind>;

/// A name, the kinds of its arguments, and a number for each row of values of these kinds.
pub trait Viewer {
    ghost meaning: { Self → Meaning };

    fn name(&self) -> &Name
        ensures { result.now ≡ (meaning self.now).name };

    /// The kinds of the arguments, in their order.
    fn takes(&self) -> &[Kind]
        ensures { map domain_of result.now ≡ (meaning self.now).takes };

    /// The number for a row of arguments.
    fn answer(&self, row: &Row) -> i64
        requires { AreArguments (meaning self.now).takes row.now }
        ensures { result ≡ (meaning self.now).gives row.now };

    /// The law by which it answers, if it is one of the stock ones. Then what it keeps of rows that change can be known without asking it.
    fn law(&self) -> Option<Law>
        ensures { IfSome result (λ law. (meaning self.now).gives ≡ law_gives law) };
}
