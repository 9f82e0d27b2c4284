ghost use Rattle.std.specs.Prelude.{◌≡◌};
ghost use Rattle.tokens.specs.Meanings.{byte_of};
ghost use Rattle.expr_text.specs.Walk.{end_sign};

use tokens::Sign;

/// What stands in a list, each behind a comma.
#[derive(Clone, Copy, Debug, PartialEq, Eq)]
pub(crate) enum Item {
    Criterion,
    Range,
    Order,
    Name,
    /// Names, and behind the last a colon.
    Named,
}

impl Item {
    /// The sign that stands behind the last of the list.
    pub(crate) fn end(self) -> Sign
        ensures { byte_of result ≡ end_sign self }
    {
        match self {
            Item::Criterion | Item::Range | Item::Order | Item::Name => Sign::CloseParenthesis,
            Item::Named => Sign::Colon,
        }
    }
}
