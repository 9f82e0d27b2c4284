//! The stock viewers, which this program lends to its session.
ghost use Rattle.std.specs.Prelude.{◌≡◌, IfOk};
ghost use Rattle.mk_value.specs.Names.{IsName};

use mk_value::{Kind, Memory, Name, Row};
use std::alloc::Global;
use std::marker::Model;
use viewers::{Kinds, Law, Viewer, length, sum, twice};

/// A viewer that answers by a law.
#[derive(Drop)]
pub(crate) struct Stock {
    name: Name,
    law: Law,
    takes: Kinds,
}

impl Model for Stock {
    ghost use Rattle.std.specs.Prelude.{◌≡◌, map};
    ghost use Rattle.mk_value.specs.Kinds.{domain_of};
    ghost use Rattle.mk.specs.Stock.{Lawful, kinds_taken};

    ghost Value = { Lawful };

    ghost view = { λ s. record { name = s.name; law = s.law } };

    ghost invariant = { λ s. map domain_of s.takes ≡ kinds_taken s.law };
}

impl Stock {
    /// The viewer of this name that answers by this law.
    pub fn new(alloc: Global, word: &str, law: Law) -> Result<Stock, Memory>
        requires { IsName word.now }
        ensures name { IfOk result (λ stock. stock.name ≡ word.now) }
        ensures law { IfOk result (λ stock. stock.law ≡ law) }
    {
        let mut takes = Kinds::new(alloc);
        match law {
            Law::Length => takes.push(Kind::S)?,
            Law::Twice => takes.push(Kind::I)?,
            Law::Sum => {
                takes.push(Kind::I)?;
                takes.push(Kind::I)?;
            }
        }
        Ok(Stock {
            name: name(word),
            law,
            takes,
        })
    }
}

impl Viewer for Stock {
    ghost use Rattle.viewers.specs.Laws.{gives as law_gives};
    ghost use Rattle.mk.specs.Stock.{kinds_taken};

    ghost meaning = { λ s. record { name = s.name; takes = kinds_taken s.law; gives = law_gives s.law } };

    fn name(&self) -> &Name {
        &self.name
    }

    fn takes(&self) -> &[Kind] {
        self.takes.as_slice()
    }

    fn answer(&self, row: &Row) -> i64 {
        match self.law {
            Law::Length => length(row),
            Law::Twice => twice(row),
            Law::Sum => sum(row),
        }
    }

    fn law(&self) -> Option<Law> {
        Some(self.law)
    }
}

/// The name that a word spells.
fn name(word: &str) -> Name
    requires { IsName word.now }
    ensures { result ≡ word.now }
{
    match Name::from_bytes(word.as_bytes()) {
        Some(name) => name,
        None => unreachable!(),
    }
}
