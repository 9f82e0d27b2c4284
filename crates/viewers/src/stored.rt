//! A viewer that asks a stored closure.
ghost use Rattle.std.specs.Prelude.{◌≡◌, map};
ghost use Rattle.mk_value.specs.Kinds.{domain_of};
ghost use Rattle.viewers.specs.Laws.{AreArguments, gives as law_gives};

use crate::{Kinds, Law, Viewer};
use mk_value::{Kind, Name, Row};

/// A closure that answers rows.
pub type Call = Box<dyn Fn(&Row) -> i64>;

/// A closure beside its law: each row of the kinds may be asked, and is answered by the law.
#[derive(Drop)]
pub struct StoredViewer {
    name: Name,
    law: Law,
    takes: Kinds,
    call: Call,
    ghost callable: { (row : _) → AreArguments (map domain_of takes) row.now → Call.pre call row },
    ghost lawful: { (row : _) (number : _) → AreArguments (map domain_of takes) row.now → Call.post call row number → number ≡ law_gives law row.now },
}

impl StoredViewer {
    /// The viewer of this name that asks the closure.
    pub fn new(name: Name, law: Law, takes: Kinds, call: Call) -> StoredViewer
        requires callable { (row : _) → AreArguments (map domain_of takes) row.now → Call.pre call row }
        requires lawful { (row : _) (number : _) → AreArguments (map domain_of takes) row.now → Call.post call row number → number ≡ law_gives law row.now }
        ensures { ⟦<StoredViewer as Viewer>⟧.meaning result ≡ record { name = name; takes = map domain_of takes; gives = law_gives law } }
    {
        StoredViewer {
            name,
            law,
            takes,
            call,
        }
    }
}

impl Viewer for StoredViewer {
    ghost meaning = { λ v. record { name = v.name; takes = map domain_of v.takes; gives = law_gives v.law } };

    fn name(&self) -> &Name {
        &self.name
    }

    fn takes(&self) -> &[Kind] {
        self.takes.as_slice()
    }

    fn answer(&self, row: &Row) -> i64 {
        (self.call)(row)
    }

    fn law(&self) -> Option<Law> {
        Some(self.law)
    }
}
