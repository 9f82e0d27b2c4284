//! What the stock viewers are called, and what they take.
ghost use Rattle.std.specs.Prelude.{◌≡◌, ◌∷◌, [], map, IfOk};
ghost use Rattle.mk_value.specs.Heading.{Domain};
ghost use Rattle.mk_value.specs.Kinds.{domain_of};
ghost use Rattle.mk_value.specs.Names.{IsName};

use mk_value::{Kind, Memory, Name};
use std::alloc::Global;
use viewers::Kinds;

/// The name that a word spells.
pub fn name(word: &str) -> Name
    requires { IsName word.now }
    ensures { result ≡ word.now }
{
    match Name::from_bytes(word.as_bytes()) {
        Some(name) => name,
        None => unreachable!(),
    }
}

/// The kinds of one text.
pub fn one_text(alloc: Global) -> Result<Kinds, Memory>
    ensures { IfOk result (λ kinds. map domain_of kinds ≡ Domain.text ∷ []) }
{
    let mut kinds = Kinds::new(alloc);
    kinds.push(Kind::S)?;
    Ok(kinds)
}

/// The kinds of one number.
pub fn one_number(alloc: Global) -> Result<Kinds, Memory>
    ensures { IfOk result (λ kinds. map domain_of kinds ≡ Domain.integer ∷ []) }
{
    let mut kinds = Kinds::new(alloc);
    kinds.push(Kind::I)?;
    Ok(kinds)
}

/// The kinds of two numbers.
pub fn two_numbers(alloc: Global) -> Result<Kinds, Memory>
    ensures { IfOk result (λ kinds. map domain_of kinds ≡ Domain.integer ∷ Domain.integer ∷ []) }
{
    let mut kinds = one_number(alloc)?;
    kinds.push(Kind::I)?;
    Ok(kinds)
}
