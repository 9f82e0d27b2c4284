ghost use Rattle.std.specs.Prelude.{◌≡◌, ℕ, List};
ghost use Rattle.mk_value.specs.Heading.{Attribute};
ghost use Rattle.struct_text.specs.Grammar.{IsLoose};
ghost use Rattle.struct_text.specs.Offences.{IsFirstOffence, Offends};
ghost use Rattle.struct_text.specs.Spelling.{Spells};
ghost use Rattle.struct_text.specs.declared.error.StructError.{StructError as Refusal};

/// A law of structure texts: what spells a structure spells no other, it is one of the loose texts, and nothing in it offends.
pub fn one_structure()
    ensures unique { (text one two : List ℕ) (ones twos : List Attribute) → Spells text one ones → Spells text two twos
        → (one ≡ two) × (ones ≡ twos) }
    ensures loose { (text name : List ℕ) (properties : List Attribute) → Spells text name properties → IsLoose text }
    ensures clean { (text name : List ℕ) (properties : List Attribute) → Spells text name properties
        → (offence : Refusal) → Offends text offence → ⊥ }
{}

/// A law of offences: no text has two first ones.
pub fn one_first_offence()
    ensures { (text : List ℕ) (one two : Refusal) → IsFirstOffence text one → IsFirstOffence text two → one ≡ two }
{}
