ghost use Rattle.std.specs.Prelude.{◌≡◌, ◌⊎◌, ℕ, List};
ghost use Rattle.tokens.specs.Depths.{Offence};
ghost use Rattle.expr_text.specs.Grammar.{IsFirstOffence, Reads};
ghost use Rattle.expr_text.specs.Queries.{Query};

/// A law of expressions: a text reads as one expression, or has one first offence, and never both.
pub fn one_reading()
    ensures one_expression { (content : List ℕ) → (one two : Query) → Reads content one → Reads content two → one ≡ two }
    ensures one_offence { (content : List ℕ) → (one two : Offence) → IsFirstOffence content one → IsFirstOffence content two → one ≡ two }
    ensures not_both { (content : List ℕ) → (q : Query) → (offence : Offence) → Reads content q → IsFirstOffence content offence → ⊥ }
{}

/// A law of expressions, for any text: it reads as one, or it has a first offence.
pub fn some_reading(text: &str)
    ensures { ((q : Query) × Reads text.now q) ⊎ ((offence : Offence) × IsFirstOffence text.now offence) }
{
    tokens::some_cutting(text);
}
