ghost use Rattle.std.specs.Prelude.{◌≡◌, ℕ, List, Option as Maybe};
ghost use Rattle.mk_value.specs.Conversions.{becomes, row_becomes};
ghost use Rattle.mk_value.specs.Data.{Datum, IsOf, IsTupleOf, tuple_of};
ghost use Rattle.mk_value.specs.Heading.{Domain, Heading, IsDomain, relation as relation_domain};
ghost use Rattle.mk_value.specs.Literals.{row_text, value_text};
ghost use Rattle.tokens.specs.Cutting.{Cuts, CutsUpTo, IsFirstFlaw, Piece as plain_piece};
ghost use Rattle.tokens.specs.Fronts.{IsFirstOffence};
ghost use Rattle.tokens.specs.Literals.{HoldsBytes, LiteralTokens, Reads, ReadsRowText, RowHoldsBytes, as_literal, max_braces, row_as_literals};

/// A law of cutting: a text has one cutting into tokens, or one first piece that is no token with the pieces before it, and never both.
pub fn one_cutting()
    ensures one_cutting { (content : List ℕ) (one two : List plain_piece) → Cuts content one → Cuts content two → one ≡ two }
    ensures one_flaw { (content : List ℕ) (one two : ℕ) → IsFirstFlaw content one → IsFirstFlaw content two → one ≡ two }
    ensures not_both { (content : List ℕ) (pieces : List plain_piece) (flaw : ℕ) → Cuts content pieces → IsFirstFlaw content flaw → ⊥ }
    ensures one_front { (content : List ℕ) (one two : List plain_piece) (first second : Maybe ℕ) → CutsUpTo content one first → CutsUpTo content two second → (one ≡ two) × (first ≡ second) }
{}

/// A law of reading: a text reads as one literal, or has one first offence, and never both.
pub fn one_reading()
    ensures one_literal { (content : List ℕ) (one two : Datum) → Reads content one → Reads content two → one ≡ two }
    ensures one_offence { (content : List ℕ) (one two : ℕ) → IsFirstOffence LiteralTokens content one → IsFirstOffence LiteralTokens content two → one ≡ two }
    ensures not_both { (content : List ℕ) (d : Datum) (place : ℕ) → Reads content d → IsFirstOffence LiteralTokens content place → ⊥ }
{}

/// A law of printing: the text of a value of a kind reads as its literal, which becomes the value again; so does the text of a row.
pub fn printed_reads_back()
    ensures value { (d : Datum) (e : Domain) → IsDomain e → IsOf d e → HoldsBytes d
        → Reads (value_text d) (as_literal d) × (becomes (as_literal d) e ≡ d) }
    ensures row { (row : List Datum) (h : Heading) → IsDomain (relation_domain h) → IsTupleOf (tuple_of row) h → RowHoldsBytes (tuple_of row)
        → ReadsRowText max_braces (row_text row) (row_as_literals (tuple_of row)) × (row_becomes (row_as_literals (tuple_of row)) h ≡ tuple_of row) }
{}
