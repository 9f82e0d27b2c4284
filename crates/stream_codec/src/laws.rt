//! What holds of streams, whoever reads or writes them.
ghost use Rattle.std.specs.Prelude.{◌≡◌, ◌++◌, ℕ, List};
ghost use Rattle.stream_codec.specs.Fields.{IsCutOffAt, IsWrongAt};
ghost use Rattle.stream_codec.specs.Stream.{IsStream};
ghost use Rattle.view_store.specs.Views.{NamedTable};

/// A law of streams: no bytes are those of two roots.
pub fn one_stream()
    ensures { (bytes : List ℕ) (one two : List NamedTable) → IsStream bytes one → IsStream bytes two → one ≡ two }
{}

/// A law of refusals: no bytes are wrong at two places, or end within two fields, or both are wrong and end within a field.
pub fn one_place()
    ensures wrong { (bytes : List ℕ) (one two : ℕ) → IsWrongAt bytes one → IsWrongAt bytes two → one ≡ two }
    ensures cut { (bytes : List ℕ) (one two : ℕ) → IsCutOffAt bytes one → IsCutOffAt bytes two → one ≡ two }
    ensures apart { (bytes : List ℕ) (one two : ℕ) → IsWrongAt bytes one → IsCutOffAt bytes two → ⊥ }
{}

/// A law of streams: a stream has no wrong field, and does not end within one.
pub fn a_stream_is_whole()
    ensures wrong { (bytes : List ℕ) (views : List NamedTable) (place : ℕ) → IsStream bytes views → IsWrongAt bytes place → ⊥ }
    ensures cut { (bytes : List ℕ) (views : List NamedTable) (place : ℕ) → IsStream bytes views → IsCutOffAt bytes place → ⊥ }
{}

/// A law of refusals: a field that is wrong stays so, whatever comes behind it.
pub fn a_wrong_field_stays_wrong()
    ensures { (bytes more : List ℕ) (place : ℕ) → IsWrongAt bytes place → IsWrongAt (bytes ++ more) place }
{}
