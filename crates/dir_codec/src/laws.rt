ghost use Rattle.std.specs.Prelude.{◌≡◌, ◌^◌, ◌<◌, ℕ, List};
ghost use Rattle.dir_codec.specs.Dir.{Dir, IsDir, spelled};
ghost use Rattle.dir_codec.specs.Fields.{IsFirstFlaw};

/// A law of flaws: no bytes have two first ones.
pub fn one_flaw()
    ensures { (version number end : ℕ) (bytes : List ℕ) (one two : ℕ) → IsFirstFlaw version number end bytes one
        → IsFirstFlaw version number end bytes two → one ≡ two }
{}

/// A law of directories: the bytes of one have no flaw.
pub fn whole_or_flawed()
    ensures { (version number end : ℕ) (d : Dir) (place : ℕ) → number < 2 ^ 64 → end < 2 ^ 64 → IsDir version number end d
        → IsFirstFlaw version number end (spelled d) place → ⊥ }
{}

/// A law of directories: under one mark no two have the same bytes.
pub fn one_directory()
    ensures { (version number end : ℕ) (one two : Dir) → number < 2 ^ 64 → end < 2 ^ 64 → IsDir version number end one
        → IsDir version number end two → spelled one ≡ spelled two → one ≡ two }
{}
