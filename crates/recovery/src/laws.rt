ghost use Rattle.std.specs.Prelude.{◌≡◌, ℕ, List};
ghost use Rattle.commit_marks.specs.Marks.{IsMark};
ghost use Rattle.commit_marks.specs.declared.mark.Mark.{Mark};
ghost use Rattle.recovery.specs.Commits.{Commit};
ghost use Rattle.recovery.specs.Refusals.{Finds, Found, IsBefore, IsRefusedAt, Older};
ghost use Rattle.recovery.specs.Standing.{Stands, StandsFor};

/// A law of images: one that stands for a commit under a mark is not refused under it, at any place.
pub fn stands_or_refused()
    ensures { (image : List ℕ) (m : Mark) (c : Commit) (slot place : ℕ) → Stands image m c → ¬ IsRefusedAt image slot m place }
{}

/// A law of images: one stands for at most one commit.
pub fn one_commit()
    ensures { (image : List ℕ) (one other : Commit) → StandsFor image one → StandsFor image other → one ≡ other }
{}

/// A law of damaged files: under one mark an image is refused at one place.
pub fn one_refusal()
    ensures { (image : List ℕ) (m : Mark) (slot one other : ℕ) → IsMark m → IsRefusedAt image slot m one
        → IsRefusedAt image slot m other → one ≡ other }
{}

/// A law of files: one has one answer, the commit for which it stands, that it is no store, or that it is damaged with the place that is
/// named; and one has one commit before, or one reason why there is none.
pub fn a_file_has_one_answer()
    ensures found { (image : List ℕ) (one other : Found) → Finds image one → Finds image other → one ≡ other }
    ensures before { (image : List ℕ) (one other : Older) → IsBefore image one → IsBefore image other → one ≡ other }
{}
