//! What holds of the definitions, whatever is run.
ghost use Rattle.std.specs.Prelude.{◌≡◌, ℕ, List};
ghost use Rattle.host_io.specs.Outside.{Left, Outside};
ghost use Rattle.aside_disk.specs.declared.error.BaseRecord.{BaseRecord};
ghost use Rattle.aside_disk.specs.Logical.{IsAsideOf, Logical};
ghost use Rattle.aside_disk.specs.Refusals.{IsNoAside};
ghost use Rattle.aside_disk.specs.Shown.{Seen, bare, source_of};
ghost use Rattle.aside_disk.specs.Standing.{IsOver};
ghost use Rattle.aside_disk.specs.Tie.{ShowsLeft};

/// An image stands, over a base, for one file at most.
pub fn files_are_one()
    ensures { (base : List ℕ) (number : ℕ) (image one other : List ℕ) → Logical base number image one → Logical base number image other → one ≡ other }
{}

/// An image that is refused is refused at one place, and is the aside file of no base. An aside file is that of one base.
pub fn refusals_are_one()
    ensures place { (image : List ℕ) (one other : ℕ) → IsNoAside image one → IsNoAside image other → one ≡ other }
    ensures none { (image : List ℕ) (place : ℕ) (kept : BaseRecord) → IsNoAside image place → ¬ IsAsideOf kept image }
    ensures base { (image : List ℕ) (one other : BaseRecord) → IsAsideOf one image → IsAsideOf other image → one ≡ other }
{}

/// Where an aside disk still has the source that it had when it was opened, each image that a crash may have left since of the disk under it
/// stands for one that a crash may have left of it. What its user promises of the one is so promised of the other.
pub fn images_stand()
    ensures { (name other since began number : ℕ) (base : List ℕ) (lower : Outside) (seen : Seen) (own : ℕ) → IsOver (Unit {0}) name lower seen own
        → seen.source ≡ source_of other since began number base → (image : List ℕ) (said : ℕ) → Left since lower image said
        → ShowsLeft (Logical base number) began (bare seen) image said }
{}
