ghost use Rattle.std.specs.Prelude.{ℕ, List};
ghost use Rattle.commit_writes.specs.Footprints.{MayStand as PrintMayStand};
ghost use Rattle.recovery.specs.Commits.{Commit, IsCommit, footprint_of};
ghost use Rattle.recovery.specs.Refusals.{MayStand};

/// A law of crashes: an image that stands for the blocks of the old commit, or for those of the next one with the old one before it,
/// stands for that commit.
pub fn a_crash_leaves_a_commit()
    ensures { (kept next : Commit) (image : List ℕ) → IsCommit kept → IsCommit next
        → PrintMayStand (footprint_of kept) (footprint_of next) image → MayStand kept next image }
{}
