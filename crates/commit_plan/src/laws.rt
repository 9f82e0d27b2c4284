ghost use Rattle.std.specs.Prelude.{◌≡◌, ℕ, ◌^◌, ◌<◌, List};
ghost use Rattle.mk_value.specs.declared.span.Span.{Span};
ghost use Rattle.commit_writes.specs.Plans.{IsSoundAfter};
ghost use Rattle.view_store.specs.Views.{NamedTable};
ghost use Rattle.recovery.specs.Commits.{Commit, IsCommit, footprint_of};
ghost use Rattle.commit_plan.specs.Following.{FollowsAt, MayFollow, last_end, writes_at};

/// A law of the commit that follows a whole one, with views that rest on it, at the least places: it is whole, and it is sound to write
/// its blocks, which overwrite nothing that the one before it needs. The caps keep its end and its number within what a mark holds.
pub fn the_next_commit_is_sound()
    ensures { (floor : ℕ) (kept : Commit) (views : List NamedTable) (note : List ℕ) (spans : List Span) (next : Commit)
        → IsCommit kept → MayFollow floor kept views note → FollowsAt floor kept views note spans next
        → next.end < last_end → next.number < 2 ^ 63
        → IsCommit next × IsSoundAfter (footprint_of kept) (writes_at views spans next) (footprint_of next) }
{}

/// A law of the commit that follows at the least places: there is one at most.
pub fn follows_unique()
    ensures { (floor : ℕ) (kept : Commit) (views : List NamedTable) (note : List ℕ) (spans others : List Span) (one other : Commit)
        → FollowsAt floor kept views note spans one → FollowsAt floor kept views note others other → one ≡ other }
{}

/// A law of the commit that follows a whole one, with views that rest on it: there is one, and so its end is determined, whether it is
/// within a cap or not. Its blocks have places however far behind; an end past the last that a file may have counts as that one.
pub fn some_commit_follows()
    ensures { (floor : ℕ) (kept : Commit) (views : List NamedTable) (note : List ℕ) → IsCommit kept → MayFollow floor kept views note
        → (spans : List Span) × (next : Commit) × FollowsAt floor kept views note spans next }
{}
