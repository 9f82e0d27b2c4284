//! The plan of a commit.
ghost use Rattle.std.specs.Prelude.{◌≡◌};

use crate::payload::Payload;
use mk_value::Span;
use recovery::Kept;
use std::marker::Model;

/// A commit that may be written: what it keeps, and its blocks. A caller sees the commit and the blocks that are written for it.
#[derive(Drop)]
pub struct Plan {
    pub(crate) next: Kept,
    pub(crate) payloads: Vec<Payload>,
    pub(crate) spans: Vec<Span>,
}

impl Model for Plan {
    ghost use Rattle.std.specs.Prelude.{map};
    ghost use Rattle.recovery.specs.Keeping.{commit_in};
    ghost use Rattle.commit_plan.specs.Payloads.{payload_bytes};
    ghost use Rattle.commit_plan.specs.Plans.{Planned, blocks_written, planned_code};

    ghost Value = { Planned };

    ghost coded = { planned_code };

    ghost view = { λ p. record { next = commit_in p.next; writes = blocks_written p.spans.items (map payload_bytes p.payloads.items) } };
}

impl Plan {
    ghost use Rattle.recovery.specs.Keeping.{commit_in};

    /// The commit that is planned.
    pub fn next(&self) -> &Kept
        ensures { commit_in result.now ≡ self.now.next }
    {
        &self.next
    }

    /// The commit that is planned, once it was written. It takes no memory.
    pub fn into_next(self) -> Kept
        ensures { commit_in result ≡ self.next }
    {
        self.next
    }
}
