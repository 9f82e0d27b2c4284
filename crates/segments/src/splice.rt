//! A splice of a list, and the segments that it replaces.
ghost use Rattle.std.specs.Prelude.{◌≡◌, ◌+◌, ◌-◌, ◌^◌, ◌<◌, ◌≤◌};

/// So many items in place of those from `at` up to `end`.
#[derive(Clone, Copy, Debug)]
pub struct Splice {
    pub at: usize,
    pub end: usize,
    pub count: usize,
}

/// The segments that a splice replaces: those from `first` up to `after`, which hold the items from `start` up to `stop`.
#[derive(Clone, Copy, Debug)]
pub struct Replaced {
    pub first: usize,
    pub after: usize,
    pub start: usize,
    pub stop: usize,
}

impl Splice {
    ghost use Rattle.segments.specs.Splices.{size_after};

    /// How many items stand in place of those of the replaced segments.
    pub fn size_after(&self, replaced: &Replaced) -> usize
        requires before { replaced.now.start ≤ self.now.at }
        requires behind { self.now.end ≤ replaced.now.stop }
        requires fits { size_after self.now replaced.now < 2 ^ 64 }
        ensures { result ≡ size_after self.now replaced.now }
    {
        (self.at - replaced.start) + self.count + (replaced.stop - self.end)
    }
}
