//! What a store's commit takes up of its file.
ghost use Rattle.std.specs.Prelude.{◌≡◌};
ghost use Rattle.recovery.specs.Commits.{IsCommit};
ghost use Rattle.storage.specs.Spaces.{report_of, space_of};

use crate::Store;
use commit_plan::measure;

/// The number of a commit, the end of the file's used part, and the sum of the extents of the commit's blocks, its directory among
/// them, in bytes. The sum stands still at 2^64 - 1.
#[derive(Clone, Copy, Debug, PartialEq, Eq)]
pub struct Space {
    pub number: u64,
    pub end: u64,
    pub used: u64,
}

/// What a file was found to have: the space of its commit, how many views, and how many blocks that have bytes, its directory among
/// them.
#[derive(Clone, Copy, Debug, PartialEq, Eq)]
pub struct Report {
    pub space: Space,
    pub views: usize,
    pub blocks: u64,
}

impl Store {
    /// The space of the commit that the file stands for. It takes no memory, and time in the number of tables, columns and blocks.
    pub fn space(&self) -> Space
        ensures { result ≡ space_of self.now.kept }
    {
        self.report().space
    }

    /// The space, the views and the blocks of the commit that the file stands for. It takes no memory.
    pub fn report(&self) -> Report
        ensures value { result ≡ report_of self.now.kept }
        ensures whole { IsCommit self.now.kept }
    {
        let kept = self.kept();
        let usage = measure(kept);
        Report {
            space: Space {
                number: kept.number,
                end: kept.end,
                used: usage.bytes,
            },
            views: kept.views.tables().len(),
            blocks: usage.blocks,
        }
    }
}
