ghost use Rattle.std.specs.Prelude.{◌≡◌, List, length};
ghost use Rattle.host_io.specs.Calls.{CountsDisk};
ghost use Rattle.commit_writes.specs.Blocks.{Block, AreWritable, BeginWithin};
ghost use Rattle.commit_writes.specs.Writing.{PutsBlocks};

use host_io::{Disk, Failed};

/// What writes the blocks of a commit, one after another, and does not sync.
pub trait WritesBlocks {
    /// The blocks, in the order in which they are written.
    ghost blocks: { Self → List Block };

    fn write<D: Disk>(&self, disk: &mut D) -> Result<(), Failed>
        requires writable { AreWritable (blocks self.now) }
        requires begins { D.tells → BeginWithin (length (D.outside disk.old).now.disk.seen) (blocks self.now) }
        ensures counts { CountsDisk (D.outside disk.old) (D.outside disk.new) result }
        ensures writes { D.tells → PutsBlocks (blocks self.now) (D.outside disk.old) (D.outside disk.new) result };
}
