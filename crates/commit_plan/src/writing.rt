//! Writing the blocks of a plan.
ghost use Rattle.std.specs.Prelude.{◌≡◌, ◌+◌, ◌^◌, ◌<◌, ◌≤◌, length, map};
ghost use Rattle.block_io.specs.Parts.{rounded};
ghost use Rattle.commit_writes.specs.Blocks.{AreWritable, BeginWithin, Block};
ghost use Rattle.commit_writes.specs.Writing.{PutsBlocks};
ghost use Rattle.free_space.specs.Extents.{extent_len};
ghost use Rattle.host_io.specs.Calls.{CountsDisk};
ghost use Rattle.commit_plan.specs.Payloads.{payload_bytes};
ghost use Rattle.commit_plan.specs.Plans.{blocks_written};
ghost use Rattle.commit_plan.specs.Written.{PutsSome};

use crate::parts::part_of;
use crate::payload::Payload;
use crate::planned::Plan;
use block_io::write_block;
use commit_writes::WritesBlocks;
use host_io::{Disk, Failed};
use mk_value::Span;

impl WritesBlocks for Plan {
    ghost blocks = { λ p. p.writes };

    fn write<D: Disk>(&self, disk: &mut D) -> Result<(), Failed> {
        write_blocks(disk, &self.payloads, &self.spans)
    }
}

/// Writes payloads at their spans, one after another. It takes no memory.
fn write_blocks<D: Disk>(disk: &mut D, payloads: &[Payload], spans: &[Span]) -> Result<(), Failed>
    requires writable { AreWritable (blocks_written spans.now (map payload_bytes payloads.now)) }
    requires begins { D.tells → BeginWithin (length (D.outside disk.old).now.disk.seen) (blocks_written spans.now (map payload_bytes payloads.now)) }
    ensures counts { CountsDisk (D.outside disk.old) (D.outside disk.new) result }
    ensures writes { D.tells → PutsBlocks (blocks_written spans.now (map payload_bytes payloads.now)) (D.outside disk.old) (D.outside disk.new) result }
{
    'payloads: for at in 0..payloads.len().min(spans.len()) {
        write_some(disk, &payloads[at], spans[at])?;
    }
    Ok(())
}

/// Writes a payload at its span, if it has bytes.
fn write_some<D: Disk>(disk: &mut D, payload: &Payload, span: Span) -> Result<(), Failed>
    requires ends { 0 < span.len → span.place + extent_len (length (payload_bytes payload.now)) < 2 ^ 64 }
    requires within { D.tells → 0 < span.len → span.place ≤ length (D.outside disk.old).now.disk.seen }
    ensures counts { CountsDisk (D.outside disk.old) (D.outside disk.new) result }
    ensures writes { D.tells → PutsSome span (payload_bytes payload.now) (D.outside disk.old) (D.outside disk.new) result }
{
    if span.len == 0 {
        return Ok(());
    }
    write_block(disk, span.place, &part_of(payload))
}
