//! Runs and sessions without viewers, over the host in memory.
ghost use Rattle.std.specs.Prelude.{◌≤◌, IfOk};
ghost use Rattle.host_io.specs.Disk.{IsSettled};
ghost use Rattle.host_io.specs.Memory.{outside_of};
ghost use Rattle.lines.specs.Lines.{max_budget};
ghost use Rattle.lines.specs.Served.{state_of};
ghost use Rattle.session.specs.Disk.{IsSteady};

use host_io::{Disk, Fault, Host, MemHost};
use lines::MAX_LINE;
use mk_value::{Bytes, Memory, Text};
use session::Session;
use shell::Status;
use std::alloc::Global;
use viewers::StoredViewer;

/// The bytes that a host has room to write and to say.
const ROOM: usize = 16_384;

/// A host over a file that holds the image, with the input and its faults.
pub fn host(alloc: Global, image: &[u8], input: &[u8], script: &[Fault]) -> Result<MemHost, Memory>
    ensures { IfOk result (λ host. IsSettled (outside_of host).now.disk) }
{
    MemHost::new(alloc, image, input, script, 0, ROOM)
}

/// Runs the program where no viewer may be asked.
pub fn run<H: Host>(alloc: Global, words: &[&str], host: &mut H) -> Status
    requires { H.tells → IsSettled (H.outside host.old).now.disk }
{
    let viewers: [StoredViewer; 0] = [];
    shell::run(alloc, words, &viewers, host)
}

/// Runs the program, which may be asked to serve a base, where no viewer may be asked.
pub fn run_over<H: Host, B: Disk>(
    alloc: Global,
    words: &[&str],
    host: &mut H,
    base: &mut B,
) -> Status
    requires settled { H.tells → IsSettled (H.outside host.old).now.disk }
    requires base { B.tells → IsSettled (B.outside base.old).now.disk }
{
    let viewers: [StoredViewer; 0] = [];
    aside_run::run_over(alloc, words, &viewers, host, base)
}

/// Serves lines, of so many bytes at most, in a session where no viewer may be asked.
pub fn serve<H: Host>(
    alloc: Global,
    session: &mut Session,
    host: &mut H,
    budget: u64,
) -> Result<Status, Memory>
    requires budget { budget ≤ max_budget }
    requires ready { H.tells → IsSteady (state_of session.old (H.outside host.old)) }
{
    let mut room = Bytes::with_room(alloc, MAX_LINE + 1)?;
    let mut reply = Text::with_room(alloc, MAX_LINE + 1)?;
    let viewers: [StoredViewer; 0] = [];
    Ok(shell::serve(session, host, &viewers, &mut room, &mut reply, budget))
}
