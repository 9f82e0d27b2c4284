ghost use Rattle.std.specs.Prelude.{◌≡◌, ◌≤◌, map};
ghost use Rattle.host_io.specs.Calls.{Rose};
ghost use Rattle.lines.specs.Lines.{max_budget};
ghost use Rattle.lines.specs.Rooms.{IsClear};
ghost use Rattle.lines.specs.Served.{state_of};
ghost use Rattle.session.specs.Disk.{IsSteady};
ghost use Rattle.shell.specs.Ran.{IsServed, ServesAs};

use crate::status::Status;
use host_io::Host;
use mk_value::{Bytes, Text};
use session::{Session, Viewers};
use viewers::Viewer;

/// Answers the lines that the host gives, in a session whose expressions may ask the viewers, until the input ends, a line ends the session, the input or the output
/// fails, or more bytes come than the budget allows, and one byte more is asked for only to tell that.
///
/// `room` holds the line that has not ended, and `out` the reply to a line; both come empty, with room for a line of 1,048,576 bytes
/// and its newline. The run takes no memory for itself.
pub fn serve<H: Host, V: Viewer>(
    session: &mut Session,
    host: &mut H,
    viewers: &[V],
    room: &mut Bytes,
    out: &mut Text,
    budget: u64,
) -> Status
    requires room { IsClear room.old }
    requires out { IsClear out.old }
    requires budget { budget ≤ max_budget }
    requires ready { H.tells → IsSteady (state_of session.old (H.outside host.old)) }

    ensures serves { H.tells → ServesAs (map V.meaning viewers.now) result budget session.old session.new (H.outside host.old) (H.outside host.new) }
    ensures ready { H.tells → IsSteady (state_of session.new (H.outside host.new)) }
    ensures status { IsServed result }

    // A fault is told only where one came.
    ensures take_fault { result ≡ Status.TakeFault → Rose (H.outside host.old).take_faults (H.outside host.new).take_faults }
    ensures say_fault { result ≡ Status.SayFault → Rose (H.outside host.old).say_faults (H.outside host.new).say_faults }

    // No count of faults falls, and what the host stands over stays.
    ensures take_faults { (H.outside host.old).take_faults ≤ (H.outside host.new).take_faults }
    ensures say_faults { (H.outside host.old).say_faults ≤ (H.outside host.new).say_faults }
    ensures disk_faults { (H.outside host.old).disk_faults ≤ (H.outside host.new).disk_faults }
    ensures source { (H.outside host.new).source ≡ (H.outside host.old).source }
{
    let context = Viewers { list: viewers };
    lines::serve(session, host, &context, room, out, budget).into()
}
