ghost use Rattle.std.specs.Prelude.{◌≡◌, ℕ, ◌+◌, ◌≤◌, List, [], length, take, OnOk};
ghost use Rattle.mk_value.specs.Buffer.{Buffer};
ghost use Rattle.host_io.specs.Outside.{Outside};
ghost use Rattle.host_io.specs.Calls.{Counts};
ghost use Rattle.lines.specs.Lines.{max_line};
ghost use Rattle.lines.specs.Crash.{IsReady};
ghost use Rattle.lines.specs.Served.{state_of};
ghost use Rattle.lines.specs.Rooms.{IsClear};
ghost use Rattle.lines.specs.Steps.{AnswersLine};

use crate::saying::say_all;
use crate::session::{Flow, MAX_LINE, Session};
use host_io::{Failed, Host};
use mk_value::Text;

/// The answer to a line that is too long.
const LIMIT_REPLY: &[u8] = b"err 8 limit\n";

/// Answers a line and says the answer whole. What is held of the line is all of it, or its first `MAX_LINE + 1` bytes
/// where it is too long.
pub(crate) fn answer_line<H: Host, C, S: Session<H, C>>(
    session: &mut S,
    host: &mut H,
    context: &C,
    held: &[u8],
    out: &mut Text,
) -> Result<Flow, Failed>
    requires short { length held.now ≤ max_line + 1 }
    requires clear { IsClear out.old }
    requires ready { H.tells → IsReady (S.machine context.now) (state_of session.old (H.outside host.old)) }

    ensures answers { H.tells → (line : List ℕ) → held.now ≡ take (max_line + 1) line
        → AnswersLine (S.machine context.now) line session.old session.new (H.outside host.old) (H.outside host.new) result }
    ensures ready { H.tells → IsReady (S.machine context.now) (state_of session.new (H.outside host.new)) }
    ensures clear { OnOk result (IsClear out.new) }

    ensures say_faults { Counts (H.outside host.old).say_faults (H.outside host.new).say_faults result }
    ensures take_faults { (H.outside host.new).take_faults ≡ (H.outside host.old).take_faults }
    ensures disk_faults { (H.outside host.old).disk_faults ≤ (H.outside host.new).disk_faults }
    ensures source { (H.outside host.new).source ≡ (H.outside host.old).source }
{
    if held.len() > MAX_LINE {
        say_all(host, LIMIT_REPLY)?;
        return Ok(Flow::Goes);
    }
    let flow = session.answer(host, context, held, out);
    say_all(host, out.as_str().as_bytes())?;
    out.clear();
    Ok(flow)
}
