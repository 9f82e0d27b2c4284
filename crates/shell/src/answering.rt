//! The lines of a sample are answered one by one, in silence.
ghost use Rattle.std.specs.Prelude.{◌≡◌, ◌+◌, ◌≤◌, [], length, is_err, OnOk};
ghost use Rattle.host_io.specs.Outside.{Outside};
ghost use Rattle.lines.specs.Crash.{IsReady};
ghost use Rattle.lines.specs.Lines.{max_line};
ghost use Rattle.lines.specs.Rooms.{IsClear};
ghost use Rattle.lines.specs.Served.{state_of};
ghost use Rattle.shell.specs.Sampled.{AnswersAll, AnswersOne, GoesOnAfterVerbs, IsLineRoom, is_refusal};

use host_io::Host;
use lines::Session;
use mk_value::Text;
use sample::Sample;

/// A line was refused.
#[derive(Clone, Copy, Debug, PartialEq, Eq)]
pub(crate) struct Refused;

/// Answers the lines that are left of a sample, up to the first that is refused: its reply stands in `out` then.
pub(crate) fn answer_all<H: Host, C, S: Session<H, C>>(
    session: &mut S,
    host: &mut H,
    context: &C,
    sample: &mut Sample,
    line: &mut Text,
    out: &mut Text,
) -> Result<(), Refused>
    requires goes_on { GoesOnAfterVerbs (S.machine context.now) }
    requires line { IsLineRoom line.old }
    requires out { IsClear out.old }
    requires ready { H.tells → IsReady (S.machine context.now) (state_of session.old (H.outside host.old)) }
    ensures comes { H.tells → AnswersAll (S.machine context.now) sample.old out.new.bytes session.old session.new (H.outside host.old) (H.outside host.new) result }
    ensures ready { H.tells → IsReady (S.machine context.now) (state_of session.new (H.outside host.new)) }
    ensures clear { OnOk result (IsClear out.new) }
    ensures say_faults { (H.outside host.new).say_faults ≡ (H.outside host.old).say_faults }
    ensures source { (H.outside host.new).source ≡ (H.outside host.old).source }
{
    'lines: while sample.next_line(line) {
        answer_one(session, host, context, line, out)?;
        line.clear();
        out.clear();
    }
    Ok(())
}

/// Answers one line.
fn answer_one<H: Host, C, S: Session<H, C>>(
    session: &mut S,
    host: &mut H,
    context: &C,
    line: &Text,
    out: &mut Text,
) -> Result<(), Refused>
    requires short { length line.now.bytes ≤ max_line }
    requires clear { IsClear out.old }
    requires ready { H.tells → IsReady (S.machine context.now) (state_of session.old (H.outside host.old)) }
    ensures answers { H.tells → AnswersOne (S.machine context.now) line.now.bytes out.new.bytes session.old session.new (H.outside host.old) (H.outside host.new) }
    ensures ready { H.tells → IsReady (S.machine context.now) (state_of session.new (H.outside host.new)) }
    ensures refused { is_refusal out.new.bytes ≡ is_err result }
    ensures room { max_line + 1 ≤ out.new.spare + length out.new.bytes }
    ensures say_faults { (H.outside host.new).say_faults ≡ (H.outside host.old).say_faults }
    ensures source { (H.outside host.new).source ≡ (H.outside host.old).source }
{
    session.answer(host, context, line.as_str().as_bytes(), out);
    if is_refusal(out) {
        Err(Refused)
    } else {
        Ok(())
    }
}

/// Whether a reply is a refusal.
fn is_refusal(reply: &Text) -> bool
    ensures { result ≡ is_refusal reply.now.bytes }
{
    reply.as_str().as_bytes().starts_with(b"err ")
}
