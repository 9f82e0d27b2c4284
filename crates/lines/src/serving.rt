ghost use Rattle.std.specs.Prelude.{◌≡◌, ℕ, ◌+◌, ◌≤◌, ◌<◌, List, [], length, ◌⊎◌, IfOk, OnOk, MatchResult};
ghost use Rattle.mk_value.specs.Buffer.{Buffer};
ghost use Rattle.host_io.specs.Outside.{Outside};
ghost use Rattle.host_io.specs.Calls.{Rose};
ghost use Rattle.lines.specs.Lines.{max_line, max_budget};
ghost use Rattle.lines.specs.Crash.{IsReady};
ghost use Rattle.lines.specs.Served.{Serves, state_of};
ghost use Rattle.lines.specs.Rooms.{HasLineRoom, IsClear};
ghost use Rattle.lines.specs.Steps.{SoFar};

use crate::answering::answer_line;
use crate::feeding::feed_piece;
use crate::session::{Flow, Session};
use host_io::{Failed, Host};
use mk_value::{Bytes, Text};

/// The most bytes that a run takes.
pub const MAX_BUDGET: u64 = 1 << 40;

/// The most bytes of one take.
const PIECE: usize = 4096;

/// How a run ended.
#[derive(Clone, Copy, Debug, PartialEq, Eq)]
pub enum End {
    /// The input was read to its end, or a line ended the session.
    Done,
    /// A take failed. A line that had not ended is not answered.
    TakeFault,
    /// The output failed within an answer.
    SayFault,
    /// More bytes came than the budget allows. A line that had not ended before them is not answered.
    TooMuch,
}

/// Ends a run whose input has ended: what stands behind the last newline is a line too, unless it is empty.
fn end_input<H: Host, C, S: Session<H, C>>(
    session: &mut S,
    host: &mut H,
    context: &C,
    room: &mut Bytes,
    out: &mut Text,
) -> End
    requires room { HasLineRoom room.old }
    requires clear { IsClear out.old }
    requires ready { H.tells → IsReady (S.machine context.now) (state_of session.old (H.outside host.old)) }
    requires over { H.tells → (H.outside host.old).input ≡ [] }

    ensures serves { H.tells → (start : S) (begin : Outside) (budget count : ℕ) → count ≤ budget
        → SoFar (S.machine context.now) start begin session.old (H.outside host.old) room.old.bytes [] count
        → Serves (S.machine context.now) budget result start session.new begin (H.outside host.new) }
    ensures ready { H.tells → IsReady (S.machine context.now) (state_of session.new (H.outside host.new)) }
    ensures done_or_unsaid { (result ≡ End.Done) ⊎ (result ≡ End.SayFault) }

    ensures say_fault { result ≡ End.SayFault → Rose (H.outside host.old).say_faults (H.outside host.new).say_faults }
    ensures say_faults { (H.outside host.old).say_faults ≤ (H.outside host.new).say_faults }
    ensures take_faults { (H.outside host.new).take_faults ≡ (H.outside host.old).take_faults }
    ensures disk_faults { (H.outside host.old).disk_faults ≤ (H.outside host.new).disk_faults }
    ensures source { (H.outside host.new).source ≡ (H.outside host.old).source }
{
    if room.is_empty() {
        return End::Done;
    }
    match answer_line(session, host, context, room.as_slice(), out) {
        Ok(_) => End::Done,
        Err(Failed) => End::SayFault,
    }
}

/// Takes bytes into a piece that has room, and looks at them. Gives their number, or how the run ended.
fn take_piece<H: Host, C, S: Session<H, C>>(
    session: &mut S,
    host: &mut H,
    context: &C,
    room: &mut Bytes,
    out: &mut Text,
    piece: &mut [u8],
) -> Result<usize, End>
    requires some { 0 < length piece.old }
    requires room { HasLineRoom room.old }
    requires clear { IsClear out.old }
    requires ready { H.tells → IsReady (S.machine context.now) (state_of session.old (H.outside host.old)) }

    ensures within { IfOk result (λ count. count ≤ length piece.old) }
    ensures progress { IfOk result (λ count. 0 < count) }
    ensures comes { H.tells → (start : S) (begin : Outside) (budget taken : ℕ) → taken + length piece.old ≤ budget
        → SoFar (S.machine context.now) start begin session.old (H.outside host.old) room.old.bytes [] taken
        → MatchResult result
        (λ count. SoFar (S.machine context.now) start begin session.new (H.outside host.new) room.new.bytes [] (taken + count))
        (λ end. Serves (S.machine context.now) budget end start session.new begin (H.outside host.new)) }
    ensures ready { H.tells → IsReady (S.machine context.now) (state_of session.new (H.outside host.new)) }
    ensures room { OnOk result (HasLineRoom room.new) }
    ensures clear { OnOk result (IsClear out.new) }

    ensures take_fault { result ≡ Err End.TakeFault → Rose (H.outside host.old).take_faults (H.outside host.new).take_faults }
    ensures say_fault { result ≡ Err End.SayFault → Rose (H.outside host.old).say_faults (H.outside host.new).say_faults }
    ensures take_faults { (H.outside host.old).take_faults ≤ (H.outside host.new).take_faults }
    ensures say_faults { (H.outside host.old).say_faults ≤ (H.outside host.new).say_faults }
    ensures disk_faults { (H.outside host.old).disk_faults ≤ (H.outside host.new).disk_faults }
    ensures source { (H.outside host.new).source ≡ (H.outside host.old).source }
{
    let Ok(count) = host.take(piece) else {
        return Err(End::TakeFault);
    };
    if count == 0 {
        return Err(end_input(session, host, context, room, out));
    }
    match feed_piece(session, host, context, room, out, &piece[..count]) {
        Ok(Flow::Goes) => Ok(count),
        Ok(Flow::Ends) => Err(End::Done),
        Err(Failed) => Err(End::SayFault),
    }
}

/// Ends a run whose budget is spent: one more byte is asked for, and if it comes it belongs to no line.
fn end_budget<H: Host, C, S: Session<H, C>>(
    session: &mut S,
    host: &mut H,
    context: &C,
    room: &mut Bytes,
    out: &mut Text,
) -> End
    requires room { HasLineRoom room.old }
    requires clear { IsClear out.old }
    requires ready { H.tells → IsReady (S.machine context.now) (state_of session.old (H.outside host.old)) }

    ensures serves { H.tells → (start : S) (begin : Outside) (budget : ℕ)
        → SoFar (S.machine context.now) start begin session.old (H.outside host.old) room.old.bytes [] budget
        → Serves (S.machine context.now) budget result start session.new begin (H.outside host.new) }
    ensures ready { H.tells → IsReady (S.machine context.now) (state_of session.new (H.outside host.new)) }

    ensures take_fault { result ≡ End.TakeFault → Rose (H.outside host.old).take_faults (H.outside host.new).take_faults }
    ensures say_fault { result ≡ End.SayFault → Rose (H.outside host.old).say_faults (H.outside host.new).say_faults }
    ensures take_faults { (H.outside host.old).take_faults ≤ (H.outside host.new).take_faults }
    ensures say_faults { (H.outside host.old).say_faults ≤ (H.outside host.new).say_faults }
    ensures disk_faults { (H.outside host.old).disk_faults ≤ (H.outside host.new).disk_faults }
    ensures source { (H.outside host.new).source ≡ (H.outside host.old).source }
{
    let mut byte = [0];
    match host.take(&mut byte) {
        Ok(0) => end_input(session, host, context, room, out),
        Ok(_) => End::TooMuch,
        Err(Failed) => End::TakeFault,
    }
}

/// Answers the lines that the host gives, until the input ends, a line ends the session, a take or a piece said fails,
/// or more bytes come than the budget allows.
///
/// `room` holds the line that has not ended and `out` the answer to it; both come empty with room for
/// `MAX_LINE + 1` bytes, and what they hold afterwards is left open. The run takes no memory.
///
/// A call of the session's disk that fails is the session's to answer, and ends no run.
pub fn serve<H: Host, C, S: Session<H, C>>(
    session: &mut S,
    host: &mut H,
    context: &C,
    room: &mut Bytes,
    out: &mut Text,
    budget: u64,
) -> End
    requires room { IsClear room.old }
    requires out { IsClear out.old }
    requires budget { budget ≤ max_budget }
    requires ready { H.tells → IsReady (S.machine context.now) (state_of session.old (H.outside host.old)) }

    ensures serves { H.tells → Serves (S.machine context.now) budget result session.old session.new (H.outside host.old) (H.outside host.new) }
    ensures ready { H.tells → IsReady (S.machine context.now) (state_of session.new (H.outside host.new)) }

    // A fault is told only where one came.
    ensures take_fault { result ≡ End.TakeFault → Rose (H.outside host.old).take_faults (H.outside host.new).take_faults }
    ensures say_fault { result ≡ End.SayFault → Rose (H.outside host.old).say_faults (H.outside host.new).say_faults }

    // No count of faults falls, and what the host stands over stays.
    ensures take_faults { (H.outside host.old).take_faults ≤ (H.outside host.new).take_faults }
    ensures say_faults { (H.outside host.old).say_faults ≤ (H.outside host.new).say_faults }
    ensures disk_faults { (H.outside host.old).disk_faults ≤ (H.outside host.new).disk_faults }
    ensures source { (H.outside host.new).source ≡ (H.outside host.old).source }
{
    let mut piece = [0; PIECE];
    let mut left = budget;
    'taking: while left > 0 {
        let most = left.min(PIECE as u64) as usize;
        match take_piece(session, host, context, room, out, &mut piece[..most]) {
            Ok(count) => left -= count as u64,
            Err(end) => return end,
        }
    }
    end_budget(session, host, context, room, out)
}
