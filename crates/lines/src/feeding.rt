ghost use Rattle.std.specs.Prelude.{◌≡◌, ℕ, ◌+◌, ◌≤◌, ◌<◌, List, [], ◌++◌, length, take, slice_index, MatchOption, IfSome, IfOk};
ghost use Rattle.mk_value.specs.Buffer.{Buffer};
ghost use Rattle.host_io.specs.Outside.{Outside};
ghost use Rattle.host_io.specs.Calls.{Counts};
ghost use Rattle.lines.specs.Lines.{HasNoNewline, newline, max_line};
ghost use Rattle.lines.specs.Crash.{IsReady};
ghost use Rattle.lines.specs.Served.{state_of};
ghost use Rattle.lines.specs.Rooms.{HasLineRoom, IsClear};
ghost use Rattle.lines.specs.Steps.{SoFar, Comes};

use crate::answering::answer_line;
use crate::session::{Flow, MAX_LINE, Session};
use host_io::{Failed, Host};
use memchr::memchr;
use mk_value::{Bytes, Text};

/// Where the first newline stands.
fn find_newline(bytes: &[u8]) -> Option<usize>
    ensures within { IfSome result (λ at. at < length bytes.now) }
    ensures found { IfSome result (λ at. slice_index bytes.now at ≡ newline) }
    ensures front { MatchOption result (HasNoNewline bytes.now) (λ at. HasNoNewline (take at bytes.now)) }
{
    memchr(b'\n', bytes)
}

/// Appends bytes of a line to the line room, as far as it goes: a full room tells that the line is too long.
fn keep(room: &mut Bytes, bytes: &[u8])
    requires { HasLineRoom room.old }
    ensures room { HasLineRoom room.new }
    ensures held { room.new.bytes ≡ take (max_line + 1) (room.old.bytes ++ bytes.now) }
{
    let free = MAX_LINE + 1 - room.len();
    let count = bytes.len().min(free);
    room.push_slice(&bytes[..count]).unwrap();
}

/// Looks at the bytes of a piece: answers each line that ends in it, and keeps the front of the one that does not.
/// Where a line ends the session, the bytes behind it are not looked at.
pub(crate) fn feed_piece<H: Host, C, S: Session<H, C>>(
    session: &mut S,
    host: &mut H,
    context: &C,
    room: &mut Bytes,
    out: &mut Text,
    piece: &[u8],
) -> Result<Flow, Failed>
    requires room { HasLineRoom room.old }
    requires clear { IsClear out.old }
    requires ready { H.tells → IsReady (S.machine context.now) (state_of session.old (H.outside host.old)) }

    ensures comes { H.tells → (start : S) (begin : Outside) (budget count : ℕ) → count + length piece.now ≤ budget
        → SoFar (S.machine context.now) start begin session.old (H.outside host.old) room.old.bytes piece.now count
        → Comes (S.machine context.now) budget start begin session.new (H.outside host.new) room.new.bytes [] (count + length piece.now) result }
    ensures ready { H.tells → IsReady (S.machine context.now) (state_of session.new (H.outside host.new)) }
    ensures room { IfOk result (λ flow. flow ≡ Flow.Goes → HasLineRoom room.new) }
    ensures clear { IfOk result (λ flow. flow ≡ Flow.Goes → IsClear out.new) }

    ensures say_faults { Counts (H.outside host.old).say_faults (H.outside host.new).say_faults result }
    ensures take_faults { (H.outside host.new).take_faults ≡ (H.outside host.old).take_faults }
    ensures disk_faults { (H.outside host.old).disk_faults ≤ (H.outside host.new).disk_faults }
    ensures source { (H.outside host.new).source ≡ (H.outside host.old).source }
{
    let mut from = 0;
    'lines: while let Some(len) = find_newline(&piece[from..]) {
        keep(room, &piece[from..from + len]);
        match answer_line(session, host, context, room.as_slice(), out)? {
            Flow::Goes => room.clear(),
            Flow::Ends => return Ok(Flow::Ends),
        }
        from += len + 1;
    }
    keep(room, &piece[from..]);
    Ok(Flow::Goes)
}
