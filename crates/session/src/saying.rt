//! Writing replies into the room that was made for them.
ghost use Rattle.std.specs.Prelude.{◌≡◌, ◌⊎◌, ◌≤◌, ◌++◌, decimal, length, IsOk, OnErr, OnOk};
ghost use Rattle.cmd_text.specs.Replies.{reply_bytes};
ghost use Rattle.session.specs.Saying.{FitsIn, IsUnbounded, KeepsRoom};

use cmd_text::{Refusal, Reply, reply_text};
use mk_value::{Memory, Text};

/// The most bytes of a refusal's reply: its words, and two numbers of at most 20 digits.
pub const MAX_REFUSAL: usize = 60;

/// Appends a refusal, which fits.
pub fn refuse(refusal: Refusal, out: &mut Text)
    requires { MAX_REFUSAL ≤ out.old.spare }
    ensures bytes { out.new.bytes ≡ out.old.bytes ++ reply_bytes (Reply.Refused refusal) }
    ensures room { KeepsRoom out.old out.new }
{
    is_short_refusal(refusal);
    let _ = reply_text(&Reply::Refused(refusal), out);
}

/// Appends the reply to a line that ends the session, which fits.
pub fn say_quit(out: &mut Text)
    requires { 8 ≤ out.old.spare }
    ensures bytes { out.new.bytes ≡ out.old.bytes ++ reply_bytes Reply.Quit }
    ensures room { KeepsRoom out.old out.new }
{
    let _ = reply_text(&Reply::Quit, out);
}

/// A refusal's reply has at most 60 bytes, since its numbers have 64 bits.
pub fn is_short_refusal(refusal: Refusal)
    ensures { length (reply_bytes (Reply.Refused refusal)) ≤ MAX_REFUSAL }
{
    match refusal {
        Refusal::Syntax(number) => is_short_number(number),
        Refusal::Range(number) => is_short_number(number),
        Refusal::Floating(number) => is_short_number(number),
        Refusal::Damaged(number) => is_short_number(number),
        Refusal::Keys(number) => is_short_number(number),
        Refusal::Full(end, cap) => {
            is_short_number(end);
            is_short_number(cap);
        }
        _ => {}
    }
}

/// A number of 64 bits has at most 20 digits.
pub fn is_short_number(number: u64)
    ensures { length (decimal number) ≤ 20 }
{}

/// Appends a reply. Only one of lines or of a row may want memory; then the room is as it was.
pub fn say(reply: &Reply, out: &mut Text) -> Result<(), Memory>
    requires { FitsIn out.old.spare reply.now }
    ensures ok { OnOk result (out.new.bytes ≡ out.old.bytes ++ reply_bytes reply.now) }
    ensures err { OnErr result (out.new.bytes ≡ out.old.bytes) }
    ensures short { IsUnbounded reply.now ⊎ IsOk result }
    ensures room { KeepsRoom out.old out.new }
{
    make_room(reply, out)?;
    reply_text(reply, out)
}

/// Makes room for a reply.
fn make_room(reply: &Reply, out: &mut Text) -> Result<(), Memory>
    requires { FitsIn out.old.spare reply.now }
    ensures ok { OnOk result (length (reply_bytes reply.now) ≤ out.new.spare) }
    ensures same { out.new.bytes ≡ out.old.bytes }
    ensures short { IsUnbounded reply.now ⊎ IsOk result }
    ensures spare { out.old.spare ≤ out.new.spare }
{
    match reply {
        Reply::Lines(count, lines) => {
            is_short_number(*count);
            match lines.len().checked_add(24) {
                Some(size) => out.reserve(size),
                None => Err(Memory),
            }
        }
        Reply::Row(text) => match text.len().checked_add(4) {
            Some(size) => out.reserve(size),
            None => Err(Memory),
        },
        _ => Ok(()),
    }
}
