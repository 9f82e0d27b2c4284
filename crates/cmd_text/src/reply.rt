//! The texts of replies.
ghost use Rattle.std.specs.Prelude.{◌≡◌, ◌≤◌, ◌+◌, ◌++◌, length, IfOk, IsOk, OnOk, OnErr, decimal, codes};
ghost use Rattle.std.specs.List.{flat_map};
ghost use Rattle.mk_value.specs.Appending.{Writes};
ghost use Rattle.cmd_text.specs.Replies.{contents, refusal_text, reply_bytes, reply_line};

use crate::Refusal;
use mk_value::{Memory, Text};
use std::alloc::Global;

/// What a store takes: the number of its last commit, the end of the file's used part, and the bytes of the extents in use.
#[derive(Clone, Copy, Debug, PartialEq, Eq)]
pub struct Space {
    pub number: u64,
    pub end: u64,
    pub used: u64,
}

/// What a line is answered by.
#[derive(Debug, Drop)]
pub enum Reply {
    /// By nothing.
    Silent,
    /// `ok`.
    Plain,
    /// `ok` and a number.
    Count(u64),
    /// `ok` and two numbers.
    Pair(u64, u64),
    /// `ok none`.
    NotFound,
    /// `ok` and how many lines there are, and these lines, each with its newline.
    Lines(u64, Text),
    /// `ok` and a text.
    One(Text),
    /// `ok` and the text of a row, which may be longer than a line.
    Row(Text),
    /// `ok commit` and its number.
    Commit(u64),
    /// `ok rollback` and the number of the commit.
    Rollback(u64),
    /// `ok reopen` and the number of the commit.
    Reopen(u64),
    /// `ok revert` and the number of the commit.
    Revert(u64),
    /// `ok space` and its three numbers.
    Space(Space),
    /// `ok quit`.
    Quit,
    /// `err`, the refusal's number, its word and its values.
    Refused(Refusal),
}

/// Appends the lines of a reply, each with its newline.
///
/// # Errors
///
/// `Memory`, never where the text fits the spare room.
pub fn reply_text(reply: &Reply, out: &mut Text) -> Result<(), Memory>
    ensures ok { OnOk result (out.new.bytes ≡ out.old.bytes ++ reply_bytes reply.now) }
    ensures err { OnErr result (out.new.bytes ≡ out.old.bytes) }
    ensures roomy { length (reply_bytes reply.now) ≤ out.old.spare → IsOk result }
    ensures spare { out.old.spare ≤ out.new.spare + length (reply_bytes reply.now) }
{
    let before = out.len();
    let appended = append_reply(reply, out);
    if appended.is_err() {
        out.truncate(before);
    }
    appended
}

/// Appends the lines of a reply, or a front of them.
fn append_reply(reply: &Reply, out: &mut Text) -> Result<(), Memory>
    ensures { Writes result out.old (reply_bytes reply.now) out.new }
{
    match reply {
        Reply::Silent => append("", out),
        Reply::Plain => append_line("ok", out),
        Reply::Count(number) => append_numbered_line("ok ", *number, out),
        Reply::Pair(first, second) => append_pair_line("ok ", *first, *second, out),
        Reply::NotFound => append_line("ok none", out),
        Reply::Lines(count, lines) => append_lines(*count, lines.as_str(), out),
        Reply::One(text) | Reply::Row(text) => append_text_line("ok ", text.as_str(), out),
        Reply::Commit(number) => append_numbered_line("ok commit ", *number, out),
        Reply::Rollback(number) => append_numbered_line("ok rollback ", *number, out),
        Reply::Reopen(number) => append_numbered_line("ok reopen ", *number, out),
        Reply::Revert(number) => append_numbered_line("ok revert ", *number, out),
        Reply::Space(space) => append_space(*space, out),
        Reply::Quit => append_line("ok quit", out),
        Reply::Refused(refusal) => append_refusal(*refusal, out),
    }
}

fn append_refusal(refusal: Refusal, out: &mut Text) -> Result<(), Memory>
    ensures { Writes result out.old (reply_line (refusal_text refusal)) out.new }
{
    match refusal {
        Refusal::Memory => append_line("err 1 memory", out),
        Refusal::Syntax(place) => append_numbered_line("err 2 syntax ", place, out),
        Refusal::NoName => append_line("err 3 noname", out),
        Refusal::Exists => append_line("err 4 exists", out),
        Refusal::Range(size) => append_numbered_line("err 5 range ", size, out),
        Refusal::NoProp => append_line("err 6 noprop", out),
        Refusal::Kind => append_line("err 7 kind", out),
        Refusal::Limit => append_line("err 8 limit", out),
        Refusal::Disk => append_line("err 9 disk", out),
        Refusal::Full(end, cap) => append_pair_line("err 10 full ", end, cap, out),
        Refusal::Shut => append_line("err 11 shut", out),
        Refusal::LastNumber => append_line("err 12 lastnumber", out),
        Refusal::Floating(place) => append_numbered_line("err 13 floating ", place, out),
        Refusal::ReadOnly => append_line("err 14 readonly", out),
        Refusal::Damaged(place) => append_numbered_line("err 15 damaged ", place, out),
        Refusal::InUse => append_line("err 16 inuse", out),
        Refusal::Keys(row) => append_numbered_line("err 17 keys ", row, out),
        Refusal::Unsorted => append_line("err 18 unsorted", out),
    }
}

/// Appends the number of the lines on a line of its own, and the lines.
fn append_lines(count: u64, lines: &str, out: &mut Text) -> Result<(), Memory>
    ensures { Writes result out.old (reply_line (codes "ok " ++ decimal count) ++ lines.now) out.new }
{
    append_numbered_line("ok ", count, out)?;
    append(lines, out)
}

/// The lines of these texts, each with its newline.
///
/// # Errors
///
/// `Memory`.
pub fn lines_of(alloc: Global, texts: &[Text]) -> Result<Text, Memory>
    ensures { IfOk result (λ lines. lines.bytes ≡ flat_map reply_line (contents texts.now)) }
{
    let mut lines = Text::new(alloc);
    append_texts(texts, &mut lines)?;
    Ok(lines)
}

/// Appends texts, each on a line of its own.
fn append_texts(texts: &[Text], out: &mut Text) -> Result<(), Memory>
    ensures { Writes result out.old (flat_map reply_line (contents texts.now)) out.new }
{
    for text in texts {
        append_line(text.as_str(), out)?;
    }
    Ok(())
}

fn append_space(space: Space, out: &mut Text) -> Result<(), Memory>
    ensures { Writes result out.old (reply_bytes (Reply.Space space)) out.new }
{
    append_pair("ok space ", space.number, space.end, out)?;
    append_numbered_line(" ", space.used, out)
}

/// Appends words, two numbers with a space between them, and a newline.
fn append_pair_line(words: &str, first: u64, second: u64, out: &mut Text) -> Result<(), Memory>
    ensures { Writes result out.old (reply_line (words.now ++ (decimal first ++ (codes " " ++ decimal second)))) out.new }
{
    append_pair(words, first, second, out)?;
    append("\n", out)
}

/// Appends words, and two numbers with a space between them.
fn append_pair(words: &str, first: u64, second: u64, out: &mut Text) -> Result<(), Memory>
    ensures { Writes result out.old (words.now ++ (decimal first ++ (codes " " ++ decimal second))) out.new }
{
    append_numbered(words, first, out)?;
    append_numbered(" ", second, out)
}

/// Appends words, a number and a newline.
fn append_numbered_line(words: &str, number: u64, out: &mut Text) -> Result<(), Memory>
    ensures { Writes result out.old (reply_line (words.now ++ decimal number)) out.new }
{
    append_numbered(words, number, out)?;
    append("\n", out)
}

/// Appends words, and a number in decimal.
fn append_numbered(words: &str, number: u64, out: &mut Text) -> Result<(), Memory>
    ensures { Writes result out.old (words.now ++ decimal number) out.new }
{
    append(words, out)?;
    append_number(number, out)
}

/// Appends words, a text and a newline.
fn append_text_line(words: &str, text: &str, out: &mut Text) -> Result<(), Memory>
    ensures { Writes result out.old (reply_line (words.now ++ text.now)) out.new }
{
    append(words, out)?;
    append_line(text, out)
}

/// Appends a text and a newline.
fn append_line(text: &str, out: &mut Text) -> Result<(), Memory>
    ensures { Writes result out.old (reply_line text.now) out.new }
{
    append(text, out)?;
    append("\n", out)
}

fn append_number(number: u64, out: &mut Text) -> Result<(), Memory>
    ensures { Writes result out.old (decimal number) out.new }
{
    out.push_integer(number)
}

fn append(text: &str, out: &mut Text) -> Result<(), Memory>
    ensures { Writes result out.old text.now out.new }
{
    out.push_str(text)
}
