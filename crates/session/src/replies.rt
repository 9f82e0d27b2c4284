//! The reply to what the function of a command gave. Each but one of lines or of a row is no longer than a line.
ghost use Rattle.std.specs.Prelude.{◌≡◌, ◌⊎◌, ◌+◌, ◌≤◌, length, IfOk};
ghost use Rattle.cmd_text.specs.Replies.{reply_bytes};
ghost use Rattle.lines.specs.Lines.{max_line};
ghost use Rattle.session.specs.Answered.{reply_of};
ghost use Rattle.session.specs.Questions.{located_reply, place_reply, refusal_of_question};
ghost use Rattle.session.specs.Saying.{IsOneLine, IsUnbounded};

use crate::refusals::of_question;
use crate::saying::{is_short_number, is_short_refusal};
use cmd_text::{Refusal, Reply, Space};
use mk_value::Text;
use questions::{Located, QuestionError};

/// Nothing but that it was done, or the refusal.
pub fn done(answer: Result<(), Refusal>) -> Reply
    ensures value { result ≡ reply_of (λ _. Reply.Plain) answer }
    ensures short { length (reply_bytes result) ≤ max_line }
{
    match answer {
        Ok(()) => Reply::Plain,
        Err(refusal) => refused(refusal),
    }
}

/// A number, or the refusal.
pub fn count(answer: Result<u64, Refusal>) -> Reply
    ensures value { result ≡ reply_of (λ number. Reply.Count number) answer }
    ensures short { length (reply_bytes result) ≤ max_line }
{
    match answer {
        Ok(number) => counted(number),
        Err(refusal) => refused(refusal),
    }
}

/// A text, or the refusal.
pub fn text(answer: Result<Text, Refusal>) -> Reply
    requires { IfOk answer (λ text. length text.bytes + 4 ≤ max_line) }
    ensures value { result ≡ reply_of (λ text. Reply.One text) answer }
    ensures short { length (reply_bytes result) ≤ max_line }
{
    match answer {
        Ok(text) => Reply::One(text),
        Err(refusal) => refused(refusal),
    }
}

/// How many lines there are, and these lines, or the refusal.
pub fn lines(answer: Result<(u64, Text), Refusal>) -> Reply
    ensures value { result ≡ reply_of (λ lines. Reply.Lines lines.0 lines.1) answer }
    ensures short { IsUnbounded result ⊎ (length (reply_bytes result) ≤ max_line) }
{
    match answer {
        Ok((count, lines)) => Reply::Lines(count, lines),
        Err(refusal) => refused(refusal),
    }
}

/// A number.
pub fn counted(number: u64) -> Reply
    ensures value { result ≡ Reply.Count number }
    ensures one_line { IsOneLine result }
    ensures short { length (reply_bytes result) ≤ max_line }
{
    is_short_number(number);
    Reply::Count(number)
}

/// The place of a row, if there is one.
pub fn place(place: Option<u64>) -> Reply
    ensures value { result ≡ place_reply place }
    ensures one_line { IsOneLine result }
    ensures short { length (reply_bytes result) ≤ max_line }
{
    match place {
        Some(place) => counted(place),
        None => Reply::NotFound,
    }
}

/// A place, and a number of rows.
pub fn located(at: Located) -> Reply
    ensures value { result ≡ located_reply at }
    ensures one_line { IsOneLine result }
    ensures short { length (reply_bytes result) ≤ max_line }
{
    is_short_number(at.position);
    is_short_number(at.count);
    Reply::Pair(at.position, at.count)
}

/// Why a question has no answer.
pub fn unanswered(error: QuestionError) -> Reply
    ensures value { result ≡ Reply.Refused (refusal_of_question error) }
    ensures one_line { IsOneLine result }
    ensures short { length (reply_bytes result) ≤ max_line }
{
    refused(of_question(error))
}

/// The number of the commit that was made.
pub fn committed(number: u64) -> Reply
    ensures value { result ≡ Reply.Commit number }
    ensures one_line { IsOneLine result }
    ensures short { length (reply_bytes result) ≤ max_line }
{
    is_short_number(number);
    Reply::Commit(number)
}

/// The number of the commit to which the edits were given up.
pub fn rolled_back(number: u64) -> Reply
    ensures value { result ≡ Reply.Rollback number }
    ensures one_line { IsOneLine result }
    ensures short { length (reply_bytes result) ≤ max_line }
{
    is_short_number(number);
    Reply::Rollback(number)
}

/// The number of the commit that was found.
pub fn reopened(number: u64) -> Reply
    ensures value { result ≡ Reply.Reopen number }
    ensures one_line { IsOneLine result }
    ensures short { length (reply_bytes result) ≤ max_line }
{
    is_short_number(number);
    Reply::Reopen(number)
}

/// The number of the commit whose views were brought back.
pub fn reverted(number: u64) -> Reply
    ensures value { result ≡ Reply.Revert number }
    ensures one_line { IsOneLine result }
    ensures short { length (reply_bytes result) ≤ max_line }
{
    is_short_number(number);
    Reply::Revert(number)
}

/// What a commit takes up of its file.
pub fn taken(space: Space) -> Reply
    ensures value { result ≡ Reply.Space space }
    ensures one_line { IsOneLine result }
    ensures short { length (reply_bytes result) ≤ max_line }
{
    is_short_number(space.number);
    is_short_number(space.end);
    is_short_number(space.used);
    Reply::Space(space)
}

/// A refusal.
pub fn refused(refusal: Refusal) -> Reply
    ensures value { result ≡ Reply.Refused refusal }
    ensures one_line { IsOneLine result }
    ensures short { length (reply_bytes result) ≤ max_line }
{
    is_short_refusal(refusal);
    Reply::Refused(refusal)
}
