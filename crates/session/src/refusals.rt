//! How what the layers below refuse is told.
ghost use Rattle.std.specs.Prelude.{◌≡◌};
ghost use Rattle.session.specs.Naming.{refusal_of_mapping, refusal_of_watch, told_of_put};
ghost use Rattle.session.specs.Questions.{refusal_of_question};
ghost use Rattle.session.specs.Refusals.{refusal_of_edit, refusal_of_opening, refusal_of_plan, refusal_of_reading, refusal_of_revert};

use cmd_text::{CmdError, Refusal};
use keyed_views::MappingError;
use live::WatchError;
use mk_value::Memory;
use questions::QuestionError;
use recovery::OpenError;
use storage::{PlanError, RevertError};
use view_store::EditError;

/// How a line that was not read is refused.
pub fn of_reading(error: CmdError) -> Refusal
    ensures { result ≡ refusal_of_reading error }
{
    match error {
        CmdError::Syntax(place) => Refusal::Syntax(place as u64),
        CmdError::Floating(place) => Refusal::Floating(place as u64),
        CmdError::Repeated => Refusal::Exists,
        CmdError::TooLarge => Refusal::Limit,
        CmdError::Memory => Refusal::Memory,
    }
}

/// How an edit or a look that the views refuse is refused.
pub fn of_edit(error: EditError) -> Refusal
    ensures { result ≡ refusal_of_edit error }
{
    match error {
        EditError::NoView => Refusal::NoName,
        EditError::NoProp => Refusal::NoProp,
        EditError::WrongKind => Refusal::Kind,
        EditError::OutOfRange(size) => Refusal::Range(size),
        EditError::TooMany(_) => Refusal::Limit,
        EditError::Memory => Refusal::Memory,
    }
}

/// How it is told that a question has no answer.
pub fn of_question(error: QuestionError) -> Refusal
    ensures { result ≡ refusal_of_question error }
{
    match error {
        QuestionError::NoName => Refusal::NoName,
        QuestionError::Exists => Refusal::Exists,
        QuestionError::NoProp => Refusal::NoProp,
        QuestionError::Kind => Refusal::Kind,
        QuestionError::Range(size) => Refusal::Range(size),
        QuestionError::Limit => Refusal::Limit,
        QuestionError::Unsorted => Refusal::Unsorted,
        QuestionError::Memory => Refusal::Memory,
    }
}

/// How it is told that a watch is not put.
pub fn of_watch(error: WatchError) -> Refusal
    ensures { result ≡ refusal_of_watch error }
{
    match error {
        WatchError::NoProp => Refusal::NoProp,
        WatchError::WrongKind => Refusal::Kind,
        WatchError::TooDeep => Refusal::Limit,
        WatchError::Memory => Refusal::Memory,
    }
}

/// What is told of a watch that was to be put.
pub fn of_put(answer: Result<u64, WatchError>) -> Result<u64, Refusal>
    ensures { result ≡ told_of_put answer }
{
    match answer {
        Ok(size) => Ok(size),
        Err(error) => Err(of_watch(error)),
    }
}

/// How it is told that a view is not mapped.
pub fn of_mapping(error: MappingError) -> Refusal
    ensures { result ≡ refusal_of_mapping error }
{
    match error {
        MappingError::Kind => Refusal::Kind,
        MappingError::Range(count) => Refusal::Range(count),
        MappingError::Limit => Refusal::Limit,
        MappingError::Keys(row) => Refusal::Keys(row),
        MappingError::InUse => Refusal::InUse,
        MappingError::Memory => Refusal::Memory,
    }
}

/// How want of memory is told.
pub fn of_memory(_memory: Memory) -> Refusal
    ensures { result ≡ Refusal.Memory }
{
    Refusal::Memory
}

/// How it is told that a commit is not planned.
pub fn of_plan(error: PlanError) -> Refusal
    ensures { result ≡ refusal_of_plan error }
{
    match error {
        PlanError::ReadOnly => Refusal::ReadOnly,
        PlanError::LastNumber => Refusal::LastNumber,
        PlanError::Full(end, cap) => Refusal::Full(end, cap),
        PlanError::Memory => Refusal::Memory,
    }
}

/// How it is told that a file is not opened anew. One that is no store any more is damaged from its first byte on.
pub fn of_opening(error: OpenError) -> Refusal
    ensures { result ≡ refusal_of_opening error }
{
    match error {
        OpenError::NotAStore => Refusal::Damaged(0),
        OpenError::Damaged(place) => Refusal::Damaged(place),
        OpenError::Failed => Refusal::Disk,
        OpenError::Memory => Refusal::Memory,
    }
}

/// How it is told that the views of the commit before are not brought back. Where the store has a commit before and the file has none,
/// the file is damaged from its first byte on.
pub fn of_revert(error: RevertError) -> Refusal
    ensures { result ≡ refusal_of_revert error }
{
    match error {
        RevertError::NoBefore => Refusal::Damaged(0),
        RevertError::Damaged(place) => Refusal::Damaged(place),
        RevertError::Failed => Refusal::Disk,
        RevertError::Memory => Refusal::Memory,
    }
}
