//! Reading what stands behind a command's first word.
ghost use Rattle.std.specs.Prelude.{◌≡◌, ◌⊎◌, ◌∷◌, [], IfOk, IfErr, IsOk, OnOk};
ghost use Rattle.mk_value.specs.Tokens.{text};
ghost use Rattle.expr_text.specs.Queries.{max_operators};
ghost use Rattle.expr_text.specs.Readers.{Fails, Meets, rest_of, tokens_left};
ghost use Rattle.expr_text.specs.Walk.{a_text};
ghost use Rattle.cmd_text.specs.Grammar.{call_of};
ghost use Rattle.cmd_text.specs.Notes.{IsNote, max_note};
ghost use Rattle.cmd_text.specs.OneWord.{EmptyNoteTokens, IsBehindOneWord};
ghost use Rattle.cmd_text.specs.Readers.{IsCallOf, Spelled, goals_of};
ghost use Rattle.cmd_text.specs.Words.{form_of};
ghost use Rattle.cmd_text.specs.declared.verb.Verb.TheVariants as verbs;

use crate::note::note_of;
use crate::verb::Verb;
use crate::{Command, Note};
use expr_text::{ExprError, Reader};

/// How many operators may stand inside one another in an expression.
const MAX_OPERATORS: usize = 15;

/// Reads what stands behind the first word of a command.
pub(crate) fn arguments(verb: Verb, reader: &mut Reader<'_>) -> Result<Command, ExprError>
    ensures whole { IfOk result (λ command. IsCallOf verb (call_of command)) }
    ensures spells { IfOk result (λ command. Spelled (call_of command) (tokens_left reader.old) (tokens_left reader.new)) }
    ensures meets { OnOk result (Meets (goals_of max_operators (form_of verb)) (rest_of reader.old) (rest_of reader.new)) }
    ensures fails { IfErr result (Fails (goals_of max_operators (form_of verb)) (rest_of reader.old)) }
    ensures in_place { IsBehindOneWord (form_of verb) (tokens_left reader.old) → IsOk result }
{
    match verb {
        Verb::Drop => Ok(Command::Drop(reader.name()?)),
        Verb::Struct => Ok(Command::Struct),
        Verb::Add => read_add(reader),
        Verb::Insert => read_insert(reader),
        Verb::Set => read_set(reader),
        Verb::Remove => read_remove(reader),
        Verb::Size => Ok(Command::Size(reader.expr(MAX_OPERATORS)?)),
        Verb::Show => Ok(Command::Show(reader.expr(MAX_OPERATORS)?)),
        Verb::Find => read_find(reader),
        Verb::Search => read_search(reader),
        Verb::Locate => read_locate(reader),
        Verb::Dup => read_dup(reader),
        Verb::Undup => Ok(Command::Undup(reader.name()?)),
        Verb::Watch => read_watch(reader),
        Verb::Unwatch => Ok(Command::Unwatch(reader.name()?)),
        Verb::Hash => read_hash(reader),
        Verb::Ordered => read_ordered(reader),
        Verb::Unmap => Ok(Command::Unmap(reader.name()?)),
        Verb::Cursor => read_cursor(reader),
        Verb::Uncursor => Ok(Command::Uncursor(reader.name()?)),
        Verb::Next => Ok(Command::Next(reader.name()?)),
        Verb::Prev => Ok(Command::Prev(reader.name()?)),
        Verb::Row => Ok(Command::Row(reader.name()?)),
        Verb::Commit => Ok(Command::Commit(note(reader)?)),
        Verb::Log => Ok(Command::Log),
        Verb::Rollback => Ok(Command::Rollback),
        Verb::Reopen => Ok(Command::Reopen),
        Verb::Revert => Ok(Command::Revert),
        Verb::Space => Ok(Command::Space),
        Verb::Quit => Ok(Command::Quit),
    }
}

fn read_add(reader: &mut Reader<'_>) -> Result<Command, ExprError>
    ensures whole { IfOk result (λ command. IsCallOf verbs.Add (call_of command)) }
    ensures spells { IfOk result (λ command. Spelled (call_of command) (tokens_left reader.old) (tokens_left reader.new)) }
    ensures meets { OnOk result (Meets (goals_of max_operators (form_of verbs.Add)) (rest_of reader.old) (rest_of reader.new)) }
    ensures fails { IfErr result (Fails (goals_of max_operators (form_of verbs.Add)) (rest_of reader.old)) }
{
    let path = reader.path()?;
    Ok(Command::Add(path, reader.values()?))
}

fn read_insert(reader: &mut Reader<'_>) -> Result<Command, ExprError>
    ensures whole { IfOk result (λ command. IsCallOf verbs.Insert (call_of command)) }
    ensures spells { IfOk result (λ command. Spelled (call_of command) (tokens_left reader.old) (tokens_left reader.new)) }
    ensures meets { OnOk result (Meets (goals_of max_operators (form_of verbs.Insert)) (rest_of reader.old) (rest_of reader.new)) }
    ensures fails { IfErr result (Fails (goals_of max_operators (form_of verbs.Insert)) (rest_of reader.old)) }
{
    let path = reader.path()?;
    let place = reader.count()?;
    let copies = reader.count()?;
    Ok(Command::Insert(path, place, copies, reader.values()?))
}

fn read_set(reader: &mut Reader<'_>) -> Result<Command, ExprError>
    ensures whole { IfOk result (λ command. IsCallOf verbs.Set (call_of command)) }
    ensures spells { IfOk result (λ command. Spelled (call_of command) (tokens_left reader.old) (tokens_left reader.new)) }
    ensures meets { OnOk result (Meets (goals_of max_operators (form_of verbs.Set)) (rest_of reader.old) (rest_of reader.new)) }
    ensures fails { IfErr result (Fails (goals_of max_operators (form_of verbs.Set)) (rest_of reader.old)) }
{
    let path = reader.path()?;
    let row = reader.count()?;
    let prop = reader.name()?;
    Ok(Command::Set(path, row, prop, reader.literal()?))
}

fn read_remove(reader: &mut Reader<'_>) -> Result<Command, ExprError>
    ensures whole { IfOk result (λ command. IsCallOf verbs.Remove (call_of command)) }
    ensures spells { IfOk result (λ command. Spelled (call_of command) (tokens_left reader.old) (tokens_left reader.new)) }
    ensures meets { OnOk result (Meets (goals_of max_operators (form_of verbs.Remove)) (rest_of reader.old) (rest_of reader.new)) }
    ensures fails { IfErr result (Fails (goals_of max_operators (form_of verbs.Remove)) (rest_of reader.old)) }
{
    let path = reader.path()?;
    let place = reader.count()?;
    Ok(Command::Remove(path, place, reader.count()?))
}

fn read_find(reader: &mut Reader<'_>) -> Result<Command, ExprError>
    ensures whole { IfOk result (λ command. IsCallOf verbs.Find (call_of command)) }
    ensures spells { IfOk result (λ command. Spelled (call_of command) (tokens_left reader.old) (tokens_left reader.new)) }
    ensures meets { OnOk result (Meets (goals_of max_operators (form_of verbs.Find)) (rest_of reader.old) (rest_of reader.new)) }
    ensures fails { IfErr result (Fails (goals_of max_operators (form_of verbs.Find)) (rest_of reader.old)) }
{
    let expr = reader.expr(MAX_OPERATORS)?;
    let start = reader.count()?;
    Ok(Command::Find(expr, start, reader.last_criteria()?))
}

fn read_search(reader: &mut Reader<'_>) -> Result<Command, ExprError>
    ensures whole { IfOk result (λ command. IsCallOf verbs.Search (call_of command)) }
    ensures spells { IfOk result (λ command. Spelled (call_of command) (tokens_left reader.old) (tokens_left reader.new)) }
    ensures meets { OnOk result (Meets (goals_of max_operators (form_of verbs.Search)) (rest_of reader.old) (rest_of reader.new)) }
    ensures fails { IfErr result (Fails (goals_of max_operators (form_of verbs.Search)) (rest_of reader.old)) }
{
    let expr = reader.expr(MAX_OPERATORS)?;
    Ok(Command::Search(expr, reader.last_criteria()?))
}

fn read_locate(reader: &mut Reader<'_>) -> Result<Command, ExprError>
    ensures whole { IfOk result (λ command. IsCallOf verbs.Locate (call_of command)) }
    ensures spells { IfOk result (λ command. Spelled (call_of command) (tokens_left reader.old) (tokens_left reader.new)) }
    ensures meets { OnOk result (Meets (goals_of max_operators (form_of verbs.Locate)) (rest_of reader.old) (rest_of reader.new)) }
    ensures fails { IfErr result (Fails (goals_of max_operators (form_of verbs.Locate)) (rest_of reader.old)) }
{
    let expr = reader.expr(MAX_OPERATORS)?;
    Ok(Command::Locate(expr, reader.last_criteria()?))
}

fn read_dup(reader: &mut Reader<'_>) -> Result<Command, ExprError>
    ensures whole { IfOk result (λ command. IsCallOf verbs.Dup (call_of command)) }
    ensures spells { IfOk result (λ command. Spelled (call_of command) (tokens_left reader.old) (tokens_left reader.new)) }
    ensures meets { OnOk result (Meets (goals_of max_operators (form_of verbs.Dup)) (rest_of reader.old) (rest_of reader.new)) }
    ensures fails { IfErr result (Fails (goals_of max_operators (form_of verbs.Dup)) (rest_of reader.old)) }
{
    let new = reader.name()?;
    Ok(Command::Dup(new, reader.expr(MAX_OPERATORS)?))
}

fn read_watch(reader: &mut Reader<'_>) -> Result<Command, ExprError>
    ensures whole { IfOk result (λ command. IsCallOf verbs.Watch (call_of command)) }
    ensures spells { IfOk result (λ command. Spelled (call_of command) (tokens_left reader.old) (tokens_left reader.new)) }
    ensures meets { OnOk result (Meets (goals_of max_operators (form_of verbs.Watch)) (rest_of reader.old) (rest_of reader.new)) }
    ensures fails { IfErr result (Fails (goals_of max_operators (form_of verbs.Watch)) (rest_of reader.old)) }
{
    let new = reader.name()?;
    Ok(Command::Watch(new, reader.operation()?))
}

fn read_hash(reader: &mut Reader<'_>) -> Result<Command, ExprError>
    ensures whole { IfOk result (λ command. IsCallOf verbs.Hash (call_of command)) }
    ensures spells { IfOk result (λ command. Spelled (call_of command) (tokens_left reader.old) (tokens_left reader.new)) }
    ensures meets { OnOk result (Meets (goals_of max_operators (form_of verbs.Hash)) (rest_of reader.old) (rest_of reader.new)) }
    ensures fails { IfErr result (Fails (goals_of max_operators (form_of verbs.Hash)) (rest_of reader.old)) }
{
    let view = reader.name()?;
    Ok(Command::Hash(view, reader.count()?))
}

fn read_ordered(reader: &mut Reader<'_>) -> Result<Command, ExprError>
    ensures whole { IfOk result (λ command. IsCallOf verbs.Ordered (call_of command)) }
    ensures spells { IfOk result (λ command. Spelled (call_of command) (tokens_left reader.old) (tokens_left reader.new)) }
    ensures meets { OnOk result (Meets (goals_of max_operators (form_of verbs.Ordered)) (rest_of reader.old) (rest_of reader.new)) }
    ensures fails { IfErr result (Fails (goals_of max_operators (form_of verbs.Ordered)) (rest_of reader.old)) }
{
    let view = reader.name()?;
    Ok(Command::Ordered(view, reader.count()?))
}

fn read_cursor(reader: &mut Reader<'_>) -> Result<Command, ExprError>
    ensures whole { IfOk result (λ command. IsCallOf verbs.Cursor (call_of command)) }
    ensures spells { IfOk result (λ command. Spelled (call_of command) (tokens_left reader.old) (tokens_left reader.new)) }
    ensures meets { OnOk result (Meets (goals_of max_operators (form_of verbs.Cursor)) (rest_of reader.old) (rest_of reader.new)) }
    ensures fails { IfErr result (Fails (goals_of max_operators (form_of verbs.Cursor)) (rest_of reader.old)) }
{
    let new = reader.name()?;
    Ok(Command::Cursor(new, reader.name()?))
}

/// Reads the note of a commit, if one stands there. An empty one takes no memory.
fn note(reader: &mut Reader<'_>) -> Result<Note, ExprError>
    ensures whole { IfOk result IsNote }
    ensures spells { IfOk result (λ note. (tokens_left reader.old ≡ text note ∷ tokens_left reader.new) ⊎ ((note ≡ []) × (tokens_left reader.old ≡ tokens_left reader.new))) }
    ensures meets { OnOk result (Meets (a_text max_note ∷ []) (rest_of reader.old) (rest_of reader.new)) }
    ensures fails { IfErr result (Fails (a_text max_note ∷ []) (rest_of reader.old)) }
    ensures in_place { EmptyNoteTokens (tokens_left reader.old) → IsOk result }
{
    let Some(first) = reader.rest.first() else {
        return Ok(Note::none(reader.alloc));
    };
    let Some(note) = note_of(reader.alloc, &first.token)? else {
        return Err(ExprError::Syntax(first.place));
    };
    reader.rest = &reader.rest[1..];
    Ok(note)
}
