//! Reading command lines.
ghost use Rattle.std.specs.Prelude.{◌≡◌, ◌⊎◌, ◌≤◌, ◌+◌, ◌-◌, ◌<◌, ◌^◌, ◌∷◌, ◌↔◌, ◌++◌, [], ℕ, List, true, false, length, codes, None, Some, IsTrue, IfOk, IfErr, IsOk, OnOk, IfSome, IsNone};
ghost use Rattle.std.specs.Str.{IsUtf8, bytes_eq};
ghost use Rattle.expr_text.specs.declared.error.ExprError.TheVariants as failures;
ghost use Rattle.mk_value.specs.Names.{is_name_byte as name_byte};
ghost use Rattle.struct_text.specs.Offences.{place_of};
ghost use Rattle.tokens.specs.Cutting.{begins_with};
ghost use Rattle.tokens.specs.Fronts.{tokens_in};
ghost use Rattle.tokens.specs.Meanings.{pieces_of, token_of};
ghost use Rattle.cmd_text.specs.Grammar.{SpellsCommand, keyword};
ghost use Rattle.cmd_text.specs.Lines.{IsRefusedAs, Reads, ReadsStructure, RefusesPieces, RefusesStructure, error_of, gives_structure, is_space, without_leading, without_trailing};
ghost use Rattle.cmd_text.specs.OneWord.{IsOneWord, ReadsPieces};
ghost use Rattle.cmd_text.specs.Readers.{failed_as, line_run};
ghost use Rattle.cmd_text.specs.Structures.{IsBehindGetas};
ghost use Rattle.cmd_text.specs.Words.{is_known, word_of};
ghost use Rattle.cmd_text.specs.declared.command.Command.{Command as TheCommand};
ghost use Rattle.cmd_text.specs.declared.error.CmdError.TheVariants.{Memory as want_of_memory};
ghost use Rattle.cmd_text.specs.declared.verb.Verb.{Verb as TheVerb};

use crate::arguments::arguments;
use crate::verb::Verb;
use crate::{CmdError, Command};
use expr_text::{ExprError, Reader};
use std::alloc::Global;
use struct_text::{StructError, parse};
use tokens::{Piece, Token, cut};

/// The one byte that parts words.
const SPACE: char = ' ';

/// The first word of a line that gives a structure.
const GETAS: &str = "getas";

/// Reads a line, its newline left aside. A line of one word takes no memory.
///
/// # Errors
///
/// The first offence of the line: `Syntax`, `Floating`, `Repeated`, `TooLarge`. `Memory`.
pub fn read_command(alloc: Global, line: &[u8]) -> Result<Command, CmdError>
    ensures reads { IfOk result (λ command. Reads line.now command) }
    ensures refused { IfErr result (λ error. (error ≡ want_of_memory) ⊎ IsRefusedAs line.now error) }
    ensures in_place { (command : TheCommand) → IsOneWord command → Reads line.now command → IsOk result }
{
    match str::from_utf8(line) {
        Ok(text) => read_text(alloc, text),
        Err(error) => Err(CmdError::Syntax(error.valid_up_to())),
    }
}

/// Reads what stands from a line's first byte on that is no space.
fn read_text(alloc: Global, line: &str) -> Result<Command, CmdError>
    ensures reads { IfOk result (λ command. Reads line.now command) }
    ensures refused { IfErr result (λ error. (error ≡ want_of_memory) ⊎ IsRefusedAs line.now error) }
    ensures in_place { (command : TheCommand) → IsOneWord command → Reads line.now command → IsOk result }
{
    let rest = without_leading_spaces(line);
    match behind_getas(rest) {
        Some(behind) => read_structure(alloc, line, rest, behind),
        None => read_tokens(alloc, line),
    }
}

/// What stands behind the word `getas` at the front, where that run of letters ends there.
fn behind_getas(rest: &str) -> Option<&str>
    ensures some { IfSome result (λ behind. (rest.now ≡ codes "getas" ++ behind.now) × (begins_with name_byte behind.now ≡ false)) }
    ensures none { IsNone result → (behind : List ℕ) → rest.now ≡ codes "getas" ++ behind → begins_with name_byte behind ≡ false → ⊥ }
{
    let behind = rest.strip_prefix(GETAS)?;
    if begins_with_name_byte(behind.as_bytes()) {
        return None;
    }
    Some(behind)
}

/// Whether the first of the bytes may stand in a name.
fn begins_with_name_byte(bytes: &[u8]) -> bool
    ensures { result ≡ begins_with name_byte bytes.now }
{
    match bytes.first() {
        Some(byte) => byte.is_ascii_alphanumeric() || *byte == b'_',
        None => false,
    }
}

fn without_leading_spaces(text: &str) -> &str
    ensures value { result.now ≡ without_leading text.now }
    ensures short { length result.now ≤ length text.now }
{
    text.trim_start_matches(SPACE)
}

fn without_trailing_spaces(text: &str) -> &str
    ensures value { result.now ≡ without_trailing text.now }
    ensures short { length result.now ≤ length text.now }
{
    text.trim_end_matches(SPACE)
}

/// Whether a word that these bytes stand behind stands alone.
fn ends_word(behind: &[u8]) -> bool
    ensures { IsTrue result ↔ ((behind.now ≡ []) ⊎ (begins_with is_space behind.now ≡ true)) }
{
    match behind.first() {
        Some(byte) => *byte == b' ',
        None => true,
    }
}

/// Reads the structure that stands behind `getas`.
fn read_structure(alloc: Global, line: &str, rest: &str, behind: &str) -> Result<Command, CmdError>
    requires rest { rest.now ≡ without_leading line.now }
    requires behind { IsBehindGetas line.now behind.now }
    ensures reads { IfOk result (ReadsStructure line.now) }
    ensures refused { IfErr result (λ error. (error ≡ want_of_memory) ⊎ RefusesStructure line.now error) }
{
    if !ends_word(behind.as_bytes()) {
        return Err(CmdError::Syntax(line.len() - rest.len()));
    }
    let text = without_leading_spaces(behind);
    match parse(alloc, without_trailing_spaces(text)) {
        Ok((name, schema)) => Ok(Command::Getas(name, schema)),
        Err(error) => Err(of_structure(line.len() - text.len(), error)),
    }
}

/// How an offence in a structure text that begins at `start` of its line is refused.
fn of_structure(start: usize, error: StructError) -> CmdError
    requires { start + place_of error < 2 ^ 64 }
    ensures { result ≡ error_of start error }
{
    match error {
        StructError::Syntax(place) => CmdError::Syntax(start + place),
        StructError::Floating(place) => CmdError::Floating(start + place),
        StructError::Repeated(_) => CmdError::Repeated,
        StructError::TooDeep(_) | StructError::TooMany(_) | StructError::TooLong(_) => {
            CmdError::TooLarge
        }
        StructError::Memory => CmdError::Memory,
    }
}

/// Reads a line by its tokens.
fn read_tokens(alloc: Global, line: &str) -> Result<Command, CmdError>
    ensures reads { IfOk result (ReadsPieces line.now) }
    ensures refused { IfErr result (λ error. (error ≡ want_of_memory) ⊎ RefusesPieces line.now error) }
    ensures in_place { (command : TheCommand) → IsOneWord command → ReadsPieces line.now command → IsOk result }
{
    let cutting = cut(alloc, line)?;
    match read_pieces(alloc, cutting.pieces.as_slice(), line.len()) {
        Ok(command) => match cutting.flaw {
            None => Ok(command),
            Some(flaw) => {
                drop(command);
                Err(CmdError::Syntax(flaw))
            }
        },
        Err(error) => Err(of_failure(error, cutting.flaw)),
    }
}

/// How a line is refused whose pieces, up to its first that is no token if it has one, were refused so.
fn of_failure(error: ExprError, flaw: Option<usize>) -> CmdError
    ensures { result ≡ failed_as error flaw }
{
    match error {
        ExprError::TooDeep(_) => CmdError::TooLarge,
        ExprError::Memory => CmdError::Memory,
        ExprError::Syntax(place) => match flaw {
            None => CmdError::Syntax(place),
            Some(flaw) => CmdError::Syntax(flaw),
        },
    }
}

/// Reads the pieces of a line of so many bytes.
fn read_pieces(alloc: Global, pieces: &[Piece<'_>], end: usize) -> Result<Command, ExprError>
    ensures reads { IfOk result (SpellsCommand (tokens_in (pieces_of pieces.now))) }
    ensures met { OnOk result (line_run (pieces_of pieces.now) end ≡ None) }
    ensures fails { IfErr result (λ error. (error ≡ failures.Memory) ⊎ (line_run (pieces_of pieces.now) end ≡ Some error)) }
    ensures in_place { (command : TheCommand) → IsOneWord command → SpellsCommand (tokens_in (pieces_of pieces.now)) command → IsOk result }
{
    let Some((first, rest)) = pieces.split_first() else {
        return Ok(Command::Nothing);
    };
    let Some(verb) = verb_of(&first.token) else {
        return Err(ExprError::Syntax(first.place));
    };
    let mut reader = Reader { alloc, rest, end };
    let command = arguments(verb, &mut reader)?;
    match reader.over() {
        Ok(()) => Ok(command),
        Err(error) => {
            drop(command);
            Err(error)
        }
    }
}

/// The command whose first word a token is.
fn verb_of(token: &Token<'_>) -> Option<Verb>
    ensures some { IfSome result (λ verb. (is_known verb ≡ true) × (token_of token.now ≡ keyword (word_of verb))) }
    ensures none { IsNone result → (verb : TheVerb) → is_known verb ≡ true → token_of token.now ≡ keyword (word_of verb) → ⊥ }
{
    let Token::Word(word) = token else {
        return None;
    };
    Verb::of(word)
}
