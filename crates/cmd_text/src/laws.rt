ghost use Rattle.std.specs.Prelude.{◌≡◌, ◌≤◌, ℕ, List, length};
ghost use Rattle.mk_value.specs.Heading.{Attribute};
ghost use Rattle.struct_text.specs.Spelling.{spelling};
ghost use Rattle.cmd_text.specs.Grammar.{call_of};
ghost use Rattle.cmd_text.specs.Laws.{HasProperLiterals};
ghost use Rattle.cmd_text.specs.Lines.{IsRefusedAs, Reads};
ghost use Rattle.cmd_text.specs.declared.command.Command.{Command as TheCommand};
ghost use Rattle.cmd_text.specs.declared.command.Command.TheVariants.{Getas};
ghost use Rattle.cmd_text.specs.declared.error.CmdError.{CmdError as TheError};

/// A law of command lines: no line has two first offences, and none that reads as a command has one.
pub fn one_offence()
    ensures one_offence { (line : List ℕ) (one two : TheError) → IsRefusedAs line one → IsRefusedAs line two → one ≡ two }
    ensures not_both { (line : List ℕ) (command : TheCommand) (error : TheError) → Reads line command → IsRefusedAs line error → ⊥ }
{
    struct_text::one_structure();
    struct_text::one_first_offence();
}

/// A law of command lines: a line that reads as two commands asks for the same, the same word with the same arguments.
pub fn one_meaning()
    ensures { (line : List ℕ) (one two : TheCommand) → Reads line one → Reads line two → call_of one ≡ call_of two }
{
    struct_text::one_structure();
}

/// A law of lines that give a structure: its spelling is no longer than the line.
pub fn structure_is_short()
    ensures { (line name : List ℕ) (schema : List Attribute) → Reads line (Getas name schema) → length (spelling name schema) ≤ length line }
{}

/// A law of the values in a line: each becomes a value of a kind that it fits, and a note is one that a commit may have.
pub fn literals_are_proper()
    ensures { (line : List ℕ) (command : TheCommand) → Reads line command → HasProperLiterals command }
{}
