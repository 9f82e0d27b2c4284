ghost use Rattle.std.specs.Prelude.{◌≡◌};
ghost use Rattle.cmd_text.specs.declared.error.CmdError.TheVariants.{Memory as want_of_memory};

use mk_value::Memory;
use thiserror::Error;

/// Why a line was not read as a command. Each place is a byte offset from the line's start.
#[derive(Clone, Copy, Debug, PartialEq, Eq, Error)]
pub enum CmdError {
    /// The first piece that is no token, the first token at which no command can go on, or the end of a line that ends too early; in a
    /// structure, the first byte at which it cannot go on.
    #[error("no command from byte {0} on")]
    Syntax(usize),
    /// The letter of a floating kind, which is refused by name.
    #[error("a floating kind at byte {0}")]
    Floating(usize),
    /// A name stands twice in one pair of brackets.
    #[error("a name that stands twice")]
    Repeated,
    /// More properties, open brackets or bytes of a name than a structure may have.
    #[error("past a limit")]
    TooLarge,
    /// An allocation was refused.
    #[error("out of memory")]
    Memory,
}

impl From<Memory> for CmdError {
    ghost from_gives = { λ _ error. error ≡ want_of_memory };

    fn from(_error: Memory) -> CmdError {
        CmdError::Memory
    }
}
