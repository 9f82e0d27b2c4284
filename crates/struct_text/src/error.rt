use mk_value::Memory;
use thiserror::Error;

/// Why a text was not read as a structure.
///
/// Each place is a byte offset from the text's start.
#[derive(Clone, Copy, Debug, PartialEq, Eq, Error)]
pub enum StructError {
    /// The first byte at which no structure text can go on, or the text's length where it ends too early.
    #[error("no structure text goes on so at byte {0}")]
    Syntax(usize),
    /// The letter `F` or `D` where a kind stands: floating numbers are refused by name.
    #[error("a floating kind at byte {0}")]
    Floating(usize),
    /// The start of a name that stood before in the same brackets.
    #[error("a name that stood before at byte {0}")]
    Repeated(usize),
    /// The `[` that opens depth 9.
    #[error("a bracket too deep at byte {0}")]
    TooDeep(usize),
    /// The start of the name of the 65th property of one pair of brackets.
    #[error("a property too many at byte {0}")]
    TooMany(usize),
    /// The start of a name of more than 31 bytes.
    #[error("a name too long at byte {0}")]
    TooLong(usize),
    /// Memory ran out.
    #[error("out of memory")]
    Memory,
}
