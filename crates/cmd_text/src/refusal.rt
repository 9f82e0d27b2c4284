use thiserror::Error;

/// Why a command was not carried out.
///
/// The texts here are for a reader of the program's own errors; a reply has the refusal's number, its word and its values.
#[derive(Clone, Copy, Debug, PartialEq, Eq, Error)]
pub enum Refusal {
    /// An allocation was refused.
    #[error("out of memory")]
    Memory,
    /// From this byte of the line on it is no command.
    #[error("no command from byte {0} on")]
    Syntax(u64),
    /// No view, snapshot, watch or cursor has the name.
    #[error("no such name")]
    NoName,
    /// The name is taken.
    #[error("a name that is taken")]
    Exists,
    /// A row or a place is out of the range of so many rows.
    #[error("out of the range of {0} rows")]
    Range(u64),
    /// A property is absent, or there are more values than properties.
    #[error("no such property")]
    NoProp,
    /// A value, or a step into a property, is of another kind.
    #[error("another kind")]
    Kind,
    /// Past a limit.
    #[error("past a limit")]
    Limit,
    /// The disk failed.
    #[error("the disk failed")]
    Disk,
    /// The file would end here, past the cap, which comes second.
    #[error("the file would end at {0}, past {1}")]
    Full(u64, u64),
    /// A commit failed, and the session was not reopened since.
    #[error("shut")]
    Shut,
    /// The last number of a commit was reached.
    #[error("the last number")]
    LastNumber,
    /// The letter of a floating kind stands at this byte of the line.
    #[error("a floating kind at byte {0}")]
    Floating(u64),
    /// The store is only read.
    #[error("only read")]
    ReadOnly,
    /// The file is damaged at this byte.
    #[error("damaged at byte {0}")]
    Damaged(u64),
    /// A watch, a cursor or a mapping names it.
    #[error("in use")]
    InUse,
    /// The key of this row breaks the mapping.
    #[error("the key of row {0}")]
    Keys(u64),
    /// The rows are not known to be sorted so.
    #[error("not sorted")]
    Unsorted,
}
