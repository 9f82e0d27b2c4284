use crate::Note;
use expr_text::{Crits, Expr};
use mk_value::{Literal, Literals, Name, Path, Schema};

/// What a line asks for. The arguments stand in the order in which they are written.
#[derive(Drop)]
pub enum Command {
    /// Nothing: the line is empty, or all spaces.
    Nothing,
    /// To give the view of this name this structure.
    Getas(Name, Schema),
    /// To remove a view.
    Drop(Name),
    /// To list the structures of all views.
    Struct,
    /// To put a row of these values last.
    Add(Path, Literals),
    /// To put a row of these values before the row at a place, so many times: the place, then the count.
    Insert(Path, u64, u64, Literals),
    /// To give a property of a row another value.
    Set(Path, u64, Name, Literal),
    /// To remove rows: the place of the first, then their count.
    Remove(Path, u64, u64),
    /// To count the rows of a view.
    Size(Expr),
    /// To list the rows of a view.
    Show(Expr),
    /// To find the first row from a place on that has these values.
    Find(Expr, u64, Crits),
    /// To find where rows of these keys stand in a sorted view, or would stand.
    Search(Expr, Crits),
    /// The same, and to count those rows.
    Locate(Expr, Crits),
    /// To keep a view as it is now under a new name.
    Dup(Name, Expr),
    /// To give up a kept view.
    Undup(Name),
    /// To keep a selection, a range or a sorting up to date under a new name.
    Watch(Name, Expr),
    /// To give up what is kept up to date.
    Unwatch(Name),
    /// To let the first so many properties of a view tell its rows apart.
    Hash(Name, u64),
    /// To keep the rows of a view in the order of its first so many properties.
    Ordered(Name, u64),
    /// To give up what `Hash` or `Ordered` asked for.
    Unmap(Name),
    /// To set a cursor of a new name on the first row of what a name stands for.
    Cursor(Name, Name),
    /// To give up a cursor.
    Uncursor(Name),
    /// To move a cursor one row down.
    Next(Name),
    /// To move a cursor one row up.
    Prev(Name),
    /// To tell the row at a cursor.
    Row(Name),
    /// To keep what the views hold as the next commit, under a note or none.
    Commit(Note),
    /// To list the notes of the commits.
    Log,
    /// To give the views what the last commit holds.
    Rollback,
    /// To open the file anew.
    Reopen,
    /// To give the views what the commit before the last holds.
    Revert,
    /// To tell what the store takes.
    Space,
    /// To end the session.
    Quit,
}
