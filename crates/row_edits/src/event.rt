/// What happens to a list of rows: one row comes, goes or changes.
#[derive(Clone, Copy, Debug)]
pub enum Event {
    /// A row comes in here.
    Insert(usize),
    /// The row here goes.
    Remove(usize),
    /// The row here changes.
    Change(usize),
}
