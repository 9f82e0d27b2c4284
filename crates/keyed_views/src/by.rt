/// By what the rows of a view are kept.
#[derive(Clone, Copy, Debug, PartialEq, Eq)]
pub enum By {
    /// By an index that finds the row of a key.
    Hash,
    /// In the order of their keys.
    Order,
}
