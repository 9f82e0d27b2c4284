use dir_codec::Notes;
use mk_value::Span;
use view_store::Views;

/// A commit in memory: its number, its views with a home in each column, its notes oldest first, where its directory stands, and the end
/// of the file's used part.
#[derive(Drop)]
pub struct Kept {
    pub number: u64,
    pub views: Views,
    pub notes: Notes,
    pub dir: Span,
    pub end: u64,
}
