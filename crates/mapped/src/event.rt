/// What happens to one row of a view, by its position: where it stands afterwards, or stood before it went.
#[derive(Clone, Copy, Debug)]
pub enum Event {
    Insert(usize),
    Remove(usize),
    Change(usize),
}
