// What a host in memory writes down of a write, a sync and a piece said.
use crate::Effect;

/// A write: its place, where its bytes stand among all that was written, how many they are, and what it left of them.
#[derive(Clone, Copy)]
pub(crate) struct Piece {
    pub at: usize,
    pub from: usize,
    pub count: usize,
    pub left: Effect,
}

#[derive(Clone, Copy)]
pub(crate) enum Event {
    Write(Piece),
    Sync,
    /// A piece was said, and so many bytes then were.
    Say(usize),
}

/// An event, and how many calls had been made with it.
#[derive(Clone, Copy)]
pub(crate) struct Entry {
    pub calls: u64,
    pub event: Event,
}
