//! The events that are timed.
ghost use Rattle.std.specs.Prelude.{◌<◌, ◌↔◌, IsTrue};
ghost use Rattle.live.specs.Putting.{IsPlace};

use crate::columns::random::Random;
use live::Event;

/// What happens to one row.
#[derive(Clone, Copy)]
pub enum EventKind {
    Insert,
    Remove,
    Change,
}

/// Where it happens.
#[derive(Clone, Copy)]
pub enum Places {
    /// At a place from a number.
    Anywhere,
    /// At the end of the rows.
    Last,
}

impl EventKind {
    /// An event of the kind that may happen to so many rows.
    pub fn event(self, places: Places, random: &mut Random, size: usize) -> Event
        requires { 0 < size }
        ensures { IsPlace result size }
    {
        match (self, places) {
            (EventKind::Insert, Places::Anywhere) => Event::Insert(random.place(size)),
            (EventKind::Insert, Places::Last) => Event::Insert(size),
            (EventKind::Remove, Places::Anywhere) => Event::Remove(random.place(size)),
            (EventKind::Remove, Places::Last) => Event::Remove(size - 1),
            (EventKind::Change, Places::Anywhere) => Event::Change(random.place(size)),
            (EventKind::Change, Places::Last) => Event::Change(size - 1),
        }
    }
}

/// Whether the event may happen to so many rows.
pub fn is_place(event: &Event, size: usize) -> bool
    ensures { IsTrue result ↔ IsPlace event.now size }
{
    match *event {
        Event::Insert(at) => at <= size,
        Event::Remove(at) => at < size,
        Event::Change(at) => at < size,
    }
}
