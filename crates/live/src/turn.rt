ghost use Rattle.std.specs.Prelude.{◌≡◌};
ghost use Rattle.live.specs.Watching.{goes_from, comes_to, root_turn};

use row_edits::Event;

/// What one event of the root does to a list of rows: to the rows of the root, or to those of a watch.
#[derive(Clone, Copy, Debug)]
pub enum Turn {
    /// Nothing.
    Still,
    /// A row comes, and stands here then.
    Comes(usize),
    /// The row that stood here goes.
    Goes(usize),
    /// The row here changes, and stays here.
    Changes(usize),
    /// The row that stood at the first place goes, and then one comes that stands at the second.
    Moves(usize, usize),
}

impl Turn {
    /// What an event does to the rows of the root.
    pub fn of_root(event: &Event) -> Turn
        ensures { result ≡ root_turn event.now }
    {
        match *event {
            Event::Insert(p) => Turn::Comes(p),
            Event::Remove(p) => Turn::Goes(p),
            Event::Change(p) => Turn::Changes(p),
        }
    }

    /// Where the row that goes stood, if one goes.
    pub fn goes_from(self) -> Option<usize>
        ensures { result ≡ goes_from self }
    {
        match self {
            Turn::Still | Turn::Comes(_) => None,
            Turn::Goes(p) | Turn::Changes(p) | Turn::Moves(p, _) => Some(p),
        }
    }

    /// Where the row that comes stands, if one comes.
    pub fn comes_to(self) -> Option<usize>
        ensures { result ≡ comes_to self }
    {
        match self {
            Turn::Still | Turn::Goes(_) => None,
            Turn::Comes(p) | Turn::Changes(p) | Turn::Moves(_, p) => Some(p),
        }
    }
}
