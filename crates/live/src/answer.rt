ghost use Rattle.std.specs.Prelude.{◌≡◌};
ghost use Rattle.live.specs.Turns.{answer_of};

use crate::turn::Turn;

/// What an edit of the root did to the rows of a watch.
#[derive(Clone, Copy, Debug)]
pub enum Answer {
    /// Nothing.
    Nothing,
    /// Copies of a row came, so many, and the first of them stands here, the others behind it.
    Insert { at: usize, count: usize },
    /// Rows went, so many, of which the first stood here, the others behind it.
    Remove { at: usize, count: usize },
    /// Rows went that stood here and there: those that stood in the root among so many from this place on.
    RemoveAmong { at: usize, count: usize },
    /// The row here changed, and stays here.
    Change { at: usize },
    /// The row that stood at the first place goes, and then one comes that stands at the second.
    Move { from: usize, to: usize },
}

impl Answer {
    /// A turn of one row as an answer, where the row that comes does so many times.
    pub(crate) fn of_turn(count: usize, turn: Turn) -> Answer
        ensures { result ≡ answer_of count turn }
    {
        match turn {
            Turn::Still => Answer::Nothing,
            Turn::Comes(at) => Answer::Insert { at, count },
            Turn::Goes(at) => Answer::Remove { at, count: 1 },
            Turn::Changes(at) => Answer::Change { at },
            Turn::Moves(from, to) => Answer::Move { from, to },
        }
    }
}
