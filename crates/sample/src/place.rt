ghost use Rattle.std.specs.Prelude.{◌≡◌, ◌≤◌, ◌+◌, ◌<◌, ◌^◌, [], length};
ghost use Rattle.sample.specs.Edits.{edit_line};
ghost use Rattle.sample.specs.Lines.{BeginsWithVerb, after_edit, edit_at};

use crate::edit::{edit_of, rows_after, write_edit};
use crate::numbers::{drawn, next_state};
use mk_value::Text;

/// Where a sample stands between two edits.
#[derive(Clone, Copy)]
pub(crate) struct Place {
    /// What the next number is drawn from.
    pub state: u64,
    /// The rows of the view.
    pub rows: u64,
}

impl Place {
    /// Appends the next edit to an empty line, and gives where the sample stands after it.
    #[tactic(auto, using(crate::proofs::Beginning::edit_begins))]
    pub fn edit(self, line: &mut Text) -> Place
        requires empty { line.old.bytes ≡ [] }
        requires room { 80 ≤ line.old.spare }
        requires few { self.rows < 2 ^ 33 }
        ensures after { result ≡ after_edit self }
        ensures line { line.new.bytes ≡ edit_line (edit_at self) }
        ensures short { length line.new.bytes ≤ 80 }
        ensures begins { BeginsWithVerb line.new.bytes }
        ensures few { result.rows ≤ self.rows + 1 }
        ensures room { line.old.spare ≤ line.new.spare + length line.new.bytes }
    {
        let state = next_state(self.state);
        let edit = edit_of(drawn(state), self.rows);
        write_edit(edit, line);
        Place {
            state,
            rows: rows_after(edit, self.rows),
        }
    }
}
