//! What a line does to the rows of a view.
ghost use Rattle.std.specs.Prelude.{◌≡◌, ◌<◌, ◌≤◌, length, take};
ghost use Rattle.std.specs.Coded.{Coded-set, le_prop};
ghost use Rattle.mk_value.specs.Heading.{attributes_code};
ghost use Rattle.row_edits.specs.Edits.{AreInRange-prop};
ghost use Rattle.row_edits.specs.Events.{begun, count_of, event_of};
ghost use Rattle.row_edits.specs.Lines.{IsLine, edit_at, rows-prop};

use crate::between::Between;
use crate::edit::RowEdit;
use crate::event::Event;
use mk_value::TableRead;

/// A line on a view: the tables before and after it, its edits, one after another, and where the row that comes with them stands after it,
/// if one comes.
#[derive(Drop)]
pub struct Line<'a, T: TableRead> {
    pub before: &'a T,
    pub after: &'a T,
    pub edits: &'a [RowEdit],
    pub home: usize,
    pub ghost same_schema: { T.schema after.now ≡ T.schema before.now } by { Coded-set attributes_code (T.schema after.now) (T.schema before.now) },
    pub ghost line: { IsLine edits.now home (T.rows before.now) (T.rows after.now) } by { Prim.hlevel (AreInRange-prop, le_prop, rows-prop) },
}

impl<'a, T: TableRead> Line<'a, T> {
    /// The event of a number of an edit.
    pub fn event(&self, edit: usize, number: usize) -> Event
        requires edit_in { edit < length self.now.edits.now }
        requires number_in { number < count_of (edit_at self.now.edits.now edit) }
        ensures { result ≡ event_of (edit_at self.now.edits.now edit) number }
    {
        let _size = self.before.size();
        self.edits[edit].event(number)
    }

    /// The rows once the edits before one, and so many events of it, have happened.
    pub fn between(&self, edit: usize, events: usize) -> Between<'a, T>
        requires edit_in { edit < length self.now.edits.now }
        requires events_in { events ≤ count_of (edit_at self.now.edits.now edit) }
        ensures before { result.before.now ≡ self.now.before.now }
        ensures after { result.after.now ≡ self.now.after.now }
        ensures whole { result.whole.now ≡ take edit self.now.edits.now }
        ensures part { result.part ≡ begun events (edit_at self.now.edits.now edit) }
        ensures home { result.home ≡ self.now.home }
    {
        Between {
            before: self.before,
            after: self.after,
            whole: &self.edits[..edit],
            part: self.edits[edit].begun(events),
            home: self.home,
        }
    }
}
