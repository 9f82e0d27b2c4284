ghost use Rattle.std.specs.Prelude.{◌≡◌, ◌+◌, ◌*◌, ◌≤◌, ◌++◌, ◌∷◌, [], length, map, OnOk};
ghost use Rattle.live.specs.Telling.{events_of, told_as};

use crate::turn::Turn;
use mk_value::Memory;
use row_edits::Event;
use std::alloc::Global;
use std::marker::Model;

/// An event of a watch.
#[derive(Clone, Copy, Debug)]
pub struct Told {
    /// The number of the watch.
    pub watch: u32,
    pub event: Event,
}

/// What the watches told of an event, in the order in which they were put.
#[derive(Drop)]
pub struct Out {
    told: Vec<Told>,
}

impl Model for Out {
    ghost use Rattle.std.specs.Prelude.{◌/◌};
    ghost use Rattle.std.specs.Vec.{vec_capacity};
    ghost use Rattle.live.specs.OutStates.{OutState};

    ghost Value = { OutState };

    ghost view = { λ o. record { told = o.told.items; spare = vec_capacity o.told / 2 } };
}

impl Out {
    /// An empty list.
    pub fn new(alloc: Global) -> Out
        ensures { result.told ≡ [] }
    {
        Out {
            told: Vec::new(alloc),
        }
    }

    /// Makes room for two events of each of so many watches; what it holds does not count.
    pub fn reserve(&mut self, watches: usize) -> Result<(), Memory>
        ensures told { self.new.told ≡ self.old.told }
        ensures spare { OnOk result (watches ≤ self.new.spare) }
    {
        let Some(events) = watches.checked_mul(2) else {
            return Err(Memory);
        };
        self.told.reserve(events)?;
        Ok(())
    }

    /// What was told.
    pub fn as_slice(&self) -> &[Told]
        ensures { result.now ≡ self.now.told }
    {
        self.told.as_slice()
    }

    /// Forgets what was told.
    pub(crate) fn clear(&mut self)
        ensures told { self.new.told ≡ [] }
        ensures spare { self.new.spare ≡ self.old.spare }
    {
        self.told.clear();
    }

    /// Tells the events of a turn of a watch.
    pub(crate) fn tell(&mut self, watch: u32, turn: Turn)
        requires { length self.old.told + 2 ≤ 2 * self.old.spare }
        ensures told { self.new.told ≡ self.old.told ++ map (told_as watch) (events_of turn) }
        ensures spare { self.new.spare ≡ self.old.spare }
    {
        match turn {
            Turn::Still => {}
            Turn::Comes(to) => self.push(watch, Event::Insert(to)),
            Turn::Goes(from) => self.push(watch, Event::Remove(from)),
            Turn::Changes(at) => self.push(watch, Event::Change(at)),
            Turn::Moves(from, to) => {
                self.push(watch, Event::Remove(from));
                self.push(watch, Event::Insert(to));
            }
        }
    }

    /// Appends an event, for which there is room.
    fn push(&mut self, watch: u32, event: Event)
        requires { length self.old.told + 1 ≤ 2 * self.old.spare }
        ensures told { self.new.told ≡ self.old.told ++ told_as watch event ∷ [] }
        ensures spare { self.new.spare ≡ self.old.spare }
    {
        self.told.push_reserved(Told { watch, event });
    }
}
