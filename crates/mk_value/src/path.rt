ghost use Rattle.std.specs.Prelude.{◌≡◌, ◌++◌, ◌∷◌, [], OnOk, OnErr};

use crate::{Memory, Name};
use smallvec::SmallVec;
use std::alloc::Global;
use std::default::MadeWith;
use std::marker::Model;

/// How many steps of a path stand in the path itself. Longer paths take memory.
const INLINE_STEPS: usize = 4;

/// A step of a path: a row and one of its properties, which is a view.
#[derive(Debug, Drop)]
pub struct Step {
    pub row: u64,
    pub prop: Name,
}

impl MadeWith<Global> for Step {
    fn made_with(_alloc: Global) -> Step {
        Step {
            row: 0,
            prop: Name::placeholder(),
        }
    }
}

/// A path to a view: the name of one that has a name, and the steps to one inside it.
#[derive(Drop)]
pub struct Path {
    name: Name,
    steps: SmallVec<Step, INLINE_STEPS>,
}

impl Model for Path {
    ghost use Rattle.mk_value.specs.Paths.{Route, route_code};

    ghost Value = { Route };

    ghost coded = { route_code };

    ghost view = { λ p. record { name = p.name; steps = p.steps.items } };
}

impl Path {
    /// The path to a view that has a name.
    pub fn new(alloc: Global, name: Name) -> Path
        ensures name { result.name ≡ name }
        ensures steps { result.steps ≡ [] }
    {
        Path {
            name,
            steps: SmallVec::new(alloc),
        }
    }

    /// Appends a step.
    pub fn push(&mut self, step: Step) -> Result<(), Memory>
        ensures name { self.new.name ≡ self.old.name }
        ensures ok { OnOk result (self.new.steps ≡ self.old.steps ++ step ∷ []) }
        ensures err { OnErr result (self.new.steps ≡ self.old.steps) }
    {
        self.steps.push(step)?;
        Ok(())
    }

    pub fn name(&self) -> &Name
        ensures { result.now ≡ self.now.name }
    {
        &self.name
    }

    pub fn steps(&self) -> &[Step]
        ensures { result.now ≡ self.now.steps }
    {
        self.steps.as_slice()
    }
}
