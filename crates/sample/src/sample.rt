ghost use Rattle.std.specs.Prelude.{◌≡◌, ◌≤◌, ◌+◌, [], ◌∷◌, length, true, false};
ghost use Rattle.sample.specs.Lines.{BeginsWithVerb, sample_lines};

use crate::edit::append;
use crate::place::Place;
use mk_value::Text;
use std::marker::Model;

/// More bytes than a line of a sample has.
pub const MAX_SAMPLE_LINE: usize = 80;

/// The line that gives the view its structure.
const STRUCTURE: &str = "getas item[id:I,name:S,qty:L]";

/// The lines of a sample that are left.
#[derive(Drop)]
pub struct Sample {
    place: Place,
    stage: Stage,
}

/// How far a sample has come.
#[derive(Clone, Copy)]
pub(crate) enum Stage {
    /// The first line comes next, and then so many edits.
    First(u32),
    /// So many edits come next, and then the last line.
    Edits(u32),
    /// No line comes.
    Over,
}

impl Model for Sample {
    ghost use Rattle.std.specs.Prelude.{ℕ, List, ◌<◌, ◌+◌, ◌^◌};
    ghost use Rattle.sample.specs.Stages.{edits_left, left_at};

    ghost Value = { List (List ℕ) };

    ghost view = { λ s. left_at s.stage s.place };

    ghost invariant = { λ s. s.place.rows + edits_left s.stage < 2 ^ 33 };
}

impl Sample {
    /// The sample of a number, with so many edits.
    pub fn new(number: u64, edits: u32) -> Sample
        ensures { result ≡ sample_lines number edits }
    {
        Sample {
            place: Place {
                state: number,
                rows: 0,
            },
            stage: Stage::First(edits),
        }
    }

    /// Appends the next line to an empty one, without its newline. Gives whether there was one.
    pub fn next_line(&mut self, line: &mut Text) -> bool
        requires empty { line.old.bytes ≡ [] }
        requires room { MAX_SAMPLE_LINE ≤ line.old.spare }
        ensures some { result ≡ true → self.old ≡ line.new.bytes ∷ self.new }
        ensures short { length line.new.bytes ≤ MAX_SAMPLE_LINE }
        ensures begins { result ≡ true → BeginsWithVerb line.new.bytes }
        ensures none { result ≡ false → (self.old ≡ []) × (self.new ≡ self.old) × (line.new.bytes ≡ []) }
        ensures room { line.old.spare ≤ line.new.spare + length line.new.bytes }
    {
        match self.stage {
            Stage::First(edits) => {
                append(STRUCTURE, line);
                self.stage = Stage::Edits(edits);
                true
            }
            Stage::Edits(0) => {
                append("commit", line);
                self.stage = Stage::Over;
                true
            }
            Stage::Edits(edits) => {
                self.place = self.place.edit(line);
                self.stage = Stage::Edits(edits - 1);
                true
            }
            Stage::Over => false,
        }
    }
}
