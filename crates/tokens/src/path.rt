//! Reading paths.
ghost use Rattle.std.specs.Prelude.{◌≡◌, ◌≤◌, ◌<◌, ◌+◌, ◌⊎◌, ℕ, length, take, drop, IfOk, IfErr};
ghost use Rattle.tokens.specs.Fronts.{Stops};
ghost use Rattle.tokens.specs.Paths.{GoesOnWithSlash, PathTokens, SpellsPath, StandsStep, StepTokens, slash};
ghost use Rattle.tokens.specs.Standing.{Stands};
ghost use Rattle.mk_value.specs.Tokens.{sign as plain_sign};
ghost use Rattle.tokens.specs.Meanings.{tokens_of_pieces};

use crate::standing::{is_sign_at, row_at, word_at};
use crate::{PartError, Piece, Sign};
use mk_value::{Path, Step};
use std::alloc::Global;

/// Reads the path that stands at the front of the pieces, up to the first token behind a name that is no `/`, and tells how many of them
/// it took.
///
/// # Errors
///
/// `Stuck` with the number of pieces that are a front of a path, where none is whole: the next one, if there is one, cannot go on. `Memory`.
pub fn path_at(alloc: Global, pieces: &[Piece<'_>]) -> Result<(Path, usize), PartError>
    ensures within { IfOk result (λ read. read.1 ≤ length pieces.now) }
    ensures spells { IfOk result (λ read. SpellsPath (take read.1 (tokens_of_pieces pieces.now)) read.0) }
    ensures ends { IfOk result (λ read. GoesOnWithSlash (drop read.1 (tokens_of_pieces pieces.now)) → ⊥) }
    ensures stuck { IfErr result (λ error. (error ≡ PartError.Memory) ⊎ ((count : ℕ) × (error ≡ PartError.Stuck count) × Stops PathTokens (tokens_of_pieces pieces.now) count)) }
{
    let Some(name) = word_at(pieces, 0) else {
        return Err(PartError::Stuck(0));
    };
    let mut path = Path::new(alloc, name);
    let mut at = 1;
    while is_sign_at(pieces, at, Sign::Slash) {
        let step = step_at(pieces, at)?;
        path.push(step)?;
        at += 4;
    }
    Ok((path, at))
}

/// The step whose slash stands at a place.
fn step_at(pieces: &[Piece<'_>], at: usize) -> Result<Step, PartError>
    requires opens { Stands (tokens_of_pieces pieces.now) at (plain_sign slash) }
    requires within { at < length pieces.now }
    ensures step { IfOk result (StandsStep (tokens_of_pieces pieces.now) at) }
    ensures stuck { IfErr result (λ error. (error ≡ PartError.Memory) ⊎ ((count : ℕ) × (error ≡ PartError.Stuck (at + count)) × Stops StepTokens (drop at (tokens_of_pieces pieces.now)) count)) }
{
    let Some(row) = row_at(pieces, at + 1) else {
        return Err(PartError::Stuck(at + 1));
    };
    if !is_sign_at(pieces, at + 2, Sign::Slash) {
        return Err(PartError::Stuck(at + 2));
    }
    let Some(prop) = word_at(pieces, at + 3) else {
        return Err(PartError::Stuck(at + 3));
    };
    Ok(Step { row, prop })
}
