// Which of two slots is chosen.
ghost use Rattle.std.specs.Prelude.{◌≡◌, ◌≢◌, ◌↔◌, ℕ, List, length, IsTrue, MatchResult};
ghost use Rattle.commit_marks.specs.Marks.{Chooses, IsHeaded, IsMarkRefusal, header};
ghost use Rattle.commit_marks.specs.Slots.{HasSlot, IsHeadOf, GivesMarks};
ghost use Rattle.commit_marks.specs.declared.error.MarkError.TheVariants as mark_error;

use crate::error::MarkError;
use crate::mark::{HEADER, Marks};
use crate::slot::{Slot, read_slot};
use std::cmp::Ordering;

const FIRST_SLOT: u64 = 64;

const SECOND_SLOT: u64 = 128;

/// Whether these bytes are the header of a store.
fn is_header(front: &[u8]) -> bool
    ensures { IsTrue result ↔ (front.now ≡ header) }
{
    front == HEADER.as_slice()
}

/// The marks that two slots give, whether or not the chosen one fits the file.
fn pick(first: Slot, second: Slot) -> Result<Marks, MarkError>
    ensures gives { (image : List ℕ) → IsHeaded image → HasSlot image 0 first → HasSlot image 1 second →
        MatchResult result (λ marks. Chooses image marks.slot marks.chosen marks.other) (IsMarkRefusal image) }
    ensures no_fault { result ≢ Err mark_error.Failed }
{
    match (first, second) {
        (Slot::Spoiled, _) => Err(MarkError::BadMark(FIRST_SLOT)),
        (_, Slot::Spoiled) => Err(MarkError::BadMark(SECOND_SLOT)),
        (Slot::Closed, Slot::Closed) => Err(MarkError::NoOpenMark),
        (Slot::Open(chosen), Slot::Closed) => Ok(Marks {
            chosen,
            slot: 0,
            other: None,
        }),
        (Slot::Closed, Slot::Open(chosen)) => Ok(Marks {
            chosen,
            slot: 1,
            other: None,
        }),
        (Slot::Open(one), Slot::Open(two)) => match one.number.cmp(&two.number) {
            Ordering::Equal => Err(MarkError::BadMark(SECOND_SLOT)),
            Ordering::Greater => Ok(Marks {
                chosen: one,
                slot: 0,
                other: Some(two),
            }),
            Ordering::Less => Ok(Marks {
                chosen: two,
                slot: 1,
                other: Some(one),
            }),
        },
    }
}

/// The marks of a file of `len` bytes, of which these are the first 192.
pub(crate) fn choose(head: &[u8], len: u64) -> Result<Marks, MarkError>
    requires { length head.now ≡ 192 }
    ensures gives { (image : List ℕ) → IsHeadOf head.now len image → GivesMarks image result }
    ensures no_fault { result ≢ Err mark_error.Failed }
{
    if !is_header(&head[..64]) {
        return Err(MarkError::NotAStore);
    }
    let marks = pick(read_slot(&head[64..128]), read_slot(&head[128..192]))?;
    if marks.chosen.fits_file(len) {
        Ok(marks)
    } else {
        Err(MarkError::BadMark(64 + 64 * u64::from(marks.slot)))
    }
}
