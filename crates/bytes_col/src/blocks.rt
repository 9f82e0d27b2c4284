//! A column made of its blocks.
ghost use Rattle.std.specs.Prelude.{◌≡◌, ℕ, pos, ◌+◌, ◌-◌, ◌<◌, ◌≤◌, [], ◌∷◌, ◌++◌, length, take, drop, slice_get, slice_index_or, Some, false, IfOk, IfErr, IfSome, IfNone, OnOk, OnErr};
ghost use Rattle.std.specs.Bool.{OnTrue, OnFalse};
ghost use Rattle.bytes_col.specs.declared.blocks.BlocksError.TheVariants.{Memory};
ghost use Rattle.bytes_col.specs.Parts.{added};
ghost use Rattle.bytes_col.specs.Blocks.{AreBlocks, IsBlocksRefusal, TakesNext, fits_first, first_has};

use crate::cell::SHORT_MOST;
use crate::memo::Memo;
use crate::parts::Parts;
use int_col::IntCol;
use mk_value::{Bytes, Memory as OutOfMemory};
use std::alloc::Global;
use std::marker::Model;
use thiserror::Error;

/// Why a column is not made of its blocks.
#[derive(Debug, PartialEq, Eq, Drop, Error)]
pub enum BlocksError {
    /// There are no values with these sizes, these short values and these memos.
    #[error("no column has these blocks")]
    Mismatch,
    /// Memory ran out.
    #[error("out of memory")]
    Memory,
}

impl From<OutOfMemory> for BlocksError {
    ghost from_gives = { λ _ e. e ≡ Memory };

    fn from(_error: OutOfMemory) -> BlocksError {
        BlocksError::Memory
    }
}

/// The memos of a column, in the order of the rows. A caller sees the list of their bytes.
#[derive(Drop)]
pub struct Memos {
    items: Vec<Memo>,
}

impl Model for Memos {
    ghost use Rattle.std.specs.Prelude.{List, ℕ};

    ghost Value = { List (List ℕ) };

    ghost view = { λ m. m.items.items };
}

impl Memos {
    /// No memos. It takes no memory.
    pub fn new(alloc: Global) -> Memos
        ensures { result ≡ [] }
    {
        Memos {
            items: Vec::new(alloc),
        }
    }

    /// Adds a memo at the end. Its bytes are not copied.
    ///
    /// # Errors
    ///
    /// Want of memory, and the list is as it was.
    pub fn push(&mut self, value: Bytes) -> Result<(), OutOfMemory>
        ensures ok { OnOk result (self.new ≡ self.old ++ value.bytes ∷ []) }
        ensures err { OnErr result (self.new ≡ self.old) }
    {
        let memo = Memo::from_vec(*self.items.allocator(), value.into_vec())?;
        self.items.push(memo)?;
        Ok(())
    }

    /// How many memos there are.
    pub fn len(&self) -> usize
        ensures { result ≡ length self.now }
    {
        self.items.len()
    }

    pub(crate) fn as_slice(&self) -> &[Memo]
        ensures { result.now ≡ self.now }
    {
        self.items.as_slice()
    }
}

/// The values of these sizes, in chunks: of at most 512 bytes the next of the short bytes, and else the next memo.
pub(crate) fn parts_of(
    alloc: Global,
    sizes: &IntCol,
    short: &[u8],
    memos: &[Memo],
) -> Result<Parts, BlocksError>
    ensures ok { IfOk result (λ parts. AreBlocks (added parts) sizes.now.values short.now memos.now) }
    ensures err { IfErr result (IsBlocksRefusal sizes.now.values short.now memos.now) }
{
    let mut parts = Parts::new(alloc);
    let mut next = Next { byte: 0, memo: 0 };
    for at in 0..sizes.len() {
        let Some(size) = size_at(sizes, at) else {
            return Err(BlocksError::Mismatch);
        };
        match add_next(&mut parts, size, short, memos, next) {
            Ok(more) => next = more,
            Err(error) => return Err(error),
        }
    }
    if next.byte < short.len() || next.memo < memos.len() {
        return Err(BlocksError::Mismatch);
    }
    Ok(parts)
}

/// The size at a row, where it is one.
fn size_at(sizes: &IntCol, at: usize) -> Option<usize>
    requires { at < length sizes.now.values }
    ensures some { IfSome result (λ n. slice_get sizes.now.values at ≡ Some (pos n)) }
    ensures none { IfNone result ((n : ℕ) → slice_get sizes.now.values at ≡ Some (pos n) → ⊥) }
{
    let size = sizes.get(at);
    if size < 0 {
        return None;
    }
    Some(size as usize)
}

/// The next short byte, and the next memo.
#[derive(Clone, Copy, Debug)]
pub(crate) struct Next {
    pub(crate) byte: usize,
    pub(crate) memo: usize,
}

/// Adds the value of this size, and says which byte and memo are the next then.
fn add_next(
    parts: &mut Parts,
    size: usize,
    short: &[u8],
    memos: &[Memo],
    next: Next,
) -> Result<Next, BlocksError>
    requires byte { next.byte ≤ length short.now }
    requires memo { next.memo ≤ length memos.now }
    ensures ok { IfOk result (TakesNext size short.now memos.now (added parts.old) (added parts.new) next) }
    ensures err { IfErr result (λ e. e ≡ BlocksError.Mismatch → fits_first size (drop next.byte short.now) (drop next.memo memos.now) ≡ false) }
{
    if size <= SHORT_MOST {
        if short.len() - next.byte < size {
            return Err(BlocksError::Mismatch);
        }
        let end = next.byte + size;
        parts.append(&short[next.byte..end])?;
        return Ok(Next { byte: end, ..next });
    }
    if !has_size(memos, next.memo, size) {
        return Err(BlocksError::Mismatch);
    }
    parts.append_memo(&memos[next.memo])?;
    Ok(Next {
        memo: next.memo + 1,
        ..next
    })
}

/// Whether the memo at a place has this size.
fn has_size(memos: &[Memo], at: usize, size: usize) -> bool
    ensures yes { OnTrue result ((at < length memos.now) × (length (slice_index_or memos.now at []) ≡ size)) }
    ensures no { OnFalse result (first_has size (drop at memos.now) ≡ false) }
{
    match memos.get(at) {
        None => false,
        Some(memo) => memo.bytes().len() == size,
    }
}
