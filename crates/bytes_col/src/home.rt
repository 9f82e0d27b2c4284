//! Where a column of byte strings stands in a file.
ghost use Rattle.std.specs.Prelude.{◌≡◌, IfOk, IfErr};

use mk_value::{Memory, Span, Spans};
use segments::Shared;
use std::alloc::Global;
use std::marker::Model;

/// The blocks of a column: the packed sizes of its values, its short values joined, and each memo, in the order of the
/// rows.
#[derive(Debug, Drop)]
pub struct BytesHome {
    pub sizes: Span,
    pub short: Span,
    pub memos: Spans,
}

impl BytesHome {
    /// A home of the same blocks.
    ///
    /// # Errors
    ///
    /// `Memory`.
    pub fn copy(&self, alloc: Global) -> Result<BytesHome, Memory>
        ensures { IfOk result (λ copy. copy ≡ self.now) }
    {
        let memos = Vec::from_slice(alloc, self.memos.as_slice())?;
        Ok(BytesHome {
            sizes: self.sizes,
            short: self.short,
            memos: Spans::from(memos),
        })
    }
}

/// How a column has its home.
#[derive(Drop)]
pub(crate) enum Tie {
    /// By itself, as it was settled.
    Own(BytesHome),
    /// Together with its copies.
    Common(Shared<BytesHome>),
}

/// The home of a column, which its copies share. A caller sees the home.
#[derive(Drop)]
pub(crate) struct Home {
    tie: Tie,
}

impl Model for Home {
    ghost use Rattle.bytes_col.specs.declared.home.BytesHome.{BytesHome};

    ghost Value = { BytesHome };

    ghost use Rattle.bytes_col.specs.Ties.{home_of};

    ghost view = { λ h. home_of h.tie };
}

impl Home {
    /// This home. It takes no memory.
    pub(crate) fn own(home: BytesHome) -> Home
        ensures { result ≡ home }
    {
        Home {
            tie: Tie::Own(home),
        }
    }

    /// This home, for copies to share.
    pub(crate) fn common(alloc: Global, home: BytesHome) -> Result<Home, Memory>
        ensures { IfOk result (λ common. common ≡ home) }
    {
        Ok(Home {
            tie: Tie::Common(Shared::of(alloc, home)?),
        })
    }

    pub(crate) fn get(&self) -> &BytesHome
        ensures { result.now ≡ self.now }
    {
        match &self.tie {
            Tie::Own(home) => home,
            Tie::Common(home) => home.get(),
        }
    }

    /// The same home for a copy: one owner more, or where the column has it by itself a copy that further copies share.
    pub(crate) fn same(&self, alloc: Global) -> Result<Home, Memory>
        ensures { IfOk result (λ same. same ≡ self.now) }
    {
        match &self.tie {
            Tie::Own(home) => Home::common(alloc, home.copy(alloc)?),
            Tie::Common(home) => common_of(home),
        }
    }
}

/// One owner more of a home.
fn common_of(home: &Shared<BytesHome>) -> Result<Home, Memory>
    ensures { IfOk result (λ common. common ≡ home.now) }
{
    Ok(Home {
        tie: Tie::Common(home.clone()?),
    })
}

/// Whether a home is put away.
#[derive(Drop)]
pub(crate) enum Kept {
    /// There is none.
    Nowhere,
    /// It is in memory of its own.
    Boxed(Box<Home>),
}

/// A home, or none, that is put away while a column makes itself ready, so that what is moved meanwhile is small. A caller sees the home.
#[derive(Drop)]
pub(crate) struct KeptHome {
    kept: Kept,
}

impl Model for KeptHome {
    ghost use Rattle.std.specs.Prelude.{Option};
    ghost use Rattle.bytes_col.specs.declared.home.BytesHome.{BytesHome};

    ghost Value = { Option BytesHome };

    ghost use Rattle.bytes_col.specs.Ties.{kept_home};

    ghost view = { λ h. kept_home h.kept };
}

impl KeptHome {
    /// Puts a home away. It takes no memory where there is none.
    ///
    /// # Errors
    ///
    /// The home, for want of memory.
    #[inline(always)]
    pub(crate) fn of(alloc: Global, home: Option<Home>) -> Result<KeptHome, Option<Home>>
        ensures ok { IfOk result (λ kept. kept ≡ home) }
        ensures err { IfErr result (λ same. same ≡ home) }
    {
        let Some(home) = home else {
            return Ok(KeptHome {
                kept: Kept::Nowhere,
            });
        };
        match Box::new(alloc, home) {
            Ok(home) => Ok(KeptHome {
                kept: Kept::Boxed(home),
            }),
            Err(failed) => Err(Some(failed.value)),
        }
    }

    /// The home itself. It takes no memory.
    #[inline(always)]
    pub(crate) fn take(self) -> Option<Home>
        ensures { result ≡ self }
    {
        match self.kept {
            Kept::Nowhere => None,
            Kept::Boxed(home) => Some(Box::into_inner(home)),
        }
    }
}
