//! A value that copies share.
ghost use Rattle.std.specs.Prelude.{◌≡◌, IfOk, IfSome};

use mk_value::Memory;
use std::alloc::{AllocError, Global};
use std::marker::Model;
use std::rc::Rc;

/// A value with several owners, which is copied before a write unless it has only one. A caller sees the value.
#[derive(Drop)]
pub struct Shared<T> {
    inner: Rc<T>,
}

impl<T> Model for Shared<T> {
    ghost Value = { T };

    ghost coded = { T.code };

    ghost view = { λ s. s.inner.value };
}

impl<T: Drop> Clone for Shared<T> {
    ghost is_clone = { λ a b. b ≡ a };

    /// One more owner of the value.
    fn clone(&self) -> Result<Shared<T>, AllocError> {
        Ok(Shared {
            inner: self.inner.clone()?,
        })
    }
}

impl<T: Drop> Shared<T> {
    ghost use Rattle.std.specs.Borrow.{LendsIf, sem};
    ghost use Rattle.segments.specs.contracts.shared.Shared.{the_row};

    /// The value with one owner.
    ///
    /// # Errors
    ///
    /// `Memory`.
    pub fn of(alloc: Global, value: T) -> Result<Shared<T>, Memory>
        ensures { IfOk result (λ shared. shared ≡ value) }
    {
        Ok(Shared {
            inner: Rc::new(alloc, value)?,
        })
    }

    /// The value, to be written to, where it has no other owner. It takes no memory.
    #[inline(always)]
    pub fn sole(&mut self) -> Option<&mut T>
        ensures* writes_back { sem 𝓛 (LendsIf (the_row T.row) T.row self.entry result (λ w. w) self.old) }
        ensures value { IfSome result (λ x. x.now ≡ self.old) }
    {
        Rc::get_mut(&mut self.inner)
    }

    /// The value.
    #[inline(always)]
    pub fn get(&self) -> &T
        ensures { result.now ≡ self.now }
    {
        &self.inner
    }
}

impl<T: Clone + Drop> Shared<T> {
    ghost use Rattle.std.specs.Prelude.{◌⊎◌};
    ghost use Rattle.std.specs.Borrow.{LendsSoOk, sem};
    ghost use Rattle.segments.specs.contracts.shared.Shared.{the_row};

    /// The value, to be written to: the value itself where it has no other owner, and else a copy in its place, while the
    /// others keep it.
    ///
    /// # Errors
    ///
    /// Want of memory, and the value is as it was.
    #[inline(always)]
    pub fn own(&mut self) -> Result<&mut T, AllocError>
        ensures* writes_back { sem 𝓛 (LendsSoOk (the_row T.row) T.row self.entry result (λ n w. n ≡ w) (λ n. (n ≡ self.entry.now) ⊎ T.is_clone self.entry.now n)) }
        ensures value { IfOk result (λ x. (x.now ≡ self.old) ⊎ T.is_clone self.old x.now) }
    {
        Rc::make_mut(&mut self.inner)
    }
}
