//! A value that any number of owners share. The clauses see an `Rc` as its value.
ghost use Rattle.std.specs.Prelude.{◌≡◌, IfOk, IsOkUnless, ⊤};
ghost use Rattle.std.specs.Cmp.Rules.{hashing};
ghost use Rattle.std.proofs.Common.{rules};
ghost use Rattle.symbols.specs.declared.fault.TtFault.TheVariants as fault;

pub(crate) mod shared;

use crate::fault::TtFault;
use crate::rc::shared::{Block, Shared};
use bare_box::Bare;
use std::alloc::{AllocError, Global};
use std::fmt;
use std::hash::{Hash, Hasher};
use std::marker::Model;
use std::ops::Deref;

/// A value that any number of owners share, in one block of memory with the count of them.
///
/// It is std's `Rc` but for a full count: a clone takes no memory and is never refused.
/// The value is dropped, and its block freed, with the last owner.
/// A value that comes to have 2^64 - 1 owners at once is kept for good.
pub struct Rc<T> {
    shared: Shared<T>,
    alloc: Global,
}

impl<T> Model for Rc<T> {
    ghost Value = { T };

    ghost view = { λ r. r.shared.value };
}

impl<T> Rc<T> {
    /// The first owner of this value. It takes one block of memory.
    ///
    /// # Errors
    ///
    /// `Memory` if `alloc` has no room for the block; the value is then dropped. It is the only error.
    pub fn new(alloc: Global, value: T) -> Result<Rc<T>, TtFault>
    where
        T: Drop,
        ensures value { IfOk result (λ r. r ≡ value) }
        ensures memory { IsOkUnless result fault.Memory }
    {
        let Ok(block) = Box::new(alloc, Block { owners: 1, value }) else {
            return Err(TtFault::Memory);
        };
        let shared = Shared::first(Bare::of(block));
        Ok(Rc { shared, alloc })
    }

    /// The value.
    pub fn as_ref(&self) -> &T
        ensures { result.now ≡ self.now }
    {
        self.shared.value()
    }
}

impl<T> Deref for Rc<T> {
    type Target = T;

    ghost deref_gives = { λ r x. x ≡ r };

    /// The value.
    fn deref(&self) -> &T
        ensures { result.now ≡ self.now }
    {
        self.as_ref()
    }
}

impl<T: Drop> Clone for Rc<T> {
    ghost is_clone = { λ r copy. copy ≡ r };

    ghost is_infallible = { λ _. ⊤ };

    /// One more owner of the same value. It takes no memory, and is never an `Err`.
    fn clone(&self) -> Result<Rc<T>, AllocError> {
        let shared = self.shared.another();
        Ok(Rc {
            shared,
            alloc: self.alloc,
        })
    }
}

impl<T: Drop> Drop for Rc<T> {
    /// One owner less. The last one drops the value and frees its block.
    fn drop(self) {
        let Rc { shared, alloc } = self;
        if let Some(block) = shared.release() {
            drop(block.into_box(alloc));
        }
    }
}

impl<T: PartialEq> PartialEq for Rc<T> {
    ghost eq = { T.eq };

    ghost laws = { T.laws };

    /// Whether the values are equal.
    fn eq(&self, other: &Rc<T>) -> bool {
        self.as_ref() == other.as_ref()
    }
}

impl<T: Eq> Eq for Rc<T> {
    ghost laws = { T.Eq.laws };
}

impl<T: Hash> Hash for Rc<T> {
    ghost hash_input = { T.hash_input };

    ghost respects_eq = { Prim.search (hashing, rules) };

    /// Feeds the value.
    fn hash<H: Hasher>(&self, state: &mut H) {
        self.as_ref().hash(state);
    }
}

impl<T: fmt::Debug> fmt::Debug for Rc<T> {
    ghost debug_output = { T.debug_output };

    /// Writes the value.
    fn fmt<W: fmt::Write>(&self, f: &mut fmt::Formatter<W>) -> fmt::Result {
        fmt::Debug::fmt(self.as_ref(), f)
    }
}
