//! A value with any number of owners, in one block with the count of them.
ghost use Rattle.std.specs.Prelude.{◌≡◌, IfSome};
ghost use Rattle.symbols.specs.SharedBlock.{owner_owns, owner_lends};

use bare_box::Bare;
use std::marker::Model;

/// The count of the owners, and what they share.
///
/// A count that is at its maximum stays there, and the block with it.
#[derive(Drop)]
pub(crate) struct Block<T> {
    pub(crate) owners: usize,
    pub(crate) value: T,
}

/// One owner of a block.
///
/// It has no `Drop`: it ends by [`Shared::release`] alone, so no owner is lost.
pub(crate) struct Shared<T> {
    block: *const Block<T>,
    pub(crate) ghost value: { T },
}

impl<T> Model for Shared<T> {
    ghost also_owns = { λ s. owner_owns T.row s.block s.value };

    ghost also_shares = { λ s _ κ. owner_lends T.row s.block s.value κ };
}

impl<T> Shared<T> {
    /// The first owner of a block.
    pub(crate) fn first(block: Bare<Block<T>>) -> Shared<T>
        requires { block.value.owners ≡ 1 }
        ensures { result.value ≡ block.value.value }
    {
        let Bare { at } = block;
        Shared { block: at }
    }

    /// What all owners of the block share.
    pub(crate) fn value(&self) -> &T
        ensures { result.now ≡ self.now.value }
    {
        unsafe { &(*self.block).value }
    }

    /// One more owner. A count at its maximum is not raised.
    pub(crate) fn another(&self) -> Shared<T>
        ensures { result.value ≡ self.now.value }
    {
        let block = self.block.cast_mut();
        unsafe {
            let owners = (*block).owners;
            if owners != usize::MAX {
                (*block).owners = owners + 1;
            }
        }
        Shared { block }
    }

    /// Gives this owner up. The last one gets the block, and no other does.
    pub(crate) fn release(self) -> Option<Bare<Block<T>>>
        ensures { IfSome result (λ b. b.value.value ≡ self.value) }
    {
        let Shared { block } = self;
        let at = block.cast_mut();
        unsafe {
            let owners = (*at).owners;
            if owners == usize::MAX {
                return None;
            }
            if owners != 1 {
                (*at).owners = owners - 1;
                return None;
            }
        }
        Some(Bare { at })
    }
}
