//! A block of raw memory: it is asked for, resized, written, lent and given back.
//!
//! Six functions are proved by hand, and no other needs a proof: [`Block::none`], [`Block::of`],
//! [`Deed::resize`], [`Deed::release`], [`write`] and [`lend`]. It is safe, since
//!
//! - the places of a block are a row of `core`, where each is empty or holds a value: what is
//!   read was written, and nothing outside the row is;
//! - [`Start`] is never null, and is used with the row alone that begins there;
//! - [`Deed`] is the one right to free the block, and frees it for the allocator that gave it;
//! - rows and deeds have no `Drop` and are never copied, so each block is freed once, and after
//!   its last use. [`Block::free`] lets go of them only where there is no block.
ghost use Rattle.std.specs.Prelude.{◌≡◌, ◌+◌, ◌<◌, ◌≤◌, ℕ, IfOk, take, ⊤};
ghost use Rattle.std.specs.Mem.Slots.{slots_items, slots_len, slots_ptr};
ghost use Rattle.std.specs.Vec.Ownership.{FitsInBlock};
ghost use denote.RawPtr.{Ptr, block_of, block_ptr, count_of};
ghost use Rattle.byte_buffer.specs.Deeds.{deed_owns};
ghost use Rattle.byte_buffer.specs.Places.{HoldsFirst, IsResized, IsWritten, KeepsFirst};

use core::slots::Slots;
use std::alloc::{AllocError, Allocator};
use std::marker::{Model, PhantomData};
use std::mem::{ManuallyDrop, align_of, size_of};

/// Where a block begins. It is never null, and owns nothing.
pub(crate) struct Start<T> {
    at: *const T,
    ghost placed: { at ≡ block_ptr (block_of at) (count_of at) },
}

impl<T> Clone for Start<T> {
    ghost is_clone = { λ x y. y ≡ x };

    ghost is_infallible = { λ _. ⊤ };

    fn clone(&self) -> Result<Start<T>, AllocError> {
        Ok(*self)
    }
}

impl<T> Copy for Start<T> {}

/// The right to give a block of `len` places back. It takes no bytes. With no place there is no
/// block, and nothing to give back.
pub(crate) struct Deed<T, A: Allocator> {
    by: PhantomData<*const (T, A)>,
    ghost at: { Ptr },
    ghost len: { ℕ },
    ghost alloc: { A },
}

impl<T, A: Allocator> Model for Deed<T, A> {
    ghost also_owns = { λ d. deed_owns (A.dealloc_token d.alloc) T.row d.at d.len };
}

/// A block: where it begins, its places, and the right to give it back.
pub(crate) struct Block<T, A: Allocator> {
    pub(crate) start: Start<T>,
    pub(crate) places: Slots<T>,
    pub(crate) deed: Deed<T, A>,
}

impl<T, A: Allocator> Block<T, A> {
    ghost use Rattle.byte_buffer.specs.Blocks.{IsOneOf};

    /// No place, and no memory.
    pub(crate) fn none(_alloc: &A) -> Block<T, A>
        ensures one { IsOneOf _alloc.now result }
        ensures len { slots_len result.places ≡ 0 }
    {
        let none: [T; 0] = [];
        let at = &raw const none as *const T;
        let places = unsafe { Slots::from_raw_parts(at.cast_mut(), 0) };
        Block {
            start: Start { at },
            places,
            deed: Deed { by: PhantomData },
        }
    }

    /// A block of `len` empty places.
    ///
    /// # Errors
    ///
    /// The allocator refused.
    pub(crate) fn of(alloc: &A, len: usize) -> Result<Block<T, A>, AllocError>
        requires size { FitsInBlock T.row len × (0 < len) }
        // There is a value of the type.
        requires value { T }
        ensures { IfOk result (λ b. IsOneOf alloc.now b × (slots_len b.places ≡ len)) }
    {
        match alloc.allocate(len * size_of::<T>(), align_of::<T>()) {
            Ok(block) => {
                let at = block as *mut T;
                let places = unsafe { Slots::from_raw_parts(at, len) };
                Ok(Block {
                    start: Start { at },
                    places,
                    deed: Deed { by: PhantomData },
                })
            }
            Err(error) => Err(error),
        }
    }

    /// The block with `wanted` places, if it is not refused them, and whether it was not. The first
    /// `len` values stay.
    pub(crate) fn resized(self, alloc: &A, len: usize, wanted: usize) -> (Block<T, A>, bool)
        requires one { IsOneOf alloc.now self × HoldsFirst len self.places }
        requires size { (slots_len self.places ≤ wanted) × FitsInBlock T.row wanted × (0 < wanted) }
        // There is a value of the type.
        requires value { T }
        ensures one { IsOneOf alloc.now result.0 × HoldsFirst len result.0.places }
        ensures values { KeepsFirst len self.places result.0.places }
        ensures len { IsResized result.1 wanted self.places result.0.places }
    {
        if self.places.len() != 0 {
            let Block {
                start: _,
                places,
                deed,
            } = self;
            return deed.resize(alloc, places, len, wanted);
        }
        match Block::of(alloc, wanted) {
            Ok(block) => {
                self.free(alloc);
                (block, true)
            }
            Err(_) => (self, false),
        }
    }

    /// Gives the memory back. What the places hold is forgotten.
    pub(crate) fn free(self, alloc: &A)
        requires { IsOneOf alloc.now self }
    {
        let Block {
            start: _,
            places,
            deed,
        } = self;
        if places.len() != 0 {
            return deed.release(alloc, places);
        }
        let _none = unsafe { ManuallyDrop::new_unchecked((places, deed)) };
    }
}

impl<T, A: Allocator> Deed<T, A> {
    ghost use Rattle.byte_buffer.specs.Blocks.{IsDeedOf, IsOneOf};

    /// Makes the block one of `wanted` places, at the same address or at another, and tells whether
    /// it is. It keeps the first `len` values. A block that is refused stays where it is.
    fn resize(self, alloc: &A, places: Slots<T>, len: usize, wanted: usize) -> (Block<T, A>, bool)
        requires some { 0 < slots_len places }
        requires deed { IsDeedOf alloc.now places self }
        requires values { HoldsFirst len places }
        requires size { (slots_len places ≤ wanted) × FitsInBlock T.row wanted }
        ensures one { IsOneOf alloc.now result.0 × HoldsFirst len result.0.places }
        ensures values { KeepsFirst len places result.0.places }
        ensures len { IsResized result.1 wanted places result.0.places }
    {
        let Deed { by: _ } = self;
        unsafe {
            let (old, size) = places.into_raw_parts();
            let (at, size, is_resized) = match alloc.grow(old, len, size, wanted) {
                Ok(at) => (at, wanted, true),
                Err(_) => (old, size, false),
            };
            let places = Slots::from_raw_parts(at, size);
            let block = Block {
                start: Start { at },
                places,
                deed: Deed { by: PhantomData },
            };
            (block, is_resized)
        }
    }

    /// Gives the memory of the places back. What they hold is forgotten.
    fn release(self, alloc: &A, places: Slots<T>)
        requires some { 0 < slots_len places }
        requires deed { IsDeedOf alloc.now places self }
    {
        let Deed { by: _ } = self;
        unsafe {
            let (at, len) = places.into_raw_parts();
            alloc.deallocate(at as *mut u8, len * size_of::<T>(), align_of::<T>());
        }
    }
}

/// Writes values into the places from `at` on, in one store. What those held is forgotten.
pub(crate) fn write<T, const N: usize>(
    places: &mut Slots<T>,
    start: Start<T>,
    at: usize,
    values: [T; N],
)
    requires start { start.at ≡ slots_ptr places.old }
    requires room { at + N ≤ slots_len places.old }
    ensures { IsWritten at N values places.old places.new }
{
    unsafe {
        start.at.cast_mut().add(at).cast::<[T; N]>().write(values);
    }
}

/// The first `len` values.
pub(crate) fn lend<T>(places: &Slots<T>, start: Start<T>, len: usize) -> &[T]
    requires start { start.at ≡ slots_ptr places.now }
    requires values { HoldsFirst len places.now }
    ensures { result.now ≡ take len (slots_items places.now) }
{
    unsafe { std::slice::from_raw_parts(start.at, len) }
}
