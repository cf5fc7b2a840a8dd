//! A box of the heap as its bare pointer: what a counted block and a handle of C's are made of.
#![tactic(auto)]

ghost use Rattle.std.specs.Prelude.{◌≡◌};
ghost use Rattle.bare_box.specs.BareBox.{bare_owns};

use std::alloc::Global;
use std::marker::Model;

/// A box of the heap as its pointer. Any handle of the heap can take it back.
///
/// It has no `Drop`: it ends by [`Bare::into_box`], or is taken apart, so no block is lost.
/// Who takes it apart or makes one of a pointer proves by hand that the block is owned.
pub struct Bare<T> {
    /// Where the value is.
    pub at: *mut T,
    /// The value.
    pub ghost value: { T },
}

impl<T> Model for Bare<T> {
    ghost also_owns = { λ b. bare_owns T.row b.at b.value };
}

impl<T> Bare<T> {
    /// The box's pointer.
    pub fn of(from: Box<T, Global>) -> Bare<T>
    where
        T: Drop,
        ensures { result.value ≡ from.value }
    {
        let at = Box::into_raw(from);
        Bare { at }
    }

    /// The box again.
    pub fn into_box(self, alloc: Global) -> Box<T, Global>
        ensures { result.value ≡ self.value }
    {
        let Bare { at } = self;
        unsafe { Box::from_raw(alloc, at) }
    }
}
