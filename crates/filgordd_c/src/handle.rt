//! A session that C holds.
ghost use Rattle.std.specs.Prelude.{◌≡◌, option_map};
ghost use Rattle.std.specs.Coded.{coded_option};
ghost use Rattle.std.specs.declared.option.Option.{Option};
ghost use Rattle.std.specs.declared.option.Option.TheVariants.{None, Some};
ghost use Rattle.filgordd_c.specs.Handles.{handle_owns};
ghost use Rattle.filgordd_c.specs.contracts.live.Live as lives;
ghost use Rattle.filgordd_c.specs.declared.live.Live.{Live};

use crate::live::Live;
use bare_box::Bare;
use std::alloc::Global;
use std::marker::Model;
use std::mem::replace;
use std::ptr::null_mut;

/// A session that C holds, or none.
///
/// It has no `Drop`: where one is taken apart, what it holds is taken over.
#[repr(C)]
pub struct Handle {
    at: *mut u8,
    pub ghost held: { Option Live } by { coded_option lives.the_row.coded },
}

impl Model for Handle {
    ghost also_owns = { λ h. handle_owns lives.the_row h.at h.held };
}

impl Handle {
    // A handle that holds this.
    fn of(live: Bare<Live>) -> Handle
        ensures { result.held ≡ Some live.value }
    {
        let Bare { at } = live;
        Handle { at: at as *mut u8 }
    }

    // A handle that holds nothing.
    fn closed() -> Handle
        ensures { result.held ≡ None }
    {
        Handle { at: null_mut() }
    }

    // What is held.
    fn into_bare(self) -> Option<Bare<Live>>
        ensures { option_map (λ live. live.value) result ≡ self.held }
    {
        let Handle { at } = self;
        if at.is_null() {
            None
        } else {
            Some(Bare {
                at: at as *mut Live,
            })
        }
    }

    /// What is held. It is held no more.
    pub(crate) fn take(&mut self, alloc: Global) -> Option<Box<Live>>
        ensures taken { option_map (λ live. live.value) result ≡ self.old.held }
        ensures left { self.new.held ≡ None }
    {
        match replace(self, Handle::closed()).into_bare() {
            Some(live) => Some(live.into_box(alloc)),
            None => None,
        }
    }

    /// Holds this. What was held is freed.
    pub(crate) fn put(&mut self, alloc: Global, live: Box<Live>)
        ensures { self.new.held ≡ Some live.value }
    {
        if let Some(old) = replace(self, Handle::of(Bare::of(live))).into_bare() {
            drop(old.into_box(alloc));
        }
    }
}
