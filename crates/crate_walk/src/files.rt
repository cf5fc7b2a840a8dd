//! What files have, and where they come from.
ghost use Rattle.std.specs.Prelude.{◌≡◌, List, Option, ℕ, IfOk, option_map, string_bytes};
ghost use Rattle.crate_walk.specs.Files.{events_of};
ghost use Rattle.crate_walk.specs.declared.files.Content.{Content};

use crate::event::Event;
use std::alloc::{AllocError, Global};

/// Why a file has no events.
#[derive(Clone, Copy, PartialEq, Eq, Debug)]
pub enum Unread {
    /// It cannot be opened or read.
    Failed,
    /// It is no UTF-8.
    NotUtf8,
    /// It has more than 4,294,967,295 bytes, or would be read as more tokens.
    TooLong,
    /// Its text cannot be read as trees: the fault is at this offset, in bytes.
    Fault(u32),
}

/// What a file has.
#[derive(Drop)]
pub enum Content {
    /// A text, and what it declares.
    Text(String, Vec<Event>),
    /// No text that can be read.
    Unread(Unread),
}

impl Content {
    /// What its text declares, in order. Nothing if it cannot be read.
    pub fn events(&self) -> &[Event]
        ensures { result.now ≡ events_of self.now }
    {
        match self {
            Content::Text(_, events) => events.as_slice(),
            Content::Unread(_) => &[],
        }
    }
}

/// Files that can be found by paths and read by names.
pub trait Files {
    // A path can be answered so: the name of the file that it leads to, or none.
    ghost finds: { Self → List ℕ → Option (List ℕ) → Type 0 };

    // A file of this name can be found to have this.
    ghost reads: { Self → List ℕ → Content → Type 0 };

    /// The name of the file that a path leads to. It is the same for each path that leads to the
    /// same file. `None` if there is no such file. Out of memory is the only error.
    fn find(&self, alloc: Global, path: &str) -> Result<Option<String>, AllocError>
        ensures { IfOk result (λ name. finds self.now path.now (option_map string_bytes name)) };

    /// What the file of this name has. Out of memory is the only error.
    fn read(&self, alloc: Global, name: &str) -> Result<Content, AllocError>
        ensures { IfOk result (λ content. reads self.now name.now content) };
}
