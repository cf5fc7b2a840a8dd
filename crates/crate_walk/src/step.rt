//! What a walk passes.

/// An event of a file.
#[derive(Clone, Copy, PartialEq, Eq, Debug)]
pub struct Place {
    /// The number of the file, from 0: the root's.
    pub file: usize,
    /// The index of the event among those of the file, from 0.
    pub event: usize,
}

/// Why a module has no file here.
#[derive(Clone, Copy, PartialEq, Eq, Debug)]
pub enum Lack {
    /// There is no such file.
    Missing,
    /// Both `name.rs` and `name/mod.rs` are there.
    Ambiguous,
    /// The file of this number is being read: the module is in it.
    Cycle(usize),
    /// The file of this number cannot be read.
    Unread(usize),
    /// As many files were entered as may be.
    TooMany,
}

/// One step of a walk through the modules of a crate.
#[derive(Clone, Copy, PartialEq, Eq, Debug)]
pub enum Step {
    /// An event that is no module.
    Item(Place),
    /// A module in braces begins.
    Inline(Place),
    /// A module begins, which is the file of this number.
    File(Place, usize),
    /// A module has no file here, and is passed over.
    Lack(Place, Lack),
    /// The innermost module ends. The last one that ends is the root.
    End,
}
