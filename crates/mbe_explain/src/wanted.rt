//! What partial readings want at a position.
use mbe_rules::{Op, Separator};

/// What a matcher has to read next.
#[derive(Clone, Copy, Drop)]
pub enum Wanted<'a> {
    /// What an op reads: a unit, a fragment or the opening of a group.
    Op(&'a Op),
    /// A separator.
    Separator(&'a Separator),
    /// The closing of the innermost open group.
    Close,
    /// The end of the argument.
    End,
}
