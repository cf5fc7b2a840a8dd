//! A token with what is before it in its line.

use crate::sort::Sort;

/// What is before a token.
#[derive(Clone, Copy, PartialEq, Eq)]
pub(crate) enum Space {
    Nothing,
    Blank,
    Line,
}

/// A token in the layout of a text.
///
/// Its ends are columns, as if the whole text stood in one line.
#[derive(Clone, Copy)]
pub(crate) struct Piece<'a> {
    pub text: &'a str,
    pub sort: Sort,
    pub space: Space,
    /// Whether a line that is too long is broken before it sooner than before others.
    pub is_part: bool,
    /// Whether it opens a group whose arguments may stand one a line.
    pub can_spread: bool,
    /// Where it ends.
    pub end: usize,
    /// Where the token ends that comes before the next blank.
    pub word_end: usize,
    /// Where the part ends that it is in.
    pub part_end: usize,
    /// Where the line ends that its group needs.
    pub group_end: usize,
}
