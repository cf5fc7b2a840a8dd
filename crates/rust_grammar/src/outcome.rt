//! What comes of an expression at a list of trees.

use crate::cursor::Cursor;

/// What comes of an expression at the beginning of a list of trees.
#[derive(Drop)]
pub enum Outcome<'a> {
    /// It fits, and these trees are left.
    Fits(Cursor<'a>),
    /// It does not fit: another alternative may.
    Misses,
    /// What was decided does not fit, so the whole fragment is a fault.
    Faults,
}
