//! References from the pieces that a text was read from to their memos and definitions in the
//! cache.

/// Which entry of the cache a piece of a text has.
#[derive(Clone, Copy)]
pub(crate) enum MemoRef {
    /// The memo at this index.
    Plain(usize),
    /// The definition at this index.
    Definition(usize),
}
