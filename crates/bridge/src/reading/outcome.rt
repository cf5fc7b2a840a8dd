//! What a text is read as: its trees, or why it cannot be read.
use tt::TopSubtree;
use tt_data::TextRange;

/// Why a text cannot be read as trees.
#[derive(Clone, Copy, Debug, PartialEq, Eq)]
pub enum ReadFaultKind {
    /// A token without a meaning: unterminated, unknown, or reserved.
    BadToken,
    /// A closing delimiter that does not fit the innermost open group, or finds none open.
    CloserDoesNotFit,
    /// A group that is open at the end of the text; the range is that of its opening delimiter.
    GroupLeftOpen,
}

/// The first reading fault of a text: its kind, and its bytes.
#[derive(Clone, Copy, Debug, PartialEq, Eq)]
pub struct ReadFault {
    pub kind: ReadFaultKind,
    pub range: TextRange,
}

/// What a text is read as: its trees, or its first fault.
#[derive(Drop)]
pub enum Read {
    /// The trees of the text, in invisible delimiters.
    Tree(TopSubtree),
    /// The first reading fault; there are no trees.
    Fault(ReadFault),
}
