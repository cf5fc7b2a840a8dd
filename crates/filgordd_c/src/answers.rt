//! What is told of an answer, as C sees it.
ghost use Rattle.std.specs.Prelude.{◌≡◌};
ghost use Rattle.filgordd_c.specs.Answered.{byte_range, counted, told, told_unread};

use expander::{Expansion, Fault, FaultKind, ReadFault, ReadFaultKind, TextRange};

/// The bytes of a text from offset `start` up to, but not including, offset `end`.
#[repr(C)]
#[derive(Clone, Copy, Debug, PartialEq, Eq)]
pub struct ByteRange {
    pub start: u32,
    pub end: u32,
}

/// A fault: what it is, and where.
#[repr(C)]
#[derive(Clone, Copy, Debug, PartialEq, Eq)]
pub struct ToldFault {
    pub kind: u32,
    pub range: ByteRange,
}

/// What a text is read as: how many definitions the source has, or why it cannot be read.
#[repr(C)]
#[derive(Clone, Copy, Debug, PartialEq, Eq)]
pub struct SourceTold {
    pub definitions: usize,
    pub fault: ToldFault,
}

/// How much an expansion has.
#[repr(C)]
#[derive(Clone, Copy, Debug, PartialEq, Eq)]
pub struct Counts {
    /// The bytes of the printed text.
    pub printed: usize,
    /// The printed tokens.
    pub tokens: usize,
    pub faults: usize,
    /// The pieces that were expanded anew.
    pub expanded: usize,
}

/// A range as C sees it.
pub(crate) fn byte_range(range: TextRange) -> ByteRange
    ensures { result ≡ byte_range range }
{
    ByteRange {
        start: range.start,
        end: range.end,
    }
}

/// A fault as C sees it.
pub(crate) fn told(fault: Fault) -> ToldFault
    ensures { result ≡ told fault }
{
    let kind = match fault.kind {
        FaultKind::CannotExpand => 0,
        FaultKind::BrokenDefinition => 1,
        FaultKind::RecursionLimit => 2,
        FaultKind::NestedDefinition => 3,
        FaultKind::Unspellable => 4,
        FaultKind::TooLarge => 5,
    };
    let range = byte_range(fault.range);
    ToldFault { kind, range }
}

/// A reading fault as C sees it.
pub(crate) fn told_unread(fault: ReadFault) -> ToldFault
    ensures { result ≡ told_unread fault }
{
    let kind = match fault.kind {
        ReadFaultKind::BadToken => 0,
        ReadFaultKind::CloserDoesNotFit => 1,
        ReadFaultKind::GroupLeftOpen => 2,
    };
    let range = byte_range(fault.range);
    ToldFault { kind, range }
}

/// How much an expansion has.
pub(crate) fn counted(expansion: &Expansion) -> Counts
    ensures { result ≡ counted expansion.now }
{
    Counts {
        printed: expansion.printed().len(),
        tokens: expansion.tokens(),
        faults: expansion.faults().len(),
        expanded: expansion.expanded(),
    }
}
