//! Spans: where a token is in a text, and whether it was written or synthesized.

/// An offset or a length in a text, in bytes.
pub type TextSize = u32;

/// The bytes of a text from offset `start` up to, but not including, offset `end`.
#[derive(Clone, Copy, Default, PartialEq, Eq, Hash, Debug)]
pub struct TextRange {
    pub start: TextSize,
    pub end: TextSize,
}

/// Whether a token was written in a text, or synthesized: put out by a transcriber.
#[derive(Clone, Copy, Default, PartialEq, Eq, Hash, Debug)]
pub enum SyntaxContext {
    /// In a text.
    #[default]
    Written,
    /// By the transcriber of a macro.
    Made,
}

/// The span of a token: a byte range, the anchor that it counts from, and whether the token was
/// written. Anchor 0 is the text itself, or a piece's first token; who makes the trees says what
/// other anchors are.
#[derive(Clone, Copy, Default, PartialEq, Eq, Hash, Debug)]
pub struct Span {
    pub range: TextRange,
    pub anchor: u32,
    pub ctx: SyntaxContext,
}
