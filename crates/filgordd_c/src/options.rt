//! What C opens a session with.

/// What a session is opened with, each by its number.
#[repr(C)]
#[derive(Clone, Copy)]
pub struct SessionOptions {
    /// The year of an edition.
    pub edition: u32,
    /// A grammar.
    pub grammar: u32,
    /// The rules by which names find definitions.
    pub scope: u32,
    /// How many levels of calls are expanded.
    pub depth: u8,
    /// How many calls may be expanded for one call of the text. 0 for no limit.
    pub calls: usize,
    /// How many tokens rules may put out for it. 0 for no limit.
    pub tokens: usize,
}
