//! The nodes of the table of rules.
use tt_data::{DelimiterKind, Edition};

/// A token that a rule asks for.
#[derive(Clone, Copy)]
pub(crate) enum Token {
    /// A word, by its place in the table of words.
    Word(u8),
    Name,
    Identifier,
    Literal,
    Number,
    Group(DelimiterKind),
    Restriction,
    ConstBracket,
    Punct(char),
    TwoPuncts(char, char),
    /// One of several operators, by the place of the set in the table of sets.
    OneOf(u8),
}

/// A part of a rule. Its first part is the next node. A number says how many nodes further on its
/// second part is.
#[derive(Clone, Copy)]
pub(crate) enum Node {
    Token(Token),
    Since(Edition),
    /// The first part, and then the second.
    Then(u16),
    /// The first part, or if it does not fit the second.
    Or(u16),
    Many,
    Maybe,
    Surely,
    Unless,
    /// A rule, by its number.
    Rule(u8),
}

/// A place of the table, with so many levels of rules left.
#[derive(Clone, Copy, Default)]
pub(crate) struct At {
    pub(crate) place: u16,
    pub(crate) levels: u16,
}
