//! The parts of a message.

/// Bytes of a line from `start` up to, but not including, `end`.
#[derive(Clone, Copy, PartialEq, Eq, Debug)]
pub struct Range {
    pub start: usize,
    pub end: usize,
}

/// What the marks are under.
#[derive(Clone, Copy, PartialEq, Eq, Debug)]
pub enum Rank {
    /// What the message is about, `^`.
    First,
    /// What belongs to it, `-`.
    Second,
}

/// A row of marks under a line, and what is said after them.
#[derive(Drop)]
pub struct Label {
    /// What is marked, from left to right. A range whose ends are not between characters counts as
    /// empty, and an empty one has one mark.
    pub ranges: Vec<Range>,
    pub rank: Rank,
    /// Empty where nothing is said.
    pub text: String,
}

/// A line of a text, with rows of marks under it.
#[derive(Drop)]
pub struct Quoted<'a> {
    /// The number of the line, from 1.
    pub number: usize,
    /// The line, without its end.
    pub text: &'a str,
    pub labels: Vec<Label>,
}

/// A title, a place, and the lines that it is about.
#[derive(Drop)]
pub struct Section<'a> {
    /// What is wrong, or a note.
    pub title: String,
    /// The name of the text's file.
    pub file: &'a str,
    /// The line of the place, from 1.
    pub line: usize,
    /// The column of the place in characters, from 1.
    pub column: usize,
    /// The lines, from top to bottom.
    pub quoted: Vec<Quoted<'a>>,
    pub notes: Vec<String>,
}
