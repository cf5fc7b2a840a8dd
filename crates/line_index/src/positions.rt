//! Positions by line and column.
ghost use Rattle.std.specs.Prelude.{◌≡◌, ◌≤◌, ◌<◌, ◌^◌, IsCharBoundary, length, min};
ghost use Rattle.line_index.specs.Lines.{IsPositionOf, column_of, line_of, offset_of};

use crate::columns::{column_offset, units_between};
use crate::lines::{line_end, line_start};

/// A position in a text: its line and its column, both from 0. A column counts UTF-16 code units.
#[derive(Clone, Copy, Debug, PartialEq, Eq)]
pub struct Position {
    pub line: usize,
    pub column: usize,
}

/// The position at which a text begins.
pub const FIRST: Position = Position { line: 0, column: 0 };

/// The byte at a position. Every position has one: a column behind its line's end is the end of
/// the line, before `\n`, `\r\n` or `\r`; a line behind the last is the end of the text; a column
/// within a surrogate pair is before the pair.
pub fn offset_of(text: &str, position: Position) -> usize
    ensures offset { result ≡ offset_of text.now position.line position.column }
    ensures boundary { IsCharBoundary text.now result }
{
    let bytes = text.as_bytes();
    let start = line_start(bytes, position.line);
    start + column_offset(bytes, start, position.column)
}

/// The position of a byte, counted on from `position`, which is that of the byte `from` before it.
pub fn position_behind(text: &str, from: usize, position: Position, at: usize) -> Position
    requires short { length text.now < 2 ^ 32 }
    requires from { IsPositionOf text.now from position }
    requires order { from ≤ at }
    requires within { at ≤ length text.now }
    ensures { IsPositionOf text.now at result }
{
    let bytes = text.as_bytes();
    let Position {
        mut line,
        mut column,
    } = position;
    let mut start = from;
    while let Some(end) = line_end(bytes, start) {
        if at <= end {
            break;
        }
        line += 1;
        column = 0;
        start = end + 1;
    }
    column += units_between(bytes, start, at);
    Position { line, column }
}

/// The position of a byte of a text of at most `u32::MAX` bytes. A byte past the end is taken as
/// the end.
pub fn position_of(text: &str, at: usize) -> Position
    requires { length text.now < 2 ^ 32 }
    ensures line { result.line ≡ line_of text.now (min at (length text.now)) }
    ensures column { result.column ≡ column_of text.now (min at (length text.now)) }
{
    position_behind(text, 0, FIRST, at.min(text.len()))
}
