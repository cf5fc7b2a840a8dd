//! Writes the lines of a text.

use crate::piece::{Piece, Space};
use crate::sort::Sort;
use std::alloc::{AllocError, Global};

// How many columns a line has, where its tokens allow it.
const WIDTH: usize = 120;

// How many levels are indented.
const LEVELS: usize = 20;

// How many columns a level has.
const STEP: usize = 4;

/// An open group.
#[derive(Clone, Copy)]
struct Frame {
    // Whether it has one argument a line.
    is_spread: bool,
    is_attribute: bool,
    // The levels of the statement and of the line that it begins in.
    statement: usize,
    line: usize,
}

/// How far the lines are written.
#[derive(Drop)]
struct Lines {
    text: String,
    frames: Vec<Frame>,
    // The levels of the statement, or argument, and of the line.
    statement: usize,
    line: usize,
    column: usize,
    // The last token: what it is, where it ends, and whether it opened a group that is spread.
    before: Sort,
    end: usize,
    opened_spread: bool,
}

// The column after a text.
fn column_after(column: usize, text: &str) -> usize {
    let mut column = column;
    for c in text.chars() {
        column = if c == '\n' {
            0
        } else {
            column.saturating_add(1)
        };
    }
    column
}

// Whether so many columns are too many for a line from this column on, but not for one of this
// level.
fn is_better_below(column: usize, columns: usize, level: usize) -> bool {
    let indented = level.min(LEVELS) * STEP;
    column.saturating_add(columns) > WIDTH && indented.saturating_add(columns) <= WIDTH
}

impl Lines {
    fn end_line(&mut self, level: usize) -> Result<(), AllocError> {
        let shown = level.min(LEVELS);
        self.text.push_str("\n")?;
        for _ in 0..shown {
            self.text.push_str("    ")?;
        }
        self.column = shown * STEP;
        self.line = level;
        Ok(())
    }

    // Whether the line is too long without an end before this piece.
    fn is_too_long(&self, piece: &Piece<'_>) -> bool {
        let level = self.statement.saturating_add(1);
        let part = piece.part_end.saturating_sub(self.end);
        let word = piece.word_end.saturating_sub(self.end);
        if self.frames.last().is_some_and(|frame| frame.is_attribute) {
            return false;
        }
        (piece.is_part && is_better_below(self.column, part, level))
            || (piece.space == Space::Blank && is_better_below(self.column, word, level))
    }

    // The level of the line that this piece begins, if it begins one. It may close a group.
    fn level_before(&self, piece: &Piece<'_>, closed: Option<Frame>) -> Option<usize> {
        if let Some(frame) = closed {
            if frame.is_spread {
                return Some(frame.line);
            }
        }
        if piece.space == Space::Line {
            return Some(self.statement);
        }
        let is_spread = self.frames.last().is_some_and(|frame| frame.is_spread);
        if closed.is_some() {
            return None;
        }
        if self.opened_spread || (is_spread && piece.is_part && self.before == Sort::Comma) {
            return Some(self.statement);
        }
        if self.is_too_long(piece) {
            return Some(self.statement.saturating_add(1));
        }
        None
    }

    // Opens the group that a piece opens.
    fn open(&mut self, piece: &Piece<'_>) -> Result<(), AllocError> {
        let group = piece.group_end.saturating_sub(piece.end);
        let is_spread = piece.can_spread && self.column.saturating_add(group) > WIDTH;
        self.frames.push(Frame {
            is_spread,
            is_attribute: self.before == Sort::Pound,
            statement: self.statement,
            line: self.line,
        })?;
        self.opened_spread = is_spread;
        let from = if piece.sort == Sort::Brace {
            self.statement
        } else {
            self.line
        };
        let more = is_spread || piece.sort == Sort::Brace;
        self.statement = if more { from.saturating_add(1) } else { from };
        Ok(())
    }

    // Closes the group that a piece closes.
    fn close(&mut self, sort: Sort) -> Option<Frame> {
        match sort {
            Sort::Close | Sort::AttributeEnd | Sort::BraceEnd => {
                let frame = self.frames.pop()?;
                self.statement = frame.statement;
                Some(frame)
            }
            _ => None,
        }
    }

    fn push(&mut self, piece: &Piece<'_>) -> Result<(), AllocError> {
        let closed = self.close(piece.sort);
        match self.level_before(piece, closed) {
            Some(level) => self.end_line(level)?,
            None if piece.space == Space::Blank => {
                self.text.push_str(" ")?;
                self.column = self.column.saturating_add(1);
            }
            None => {}
        }
        self.text.push_str(piece.text)?;
        self.column = column_after(self.column, piece.text);
        self.opened_spread = false;
        if matches!(piece.sort, Sort::Open | Sort::Brace) {
            self.open(piece)?;
        }
        self.before = piece.sort;
        self.end = piece.end;
        Ok(())
    }
}

/// The lines of these pieces.
pub(crate) fn lines_of(alloc: Global, pieces: &[Piece<'_>]) -> Result<String, AllocError> {
    let mut lines = Lines {
        text: String::new(alloc),
        frames: Vec::new(alloc),
        statement: 0,
        line: 0,
        column: 0,
        before: Sort::Start,
        end: 0,
        opened_spread: false,
    };
    for piece in pieces {
        lines.push(piece)?;
    }
    if !pieces.is_empty() {
        lines.text.push_str("\n")?;
    }
    Ok(lines.text)
}
