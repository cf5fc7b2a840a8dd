//! The place in a file that a word names.
use command_line::Action;
use source_snippet::{Line, line_at};
use tt_data::TextRange;

/// A line, and a column in characters or none for the whole line; both are counted from 1.
#[derive(Clone, Copy, PartialEq, Eq)]
pub(crate) struct Place {
    pub(crate) line: usize,
    pub(crate) column: Option<usize>,
}

// The first part of a word and the number in the last.
fn numbered(word: &str) -> Option<(&str, usize)> {
    let (rest, number) = word.rsplit_once(':')?;
    Some((rest, number.parse::<usize>().ok()?))
}

// The file of a word and the place in it, if its last two parts are numbers.
fn parts_of(word: &str) -> Option<(&str, Place)> {
    let (rest, column) = numbered(word)?;
    let (file, line) = numbered(rest)?;
    let column = Some(column);
    Some((file, Place { line, column }))
}

// The same, where the last part alone may be one, and names a line.
fn parts_or_line_of(word: &str) -> Option<(&str, Place)> {
    if let Some(parts) = parts_of(word) {
        return Some(parts);
    }
    let (file, line) = numbered(word)?;
    let column = None;
    Some((file, Place { line, column }))
}

/// The file that a word names, and the place in it: to expand one call, to explain faults and to
/// trace calls, a place may follow the file, as `file:line:column`, and to trace as `file:line`.
pub(crate) fn named_place(action: Action, word: Option<&str>) -> (Option<&str>, Option<Place>) {
    let Some(word) = word else {
        return (None, None);
    };
    let parts = match action {
        Action::Explain | Action::Expand => parts_of(word),
        Action::Trace => parts_or_line_of(word),
        _ => None,
    };
    match parts {
        Some(("-", place)) => (None, Some(place)),
        Some((file, place)) => (Some(file), Some(place)),
        None => (Some(word), None),
    }
}

// The byte at which a line begins, if the text has so many lines.
fn line_start(text: &str, line: usize) -> Option<usize> {
    let bytes = text.as_bytes();
    let mut left = line.checked_sub(1)?;
    let mut start = 0usize;
    for at in 0..bytes.len() {
        if left == 0 {
            break;
        }
        if bytes[at] == b'\n' {
            left = left.saturating_sub(1);
            start = at.saturating_add(1);
        }
    }
    if left == 0 { Some(start) } else { None }
}

// A line of a text by its number, if the text has it.
fn line_of(text: &str, number: usize) -> Option<Line<'_>> {
    Some(line_at(text, line_start(text, number)?))
}

/// The bytes of a line, if a text of at most `u32::MAX` bytes has it.
pub(crate) fn line_range(text: &str, number: usize) -> Option<TextRange> {
    let line = line_of(text, number)?;
    let start = u32::try_from(line.start).ok()?;
    let end = u32::try_from(line.start.saturating_add(line.text.len())).ok()?;
    Some(TextRange { start, end })
}

/// The byte at a place, if the text has it: at its column, or where its line begins.
pub(crate) fn byte_at(text: &str, place: Place) -> Option<usize> {
    let line = line_of(text, place.line)?;
    let Some(column) = place.column else {
        return Some(line.start);
    };
    let mut left = column.checked_sub(1)?;
    let mut at = line.start;
    for character in line.text.chars() {
        if left == 0 {
            break;
        }
        left = left.saturating_sub(1);
        at = at.saturating_add(character.len_utf8());
    }
    if left == 0 { Some(at) } else { None }
}
