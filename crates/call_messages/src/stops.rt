//! How a rule stops, in words.
use crate::source::Source;
use crate::units::unit_range;
use crate::words::Wants;
use mbe_explain::{RuleStop, StopKind};
use source_snippet::{column_in, line_at, line_number};
use std::alloc::{AllocError, Global};
use tt_data::TextRange;

// How many bytes of a token are shown in a note.
const MOST: usize = 40;

// The number of a rule, from 1.
pub(crate) fn number_of(stop: &RuleStop<'_>) -> usize {
    stop.index.saturating_add(1)
}

// The bytes of a token, if they are few and between characters.
fn written<'a>(text: &'a str, range: TextRange) -> Option<&'a str> {
    let start = range.start as usize;
    let end = range.end as usize;
    if start > end || end - start > MOST {
        return None;
    }
    if text.is_char_boundary(start) && text.is_char_boundary(end) {
        Some(&text[start..end])
    } else {
        None
    }
}

// The token at which a rule stops, if it can be shown.
fn token_of<'a>(text: &'a str, stop: &RuleStop<'_>) -> Option<&'a str> {
    written(text, unit_range(stop)?)
}

// Adds that a rule matches and gives nothing.
fn push_unfilled(out: &mut String, number: usize) -> Result<(), AllocError> {
    write!(
        out,
        "rule {number} matches, but its transcriber cannot be filled"
    )
}

// Adds how a rule stops that may be read in more than one way. The token there is named.
fn push_ambiguous(
    out: &mut String,
    wants: &Wants,
    number: usize,
    token: Option<&str>,
) -> Result<(), AllocError> {
    write!(out, "rule {number} may read ")?;
    match token {
        Some(token) => write!(out, "`{token}`")?,
        None => out.push_str("this")?,
    }
    out.push_str(" as ")?;
    wants.push(out, "")?;
    out.push_str(", so it matches nothing")
}

// Adds what a rule wants where it stops: at a token, or at the end of the argument.
fn push_unread(
    out: &mut String,
    wants: &Wants,
    number: usize,
    at_end: bool,
) -> Result<(), AllocError> {
    if at_end {
        write!(out, "the argument ends here; rule {number} wants ")?;
        return wants.push(out, "");
    }
    write!(out, "rule {number} wants ")?;
    wants.push(out, " here")
}

/// What is said where the nearest rule stops.
pub(crate) fn label_of(
    alloc: Global,
    text: &str,
    stop: &RuleStop<'_>,
) -> Result<String, AllocError> {
    let mut out = String::new(alloc);
    let number = number_of(stop);
    let wants = Wants::of(alloc, &stop.stop.wanted)?;
    match stop.stop.kind {
        StopKind::Matches => push_unfilled(&mut out, number)?,
        StopKind::TwoReadings => {
            write!(
                out,
                "rule {number} reads this in two ways, so it matches nothing"
            )?
        }
        StopKind::Ambiguous => push_ambiguous(&mut out, &wants, number, token_of(text, stop))?,
        StopKind::Unread => push_unread(&mut out, &wants, number, stop.stop.at.is_none())?,
    }
    Ok(out)
}

// Adds a place, and the token that is there.
fn push_place(out: &mut String, source: Source<'_>, range: TextRange) -> Result<(), AllocError> {
    let start = range.start as usize;
    let line = line_at(source.text, start);
    let number = line_number(source.text, start);
    let column = column_in(line.text, start.saturating_sub(line.start));
    write!(out, "at {number}:{column}")?;
    if let Some(token) = written(source.text, range) {
        write!(out, ", `{token}`")?;
    }
    Ok(())
}

/// What is noted of a rule that is not the nearest.
pub(crate) fn note_of(
    alloc: Global,
    source: Source<'_>,
    stop: &RuleStop<'_>,
) -> Result<String, AllocError> {
    let mut out = String::new(alloc);
    let number = number_of(stop);
    if stop.stop.kind == StopKind::Matches {
        push_unfilled(&mut out, number)?;
        return Ok(out);
    }
    write!(out, "rule {number} stops ")?;
    match unit_range(stop) {
        Some(range) => push_place(&mut out, source, range)?,
        None => out.push_str("at the end of the argument")?,
    }
    if stop.stop.kind == StopKind::Unread {
        out.push_str(": it wants ")?;
        Wants::of(alloc, &stop.stop.wanted)?.push(&mut out, "")?;
    }
    Ok(out)
}
