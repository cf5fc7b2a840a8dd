//! Where in a definition stands what its rule wants.
ghost use Rattle.std.specs.Prelude.{◌≡◌, IfOk, drop};
ghost use Rattle.call_messages.specs.Places.{between, bytes_within, op_range, puncts_range};
ghost use Rattle.call_messages.specs.Places.{separator_range, variable_range, wanted_range};

use crate::source::{Source, within};
use mbe_explain::Wanted;
use mbe_rules::{Op, Separator};
use source_snippet::{Label, Line, Quoted, Range, Rank, line_at, line_number};
use std::alloc::{AllocError, Global};
use tt_data::{Ident, Punct, Span, TextRange};

// How many places are marked at most.
const MOST: usize = 8;

// From the beginning of one token to the end of another.
fn between(first: Span, last: Span) -> TextRange
    ensures { result ≡ between first last }
{
    TextRange {
        start: first.range.start,
        end: last.range.end,
    }
}

// The range of puncts, if there is one.
fn of_puncts(puncts: &[Punct]) -> Option<TextRange>
    ensures { result ≡ puncts_range puncts.now }
{
    Some(between(puncts.first()?.span, puncts.last()?.span))
}

// The range of a lifetime.
fn of_lifetime(quote: &Punct, name: &Ident) -> TextRange
    ensures { result ≡ between quote.now.span name.now.span }
{
    between(quote.span, name.span)
}

// The bytes behind the first `start`.
fn bytes_behind(text: &[u8], start: usize) -> &[u8]
    ensures { result.now ≡ drop start text.now }
{
    if start < text.len() {
        &text[start..]
    } else {
        &text[text.len()..]
    }
}

// The bytes of a text without the first and the last one.
fn bytes_within(text: &[u8]) -> &[u8]
    ensures { result.now ≡ bytes_within text.now }
{
    if text.len() < 2 {
        return &text[text.len()..];
    }
    &text[1..text.len() - 1]
}

// The range of a metavariable with its kind, if the text has it where its `$` is; else that of its
// `$`.
fn of_variable(text: &str, dollar: TextRange, written: &[u8]) -> TextRange
    ensures { result ≡ variable_range text.now dollar written.now }
{
    let start = dollar.start as usize;
    if !bytes_behind(text.as_bytes(), start).starts_with(written) {
        return dollar;
    }
    match u32::try_from(start.saturating_add(written.len())) {
        Ok(end) => TextRange {
            start: dollar.start,
            end,
        },
        Err(_) => dollar,
    }
}

// The range of an op. A metavariable's is that of its `$`.
fn of_op(op: &Op) -> Option<TextRange>
    ensures { result ≡ op_range op.now }
{
    match op {
        Op::Var { id, .. } => Some(id.range),
        Op::Literal(literal) => Some(literal.span().range),
        Op::Ident(ident) => Some(ident.span.range),
        Op::Punct(puncts) => of_puncts(puncts),
        Op::Lifetime(quote, name) => Some(of_lifetime(quote, name)),
        Op::Subtree { delimiter, .. } => Some(delimiter.open_span.range),
        _ => None,
    }
}

// The range of a separator.
fn of_separator(separator: &Separator) -> Option<TextRange>
    ensures { result ≡ separator_range separator.now }
{
    match separator {
        Separator::Literal(literal) => Some(literal.span().range),
        Separator::Ident(ident) => Some(ident.span.range),
        Separator::Lifetime(quote, name) => Some(of_lifetime(quote, name)),
        Separator::Puncts(puncts) => of_puncts(puncts),
    }
}

/// Where in the text of a definition stands what a rule of it wants; a group's opening bracket.
/// `None` of an end.
///
/// # Errors
///
/// `AllocError` if memory is refused.
pub fn wanted_range(
    alloc: Global,
    text: &str,
    wanted: &Wanted<'_>,
) -> Result<Option<TextRange>, AllocError>
    ensures { IfOk result (λ range. range ≡ wanted_range text.now wanted.now) }
{
    match wanted {
        Wanted::Op(Op::Var { id, .. }) => {
            let told = format!(in alloc; "{wanted}")?;
            let written = bytes_within(told.as_bytes());
            Ok(Some(of_variable(text, id.range, written)))
        }
        Wanted::Op(op) => Ok(of_op(op)),
        Wanted::Separator(separator) => Ok(of_separator(separator)),
        Wanted::Close | Wanted::End => Ok(None),
    }
}

// Adds a range, unless it is there.
fn add(ranges: &mut Vec<TextRange>, range: TextRange) -> Result<(), AllocError> {
    for other in ranges.iter() {
        if *other == range {
            return Ok(());
        }
    }
    ranges.push(range)?;
    Ok(())
}

/// Where in the text stands what is wanted, from left to right, at most eight places.
pub(crate) fn ranges_of(
    alloc: Global,
    text: &str,
    wanted: &[Wanted<'_>],
) -> Result<Vec<TextRange>, AllocError> {
    let mut ranges = Vec::new(alloc);
    for want in wanted {
        if ranges.len() >= MOST {
            break;
        }
        if let Some(range) = wanted_range(alloc, text, want)? {
            add(&mut ranges, range)?;
        }
    }
    ranges.sort_by_key(|range| range.start)?;
    Ok(ranges)
}

// A line with marks under one range.
fn line_with<'a>(
    alloc: Global,
    text: &'a str,
    line: Line<'a>,
    range: TextRange,
) -> Result<Quoted<'a>, AllocError> {
    let mut ranges = Vec::new(alloc);
    ranges.push(within(line.start, range))?;
    let mut labels = Vec::new(alloc);
    labels.push(Label {
        ranges,
        rank: Rank::First,
        text: String::new(alloc),
    })?;
    Ok(Quoted {
        number: line_number(text, range.start as usize),
        text: line.text,
        labels,
    })
}

// Marks one more range of the last line.
fn mark(lines: &mut Vec<Quoted<'_>>, range: Range) -> Result<(), AllocError> {
    if let Some(line) = lines.last_mut() {
        if let Some(label) = line.labels.last_mut() {
            label.ranges.push(range)?;
        }
    }
    Ok(())
}

/// The lines of the text with marks under these ranges, which are in order: one row a line.
pub(crate) fn lines_of<'a>(
    alloc: Global,
    source: Source<'a>,
    ranges: &[TextRange],
) -> Result<Vec<Quoted<'a>>, AllocError> {
    let mut lines = Vec::new(alloc);
    let mut last = None;
    for range in ranges {
        let line = line_at(source.text, range.start as usize);
        if last == Some(line.start) {
            mark(&mut lines, within(line.start, *range))?;
        } else {
            lines.push(line_with(alloc, source.text, line, *range)?)?;
        }
        last = Some(line.start);
    }
    Ok(lines)
}
