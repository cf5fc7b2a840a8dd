//! A text, and the lines of a message about it.
ghost use Rattle.std.specs.Prelude.{◌≡◌, IfOk, string_bytes};
ghost use Rattle.source_snippet.specs.Lines.{IsLineAt};
ghost use Rattle.source_snippet.specs.Messages.{line_of};
ghost use Rattle.call_messages.specs.Plain.{IsQuoted, within};

use source_snippet::{Label, Line, Quoted, Range, Rank, line_at, line_number};
use std::alloc::{AllocError, Global};
use tt_data::TextRange;

/// A text, and the name of its file.
#[derive(Clone, Copy)]
pub struct Source<'a> {
    pub file: &'a str,
    pub text: &'a str,
}

// The bytes of a range, counted from a line's first byte.
pub(crate) fn within(start: usize, range: TextRange) -> Range
    ensures { result ≡ within start range }
{
    Range {
        start: (range.start as usize).saturating_sub(start),
        end: (range.end as usize).saturating_sub(start),
    }
}

/// A line with one row of marks, under a range, and words after them.
pub(crate) fn quoted<'a>(
    alloc: Global,
    text: &'a str,
    line: Line<'a>,
    range: TextRange,
    words: String,
) -> Result<Quoted<'a>, AllocError>
    requires { IsLineAt text.now range.start line.start line.text.now }
    ensures quoted { IfOk result (λ q.
        IsQuoted text.now range (string_bytes words) line.entry.start (line_of q)) }
    ensures text { IfOk result (λ q. q.text.now ≡ line.entry.text.now) }
{
    let mut ranges = Vec::new(alloc);
    ranges.push(within(line.start, range))?;
    let mut labels = Vec::new(alloc);
    labels.push(Label {
        ranges,
        rank: Rank::First,
        text: words,
    })?;
    Ok(Quoted {
        number: line_number(text, range.start as usize),
        text: line.text,
        labels,
    })
}
