//! Marks under a line.
ghost use Rattle.std.specs.Prelude.{◌≡◌, ◌<◌};
ghost use Rattle.source_snippet.specs.Characters.{Adds};
ghost use Rattle.source_snippet.specs.Underlines.{mark_of, marked, marks, part, row_of, said};
ghost use Rattle.source_snippet.specs.Underlines.{underline};

use crate::message::{Label, Range, Rank};
use crate::shown::{push_shown, push_under};
use std::alloc::AllocError;

/// The bytes of a line from `from` up to `to`, if both are between characters and in order.
pub(crate) fn part(line: &str, from: usize, to: usize) -> &str
    ensures { result.now ≡ part line.now from to }
{
    if from <= to && line.is_char_boundary(from) && line.is_char_boundary(to) {
        &line[from..to]
    } else {
        ""
    }
}

// The mark of a rank.
fn mark_of(rank: Rank) -> u8
    ensures mark { result ≡ mark_of rank }
    ensures ascii { result < 128 }
{
    match rank {
        Rank::First => b'^',
        Rank::Second => b'-',
    }
}

// Adds a mark under each column of a text, one if there is none.
fn push_marks(out: &mut String, mark: u8, text: &str) -> Result<(), AllocError>
    requires { mark < 128 }
    ensures { Adds result out.old out.new (marks mark text.now) }
{
    if text.is_empty() {
        return out.push(mark as char);
    }
    push_under(out, mark, text)
}

// Adds the marks under some ranges of a line.
fn push_underline(
    out: &mut String,
    mark: u8,
    line: &str,
    ranges: &[Range],
) -> Result<(), AllocError>
    requires { mark < 128 }
    ensures { Adds result out.old out.new (underline mark line.now 0 ranges.now) }
{
    let mut at = 0;
    for range in ranges {
        push_under(out, b' ', part(line, at, range.start))?;
        push_marks(out, mark, part(line, range.start, range.end))?;
        at = range.end;
    }
    Ok(())
}

// Adds what is said after the marks.
fn push_said(out: &mut String, text: &str) -> Result<(), AllocError>
    ensures { Adds result out.old out.new (said text.now) }
{
    if text.is_empty() {
        return Ok(());
    }
    out.push(' ')?;
    push_shown(out, text)
}

/// Adds the marks of a label of a line, and what is said after them.
pub(crate) fn push_row(out: &mut String, line: &str, label: &Label) -> Result<(), AllocError>
    ensures { Adds result out.old out.new (marked line.now (row_of label.now)) }
{
    push_underline(out, mark_of(label.rank), line, &label.ranges)?;
    push_said(out, label.text.as_str())
}
