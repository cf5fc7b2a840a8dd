//! A message about a range of a text, of one line.
ghost use Rattle.std.specs.Prelude.{◌≡◌, ◌++◌, ℕ, List, IfOk, OnOk, string_bytes};
ghost use Rattle.source_snippet.specs.Messages.{part_of};
ghost use Rattle.call_messages.specs.Plain.{IsAbout, IsPlain};

use crate::source::{Source, quoted};
use source_snippet::{Section, column_in, line_at, push_message};
use std::alloc::{AllocError, Global};
use tt_data::TextRange;

/// A section about a range of a text, with the line in which the range begins.
pub(crate) fn section<'a>(
    alloc: Global,
    source: Source<'a>,
    title: String,
    range: TextRange,
    words: String,
) -> Result<Section<'a>, AllocError>
    ensures { IfOk result (λ s. IsAbout source.entry.file.now source.entry.text.now
        (string_bytes title) (string_bytes words) range (part_of s)) }
{
    let line = line_at(source.text, range.start as usize);
    let column = column_in(line.text, (range.start as usize).saturating_sub(line.start));
    let first = quoted(alloc, source.text, line, range, words)?;
    let number = first.number;
    let mut lines = Vec::new(alloc);
    lines.push(first)?;
    Ok(Section {
        title,
        file: source.file,
        line: number,
        column,
        quoted: lines,
        notes: Vec::new(alloc),
    })
}

/// Adds a message with this title about a range of a text: its line, with marks under the range
/// and these words after them.
///
/// # Errors
///
/// `AllocError` if memory is refused.
pub fn push_plain(
    alloc: Global,
    out: &mut String,
    source: Source<'_>,
    title: &str,
    range: TextRange,
    words: &str,
) -> Result<(), AllocError>
    ensures { OnOk result ((added : List ℕ)
        × (string_bytes out.new ≡ string_bytes out.old ++ added)
        × IsPlain source.entry.file.now source.entry.text.now title.now words.now range added) }
{
    let title = String::from_str(alloc, title)?;
    let words = String::from_str(alloc, words)?;
    let only = section(alloc, source, title, range, words)?;
    push_message(alloc, out, &[only])
}
