//! Lays a message out in lines.
ghost use Rattle.std.specs.Prelude.{◌≡◌, flat_map, fold, map, max, replicate, string_bytes};
ghost use Rattle.source_snippet.specs.Characters.{Adds};
ghost use Rattle.source_snippet.specs.Messages.{all_numbered, all_parts, bar, label_line, line_of};
ghost use Rattle.source_snippet.specs.Messages.{message, note_line, numbered, numbers_in};
ghost use Rattle.source_snippet.specs.Messages.{part_lines, part_of, place_line, text_line};
ghost use Rattle.source_snippet.specs.Underlines.{row_of};

use crate::message::{Label, Quoted, Section};
use crate::shown::{push_shown, push_times};
use crate::underline::push_row;
use std::alloc::{AllocError, Global};

// Adds blanks.
fn push_blanks(out: &mut String, count: usize) -> Result<(), AllocError>
    ensures { Adds result out.old out.new (replicate count 32) }
{
    push_times(out, b' ', count)
}

// Adds an empty line of text.
fn push_bar(out: &mut String, width: usize) -> Result<(), AllocError>
    ensures { Adds result out.old out.new (bar width) }
{
    push_blanks(out, width)?;
    out.push_str(" |\n")
}

// Adds the place of a section.
fn push_place(out: &mut String, width: usize, section: &Section<'_>) -> Result<(), AllocError>
    ensures { Adds result out.old out.new (place_line width (part_of section.now)) }
{
    push_blanks(out, width)?;
    out.push_str("--> ")?;
    push_shown(out, section.file)?;
    let line = section.line;
    let column = section.column;
    writeln!(out, ":{line}:{column}")
}

// Adds a line of the text.
fn push_text_line(
    alloc: Global,
    out: &mut String,
    width: usize,
    quoted: &Quoted<'_>,
) -> Result<(), AllocError>
    ensures { Adds result out.old out.new (text_line width (line_of quoted.now)) }
{
    let number = quoted.number;
    let digits = format!(in alloc; "{number}")?;
    push_blanks(out, width.saturating_sub(digits.len()))?;
    out.push_str(digits.as_str())?;
    out.push_str(" | ")?;
    push_shown(out, quoted.text)?;
    out.push('\n')
}

// Adds the marks of a label under its line.
fn push_label(out: &mut String, width: usize, line: &str, label: &Label) -> Result<(), AllocError>
    ensures { Adds result out.old out.new (label_line width line.now (row_of label.now)) }
{
    push_blanks(out, width)?;
    out.push_str(" | ")?;
    push_row(out, line, label)?;
    out.push('\n')
}

// Adds a line of the text, and its labels.
fn push_quoted(
    alloc: Global,
    out: &mut String,
    width: usize,
    quoted: &Quoted<'_>,
) -> Result<(), AllocError>
    ensures { Adds result out.old out.new (numbered width (line_of quoted.now)) }
{
    push_text_line(alloc, out, width, quoted)?;
    for label in &quoted.labels {
        push_label(out, width, quoted.text, label)?;
    }
    Ok(())
}

// Adds lines of the text, with `...` between.
fn push_all_quoted(
    alloc: Global,
    out: &mut String,
    width: usize,
    all: &[Quoted<'_>],
) -> Result<(), AllocError>
    ensures { Adds result out.old out.new (all_numbered width (map line_of all.now)) }
{
    let Some((first, others)) = all.split_first() else {
        return Ok(());
    };
    push_quoted(alloc, out, width, first)?;
    for quoted in others {
        out.push_str("...\n")?;
        push_quoted(alloc, out, width, quoted)?;
    }
    Ok(())
}

// Adds notes.
fn push_notes(out: &mut String, width: usize, notes: &[String]) -> Result<(), AllocError>
    ensures { Adds result out.old out.new
        (flat_map (note_line width) (map string_bytes notes.now)) }
{
    for note in notes {
        push_blanks(out, width)?;
        out.push_str(" = ")?;
        push_shown(out, note.as_str())?;
        out.push('\n')?;
    }
    Ok(())
}

// Adds a section.
fn push_section(
    alloc: Global,
    out: &mut String,
    width: usize,
    section: &Section<'_>,
) -> Result<(), AllocError>
    ensures { Adds result out.old out.new (part_lines width (part_of section.now)) }
{
    push_shown(out, section.title.as_str())?;
    out.push('\n')?;
    push_place(out, width, section)?;
    push_bar(out, width)?;
    push_all_quoted(alloc, out, width, &section.quoted)?;
    push_notes(out, width, &section.notes)
}

// The greatest number of a line that a section names, or this one if that is greater.
fn greatest_in(section: &Section<'_>, so_far: usize) -> usize
    ensures { result ≡ fold max so_far (numbers_in (part_of section.now)) }
{
    let mut most = so_far.max(section.line);
    for quoted in &section.quoted {
        most = most.max(quoted.number);
    }
    most
}

// The greatest number of a line.
fn greatest(all: &[Section<'_>]) -> usize
    ensures { result ≡ fold max 0 (flat_map numbers_in (map part_of all.now)) }
{
    let mut most = 0;
    for section in all {
        most = greatest_in(section, most);
    }
    most
}

// Adds sections, with an empty line of text between.
fn push_sections(
    alloc: Global,
    out: &mut String,
    width: usize,
    all: &[Section<'_>],
) -> Result<(), AllocError>
    ensures { Adds result out.old out.new (all_parts width (map part_of all.now)) }
{
    let Some((first, others)) = all.split_first() else {
        return Ok(());
    };
    push_section(alloc, out, width, first)?;
    for section in others {
        push_bar(out, width)?;
        push_section(alloc, out, width, section)?;
    }
    Ok(())
}

/// Adds a message of these sections.
///
/// A section is its title, a line with its place, the lines of the text with marks under them, and
/// its notes. Numbers of lines stand right in a gutter that is as wide as the greatest of all. In
/// every text a tab is shown as four blanks and a hidden character by a mark, as `⟦U+202E⟧`; marks
/// are counted by characters.
///
/// # Errors
///
/// `AllocError` if memory is refused.
pub fn push_message(alloc: Global, out: &mut String, all: &[Section<'_>]) -> Result<(), AllocError>
    ensures { Adds result out.old out.new (message (map part_of all.now)) }
{
    let most = greatest(all);
    let digits = format!(in alloc; "{most}")?;
    push_sections(alloc, out, digits.len(), all)
}
