//! A text within one line, as it is shown, and marks under it.
ghost use Rattle.std.specs.Prelude.{◌≡◌, ◌<◌, encode_utf8_all, length, replicate};
ghost use Rattle.source_snippet.specs.Characters.{Adds, columns, shown, shown_character};

use hidden_marks::{push_visible, visible_width};
use std::alloc::AllocError;

// Adds a character as it is shown.
fn push_character(out: &mut String, c: char) -> Result<(), AllocError>
    ensures { Adds result out.old out.new (encode_utf8_all (shown_character c)) }
{
    if c == '\t' {
        out.push_str("    ")?;
        return Ok(());
    }
    push_visible(out, c)
}

/// Adds a text as it is shown: a tab as four blanks, a hidden character by its mark.
pub(crate) fn push_shown(out: &mut String, text: &str) -> Result<(), AllocError>
    ensures { Adds result out.old out.new (shown text.now) }
{
    for c in text.chars() {
        push_character(out, c)?;
    }
    Ok(())
}

// How many characters show a character.
fn width(c: char) -> usize
    ensures { result ≡ length (shown_character c) }
{
    if c == '\t' {
        return 4;
    }
    visible_width(c)
}

/// Adds as many of a byte of ASCII.
pub(crate) fn push_times(out: &mut String, mark: u8, count: usize) -> Result<(), AllocError>
    requires { mark < 128 }
    ensures { Adds result out.old out.new (replicate count mark) }
{
    for _ in 0..count {
        out.push(mark as char)?;
    }
    Ok(())
}

/// Adds a byte of ASCII for each column of a text.
pub(crate) fn push_under(out: &mut String, mark: u8, text: &str) -> Result<(), AllocError>
    requires { mark < 128 }
    ensures { Adds result out.old out.new (replicate (columns text.now) mark) }
{
    for c in text.chars() {
        push_times(out, mark, width(c))?;
    }
    Ok(())
}
