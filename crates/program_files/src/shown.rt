//! Words of the caller in messages, with nothing in them that steers a terminal.
ghost use Rattle.std.specs.Prelude.{◌≡◌, ◌++◌, OnOk, chars, encode_utf8_all, string_bytes};
ghost use Rattle.std.specs.List.{flat_map};
ghost use Rattle.std.specs.Char.Escape.{escape_unicode};
ghost use Rattle.program_files.specs.Shown.{is_steering, shown, shown_character};

use std::alloc::{AllocError, Global};

// Whether this character is a control, or changes the direction of others.
fn is_steering(c: u32) -> bool
    ensures { result ≡ is_steering c }
{
    c < 0x20
        || (0x7f <= c && c <= 0x9f)
        || c == 0x61c
        || (0x200e <= c && c <= 0x200f)
        || (0x2028 <= c && c <= 0x202e)
        || (0x2066 <= c && c <= 0x2069)
}

// Adds the number of a character, as `\u{202e}`.
fn push_number(line: &mut String, c: char) -> Result<(), AllocError>
    ensures { OnOk result (string_bytes line.new
        ≡ string_bytes line.old ++ encode_utf8_all (escape_unicode c)) }
{
    for digit in c.escape_unicode() {
        line.push(digit)?;
    }
    Ok(())
}

// Adds a character, or its number.
fn push_character(line: &mut String, c: char) -> Result<(), AllocError>
    ensures { OnOk result (string_bytes line.new
        ≡ string_bytes line.old ++ encode_utf8_all (shown_character c)) }
{
    if is_steering(c as u32) {
        push_number(line, c)
    } else {
        line.push(c)
    }
}

/// Adds a text. A control, a line end too, or a character that changes the direction of others is
/// shown by its number, as `\u{202e}`.
pub fn push_shown(line: &mut String, text: &str) -> Result<(), AllocError>
    ensures { OnOk result (string_bytes line.new ≡ string_bytes line.old ++ shown text.now) }
{
    for c in text.chars() {
        push_character(line, c)?;
    }
    Ok(())
}

/// The first paragraph of a text, as one line, with nothing in it that steers a terminal.
pub fn one_line(alloc: Global, text: &str) -> Result<String, AllocError> {
    let mut line = String::new(alloc);
    for part in text.lines() {
        if part.is_empty() {
            break;
        }
        if !line.is_empty() {
            line.push(' ')?;
        }
        push_shown(&mut line, part.trim())?;
    }
    Ok(line)
}
