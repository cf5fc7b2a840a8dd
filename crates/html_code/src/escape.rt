//! A text as HTML that shows it.
ghost use Rattle.std.specs.Prelude.{◌≡◌, ◌++◌, ◌<◌, string_bytes, encode_utf8_all, OnOk};
ghost use Rattle.html_code.specs.Parts.{Adds};
ghost use Rattle.html_code.specs.Escaping.{escape_of, escaped, is_markup, reference_of};

use hidden_marks::{is_hidden, push_mark};
use std::alloc::AllocError;

// Whether this character has a meaning in HTML, or is a carriage return, which a reader of HTML
// would drop.
fn is_markup(c: char) -> bool
    ensures { result ≡ is_markup c }
{
    matches!(c, '&' | '<' | '>' | '"' | '\'' | '\r')
}

// Adds the reference to a character of two decimal digits, as `&#38;`.
fn push_reference(page: &mut String, c: char) -> Result<(), AllocError>
    requires { c < 100 }
    ensures { Adds result page.old page.new (encode_utf8_all (reference_of c)) }
{
    let n = c as u32;
    page.push_str("&#")?;
    page.push((b'0' + (n / 10) as u8) as char)?;
    page.push((b'0' + (n % 10) as u8) as char)?;
    page.push(';')
}

// Adds a character, escaped.
fn push_char(page: &mut String, c: char) -> Result<(), AllocError>
    ensures { Adds result page.old page.new (encode_utf8_all (escape_of c)) }
{
    if is_markup(c) {
        push_reference(page, c)
    } else if is_hidden(c) {
        push_mark(page, c as u32)
    } else {
        page.push(c)?;
        Ok(())
    }
}

/// Adds a text as HTML that shows it.
///
/// The five characters that have a meaning in HTML, and carriage returns, are written as `&#38;`.
/// A control but tab and line feed, a character of Unicode's `Default_Ignorable_Code_Point`, a
/// separator of lines and an interlinear annotation are shown by a mark, as `⟦U+202E⟧`; so is the
/// bracket that begins a mark.
pub fn push_escaped(page: &mut String, text: &str) -> Result<(), AllocError>
    ensures { Adds result page.old page.new (escaped text.now) }
{
    for c in text.chars() {
        push_char(page, c)?;
    }
    Ok(())
}
