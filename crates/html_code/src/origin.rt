//! Where printed tokens come from.
ghost use Rattle.std.specs.Prelude.{◌≡◌, ◌++◌, codes, decimal, map, string_bytes, IfOk};
ghost use Rattle.html_code.specs.Origins.{AreOriginNumbers, IsOriginNumber, bytes_told, name_told};
ghost use Rattle.html_code.specs.Origins.{title_of};
ghost use Rattle.html_code.specs.Parts.{Adds};

use crate::escape::push_escaped;
use crate::number::number_at;
use std::alloc::{AllocError, Global};

/// Where a printed token comes from.
#[derive(Clone, Copy)]
pub enum Origin {
    /// From the text on the page: the offset at which it begins.
    Own(u32),
    /// From another text: its number, from 1, and the bytes from `start` up to, but not including,
    /// `end`.
    Other { text: u32, start: u32, end: u32 },
}

// The number of the token that an origin is, where the tokens begin at these offsets; 0 of another
// text.
fn number_of(starts: &[u32], origin: Origin) -> usize
    ensures { IsOriginNumber starts.now origin result }
{
    match origin {
        Origin::Own(at) => number_at(starts, at),
        Origin::Other { .. } => 0,
    }
}

/// The number for each of these origins.
pub(crate) fn origin_numbers(
    alloc: Global,
    starts: &[u32],
    origins: &[Origin],
) -> Result<Vec<usize>, AllocError>
    ensures { IfOk result (λ numbers. AreOriginNumbers starts.now origins.now numbers.items) }
{
    let mut numbers = Vec::new(alloc);
    for origin in origins {
        numbers.push(number_of(starts, *origin))?;
    }
    Ok(numbers)
}

// Adds what a text is called: its name, or its number where it has none.
fn push_name(page: &mut String, text: u32, names: &[String]) -> Result<(), AllocError>
    ensures { Adds result page.old page.new (name_told (map string_bytes names.now) text) }
{
    match names.get(text.saturating_sub(1) as usize) {
        Some(name) => push_escaped(page, name.as_str()),
        None => write!(page, "source {text}"),
    }
}

// Adds which bytes they are.
fn push_bytes(page: &mut String, start: u32, end: u32) -> Result<(), AllocError>
    ensures { Adds result page.old page.new (bytes_told start «end») }
{
    write!(page, ", bytes {start} to {end}")
}

/// Adds the title of a token from another text, and nothing of one from the text on the page.
pub(crate) fn push_title(
    page: &mut String,
    origin: Origin,
    names: &[String],
) -> Result<(), AllocError>
    ensures { Adds result page.old page.new (title_of (map string_bytes names.now) origin) }
{
    let Origin::Other { text, start, end } = origin else {
        return Ok(());
    };
    page.push_str(" title=\"")?;
    push_name(page, text, names)?;
    push_bytes(page, start, end)?;
    page.push_str("\"")?;
    Ok(())
}
