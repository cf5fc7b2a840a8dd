//! What a page tells of an expansion.
ghost use Rattle.std.specs.Prelude.{◌≡◌, ◌<◌, ◌^◌, [], ◌∷◌, IfOk, length, map, string_bytes};
ghost use Rattle.expansion_page.specs.Pages.{fault_line, shown_origin, shown_origins};

use expander_model::fault::Fault;
use expander_run::expander_session::session::Expansion;
use expander_run::lines::{FIRST, fault_words, push_line, spot_of};
use html_code::{Mark, Origin};
use std::alloc::{AllocError, Global};
use tt_data::TextRange;

/// The line that reports each fault.
pub(crate) fn lines_of(
    alloc: Global,
    text: &str,
    faults: &[Fault],
) -> Result<Vec<String>, AllocError>
    requires { length text.now < 2 ^ 32 }
    ensures { IfOk result (λ lines. map string_bytes lines.items
        ≡ map (fault_line text.now) faults.now) }
{
    let mut lines = Vec::new(alloc);
    let mut spot = FIRST;
    for fault in faults {
        let mut line = String::new(alloc);
        spot = spot_of(text.as_bytes(), spot, fault.range.start);
        push_line(&mut line, spot, fault_words(fault.kind))?;
        lines.push(line)?;
    }
    Ok(lines)
}

/// The faults as a page shows them, each with the line at its index.
pub(crate) fn marks_of<'a>(
    alloc: Global,
    faults: &[Fault],
    lines: &'a [String],
) -> Result<Vec<Mark<'a>>, AllocError>
    requires { length lines.now ≡ length faults.now }
    ensures starts { IfOk result (λ marks. map (λ m. m.start) marks.items
        ≡ map (λ f. f.range.start) faults.now) }
    ensures lines { IfOk result (λ marks. map (λ m. m.told.now) marks.items
        ≡ map string_bytes lines.now) }
{
    let mut marks = Vec::new(alloc);
    for i in 0..faults.len() {
        let start = faults[i].range.start;
        let told = lines[i].as_str();
        marks.push(Mark { start, told })?;
    }
    Ok(marks)
}

/// One fault as a page shows it, with this line.
pub(crate) fn lone_mark<'a>(
    alloc: Global,
    start: u32,
    line: &'a String,
) -> Result<Vec<Mark<'a>>, AllocError>
    ensures starts { IfOk result (λ marks. map (λ m. m.start) marks.items ≡ start ∷ []) }
    ensures lines { IfOk result (λ marks. map (λ m. m.told.now) marks.items
        ≡ string_bytes line.now ∷ []) }
{
    let mut marks = Vec::new(alloc);
    let told = line.as_str();
    marks.push(Mark { start, told })?;
    Ok(marks)
}

// Where a printed token comes from, as a page shows it.
fn shown_origin(text: u32, range: TextRange) -> Origin
    ensures { result ≡ shown_origin text range }
{
    let TextRange { start, end } = range;
    if text == 0 {
        Origin::Own(start)
    } else {
        Origin::Other { text, start, end }
    }
}

/// Where each printed token comes from, as a page shows it.
pub(crate) fn origins_of(alloc: Global, expansion: &Expansion) -> Result<Vec<Origin>, AllocError>
    ensures { IfOk result (λ origins. origins.items
        ≡ shown_origins expansion.now.origins expansion.now.texts) }
{
    let mut origins = Vec::new(alloc);
    for i in 0..expansion.tokens() {
        let Some(origin) = expansion.source(i) else {
            unreachable!("a printed token has an origin");
        };
        origins.push(shown_origin(origin.text, origin.range))?;
    }
    Ok(origins)
}
