//! A page: a text, its expansion, and its faults.
ghost use Rattle.std.specs.Prelude.{◌≡◌, ◌++◌, ◌<◌, ◌^◌, IfOk, OnOk, length, string_bytes};
ghost use Rattle.html_code.specs.PageParts.{AddsLinks, AddsPrinted, IsPage, IsShort, counts_of};
ghost use Rattle.html_code.specs.PageParts.{fold_of, head_parts};
ghost use Rattle.html_code.specs.Parts.{Adds, html_of};

use crate::escape::push_escaped;
use crate::expansion::{Setting, push_expansion};
use crate::faults::{fault_starts, push_faults};
use crate::number::numbers_of;
use crate::origin::{Origin, origin_numbers};
use crate::source::{Mark, push_source};
use crate::token::push_isolated;
use std::alloc::{AllocError, Global};

/// What is the same on every page: HTML up to the title, from there up to the heading, and so on.
#[derive(Clone, Copy)]
pub struct Frame<'a> {
    pub head: &'a str,
    pub heading: &'a str,
    pub counts: &'a str,
    pub source: &'a str,
    pub expansion: &'a str,
    /// What stands for the expansion of a text that cannot be read.
    pub unread: &'a str,
    pub faults: &'a str,
    pub foot: &'a str,
}

/// What was printed of a text: the printed text, where each printed token comes from, what other
/// texts are called, in order of their numbers, from 1, and how many pieces were expanded anew. A
/// text without a name is told by its number.
#[derive(Clone, Copy)]
pub struct Printed<'a> {
    pub text: &'a str,
    pub origins: &'a [Origin],
    pub names: &'a [String],
    pub expanded: usize,
}

/// What a page shows: a title, a text, its faults in order, and what was printed of it, if it could
/// be read.
#[derive(Clone, Copy)]
pub struct Shown<'a> {
    pub title: &'a str,
    pub text: &'a str,
    pub faults: &'a [Mark<'a>],
    pub printed: Option<Printed<'a>>,
}

// What begins a fold; of more than 20,000 tokens each is closed.
fn fold_of(tokens: usize) -> &'static str
    ensures { result.now ≡ fold_of tokens }
{
    if tokens > 20_000 {
        "<details><summary>"
    } else {
        "<details open><summary>"
    }
}

// Adds what comes before the counts.
fn push_head(html: &mut String, frame: &Frame<'_>, title: &str) -> Result<(), AllocError>
    ensures { Adds result html.old html.new (html_of (head_parts frame.now title.now)) }
{
    html.push_str(frame.head)?;
    push_escaped(html, title)?;
    html.push_str(frame.heading)?;
    push_isolated(html, title)?;
    html.push_str(frame.counts)
}

// Adds how much there is.
fn push_counts(
    html: &mut String,
    bytes: usize,
    faults: usize,
    printed: Option<Printed<'_>>,
) -> Result<(), AllocError>
    ensures { Adds result html.old html.new (counts_of bytes faults printed.entry) }
{
    match printed {
        None => write!(html, "bytes: {bytes}, not read"),
        Some(printed) => {
            let (tokens, expanded) = (printed.origins.len(), printed.expanded);
            write!(
                html,
                "bytes: {bytes}, printed tokens: {tokens}, expanded anew: {expanded}, faults: {faults}"
            )
        }
    }
}

// Adds what was printed of a text whose tokens begin at these offsets.
fn push_printed(
    alloc: Global,
    html: &mut String,
    frame: &Frame<'_>,
    starts: &[u32],
    printed: Option<Printed<'_>>,
) -> Result<(), AllocError>
    requires { IsShort printed }
    ensures { OnOk result (AddsPrinted frame.now (string_bytes html.old) (string_bytes html.new)
        starts.now printed.entry) }
{
    match printed {
        None => html.push_str(frame.unread),
        Some(printed) => {
            let Printed {
                text,
                origins,
                names,
                ..
            } = printed;
            let numbers = origin_numbers(alloc, starts, origins)?;
            let fold = fold_of(origins.len());
            let setting = Setting { fold, names };
            push_expansion(alloc, html, text, numbers.as_slice(), origins, &setting)
        }
    }
}

// Adds the faults of a text whose tokens begin at these offsets.
fn push_links(
    alloc: Global,
    html: &mut String,
    starts: &[u32],
    faults: &[Mark<'_>],
) -> Result<(), AllocError>
    ensures { OnOk result (AddsLinks (string_bytes html.old) (string_bytes html.new)
        starts.now faults.now) }
{
    let places = fault_starts(alloc, faults)?;
    let numbers = numbers_of(alloc, starts, places.as_slice())?;
    push_faults(html, numbers.as_slice(), faults)
}

/// The page that shows this. Both texts have at most `u32::MAX` bytes. Refused if there is no memory
/// for it.
pub fn page(alloc: Global, frame: &Frame<'_>, shown: &Shown<'_>) -> Result<String, AllocError>
    requires text { length shown.now.text.now < 2 ^ 32 }
    requires printed { IsShort shown.now.printed }
    ensures { IfOk result (λ html. IsPage frame.now shown.now (string_bytes html)) }
{
    let mut html = String::new(alloc);
    let Shown {
        title,
        text,
        faults,
        printed,
    } = *shown;
    push_head(&mut html, frame, title)?;
    push_counts(&mut html, text.len(), faults.len(), printed)?;
    html.push_str(frame.source)?;
    let starts = push_source(alloc, &mut html, text, faults)?;
    html.push_str(frame.expansion)?;
    push_printed(alloc, &mut html, frame, starts.as_slice(), printed)?;
    html.push_str(frame.faults)?;
    push_links(alloc, &mut html, starts.as_slice(), faults)?;
    html.push_str(frame.foot)?;
    Ok(html)
}
