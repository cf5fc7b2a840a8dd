//! Where a definition or the name of a call is written.
ghost use Rattle.std.specs.Prelude.{◌≡◌, option_map};
ghost use Rattle.step_report.specs.Shown.{Adds};
ghost use Rattle.step_report.specs.Places.{name_in, other_name, place};
ghost use Rattle.step_report.specs.Texts.{texts_in};

use crate::shown::push_shown;
use crate::texts::Texts;
use expander_model::definition::definition_of;
use expander_scope::macro_def::MacroDef;
use std::alloc::{AllocError, Global};
use tt_data::Span;

/// The name of another text, by its number, from 1, if it has one.
pub(crate) fn other_name<'a>(texts: &Texts<'a>, number: u32) -> Option<&'a str>
    ensures { option_map (λ s. s.now) result ≡ other_name (texts_in texts.now) number }
{
    if number == 0 {
        return None;
    }
    let name = texts.others.get(number as usize - 1)?;
    Some(name.as_str())
}

/// Adds where a span is: its line and column in the text that is traced, or the name of another.
pub(crate) fn push_place(
    alloc: Global,
    out: &mut String,
    texts: &Texts<'_>,
    span: Span,
) -> Result<(), AllocError>
    ensures { Adds result out.old out.new (place (texts_in texts.now) span) }
{
    if span.anchor == 0 {
        push_shown(alloc, out, texts.file)?;
        let position = texts.spots.position(texts.text, span.range.start);
        let line = position.line;
        let column = position.column;
        return write!(out, ":{line}:{column}");
    }
    match other_name(texts, span.anchor) {
        Some(name) => push_shown(alloc, out, name),
        None => out.push_str("another text"),
    }
}

/// Adds the name of a definition, and where it is written.
pub(crate) fn push_name(
    alloc: Global,
    out: &mut String,
    texts: &Texts<'_>,
    known: &MacroDef,
) -> Result<(), AllocError>
    ensures { Adds result out.old out.new (name_in (texts_in texts.now) known.now.tree.inner) }
{
    let Some(definition) = definition_of(&known.tree.iter()) else {
        return Ok(());
    };
    push_shown(alloc, out, definition.name.sym.as_str())?;
    out.push_str(" (")?;
    push_place(alloc, out, texts, definition.name.span)?;
    out.push(')')
}
