//! Lines that tell of steps.
ghost use Rattle.std.specs.Prelude.{◌≡◌, [], if◌then◌else◌, IfOk, flat_map, map, string_bytes};
ghost use Rattle.expander_trace.specs.Given.{attempt_in, given_in, step_in, trace_in};
ghost use Rattle.step_report.specs.Bound.{context_by};
ghost use Rattle.step_report.specs.Lines.{cut_if, cut_words, given_words, result_line, step_lines};
ghost use Rattle.step_report.specs.Lines.{stay_words, trace_lines};
ghost use Rattle.step_report.specs.Lines.{attempt_lines, place_line, unknown_line, why_unknown};
ghost use Rattle.step_report.specs.Shown.{Adds};
ghost use Rattle.step_report.specs.Texts.{texts_in};

use crate::asked::{is_asked, is_cut_told};
use crate::bound_lines::push_bound;
use crate::context::Context;
use crate::layout::{push_beside, push_head, push_indent};
use crate::places::{push_name, push_place};
use crate::shown::{push_shown, push_tree};
use crate::texts::Texts;
use expander_model::fault::FaultKind;
use expander_scope::macro_def::MacroDef;
use expander_trace::limits::Cut;
use expander_trace::step::{Attempt, Given, Step, Trace};
use mbe::FragmentGrammar;
use std::alloc::{AllocError, Global};
use tt_data::TextRange;

/// Why a call stays whose name finds nothing.
pub(crate) fn why_unknown() -> &'static str
    ensures { result.now ≡ why_unknown }
{
    "no definition of this macro is known here"
}

/// Why a call stays for a fault.
pub(crate) fn stay_words(kind: FaultKind) -> &'static str
    ensures { result.now ≡ stay_words kind }
{
    match kind {
        FaultKind::CannotExpand => "no rule matches",
        FaultKind::BrokenDefinition => "the definition is invalid",
        FaultKind::RecursionLimit => "no level is left",
        _ => "it is not expanded",
    }
}

// What is said of a call of a definition: the rule that gives something, or why it stays.
fn given_words(
    alloc: Global,
    texts: &Texts<'_>,
    known: &MacroDef,
    given: &Result<Given, FaultKind>,
) -> Result<String, AllocError>
    ensures { IfOk result (λ words. string_bytes words ≡ given_words (texts_in texts.now)
        known.now.tree.inner (given_in given.now)) }
{
    let mut words = String::new(alloc);
    match given {
        Ok(given) => {
            let number = given.rule as usize + 1;
            write!(words, "rule {number} of ")?;
        }
        Err(kind) => {
            let why = stay_words(*kind);
            write!(words, "stays: {why}: ")?;
        }
    }
    push_name(alloc, &mut words, texts, known)?;
    Ok(words)
}

// Adds the line of what a call gives, if it gives something.
fn push_result(
    alloc: Global,
    out: &mut String,
    level: u8,
    given: &Result<Given, FaultKind>,
) -> Result<(), AllocError>
    ensures { Adds result out.old out.new (result_line level (given_in given.now)) }
{
    let Ok(given) = given else {
        return Ok(());
    };
    out.push_str("     ")?;
    push_indent(out, level)?;
    out.push_str("= ")?;
    push_tree(alloc, out, given.tree.as_ref())?;
    out.push('\n')
}

// Adds the lines of a call of a definition.
fn push_attempt<G: FragmentGrammar>(
    alloc: Global,
    out: &mut String,
    context: &Context<'_, G>,
    level: u8,
    attempt: &Attempt,
) -> Result<(), AllocError>
    ensures { Adds result out.old out.new (attempt_lines
        (context_by (texts_in context.now.texts.now)
        (G.answer context.now.grammar.now) context.now.edition) level
        (attempt_in attempt.now)) }
{
    let mut left = String::new(alloc);
    push_head(alloc, &mut left, level)?;
    push_tree(alloc, &mut left, &attempt.call)?;
    let right = given_words(alloc, context.texts, attempt.known.as_ref(), &attempt.given)?;
    push_beside(out, left.as_str(), right.as_str())?;
    push_bound(alloc, out, context, level, attempt)?;
    push_result(alloc, out, level, &attempt.given)
}

// Adds the line of a call whose name finds nothing.
fn push_unknown(alloc: Global, out: &mut String, level: u8, key: &str) -> Result<(), AllocError>
    ensures { Adds result out.old out.new (unknown_line level key.now) }
{
    let mut left = String::new(alloc);
    push_head(alloc, &mut left, level)?;
    push_shown(alloc, &mut left, key)?;
    left.push_str(" !")?;
    let why = why_unknown();
    let right = format!(in alloc; "stays: {why}")?;
    push_beside(out, left.as_str(), right.as_str())
}

// Adds the line of the place of a call that is written in the text.
fn push_place_line(
    alloc: Global,
    out: &mut String,
    texts: &Texts<'_>,
    step: &Step,
) -> Result<(), AllocError>
    ensures { Adds result out.old out.new (place_line (texts_in texts.now) (step_in step.now)) }
{
    if step.level > 0 {
        return Ok(());
    }
    push_place(alloc, out, texts, step.name)?;
    out.push_str(": ")?;
    push_shown(alloc, out, step.key.as_str())?;
    out.push_str("!\n")
}

// Adds the lines of a step.
fn push_step<G: FragmentGrammar>(
    alloc: Global,
    out: &mut String,
    context: &Context<'_, G>,
    step: &Step,
) -> Result<(), AllocError>
    ensures { Adds result out.old out.new (step_lines (context_by (texts_in context.now.texts.now)
        (G.answer context.now.grammar.now) context.now.edition) (step_in step.now)) }
{
    push_place_line(alloc, out, context.texts, step)?;
    match &step.attempt {
        Some(attempt) => push_attempt(alloc, out, context, step.level, attempt),
        None => push_unknown(alloc, out, step.level, step.key.as_str()),
    }
}

/// Why no more is traced.
pub(crate) fn cut_words(cut: Cut) -> &'static str
    ensures { result.now ≡ cut_words cut }
{
    match cut {
        Cut::Steps => "there are more steps than are asked for",
        Cut::Tokens => "the next call makes more tokens than are left",
        Cut::Definitions => "what comes next may define macros, and is not traced",
    }
}

// Adds why no more is traced, if that is told. `last` says whether the last step is told of.
fn push_cut(out: &mut String, last: bool, cut: Option<Cut>) -> Result<(), AllocError>
    ensures { Adds result out.old out.new (cut_if last cut) }
{
    let Some(cut) = cut else {
        return Ok(());
    };
    if !is_cut_told(last, cut) {
        return Ok(());
    }
    let why = cut_words(cut);
    writeln!(out, "cut: {why}")
}

// Adds the lines of a step that is asked for.
fn push_asked<G: FragmentGrammar>(
    alloc: Global,
    out: &mut String,
    context: &Context<'_, G>,
    asked: bool,
    step: &Step,
) -> Result<(), AllocError>
    ensures { Adds result out.old out.new
        (if asked then step_lines (context_by (texts_in context.now.texts.now)
        (G.answer context.now.grammar.now) context.now.edition) (step_in step.now) else []) }
{
    if asked {
        return push_step(alloc, out, context, step);
    }
    Ok(())
}

// Adds the lines of the steps of a trace that are asked for, and why the trace is cut, if it is.
fn push_trace<G: FragmentGrammar>(
    alloc: Global,
    out: &mut String,
    context: &Context<'_, G>,
    asked: Option<TextRange>,
    trace: &Trace,
) -> Result<(), AllocError>
    ensures { Adds result out.old out.new (trace_lines (context_by (texts_in context.now.texts.now)
        (G.answer context.now.grammar.now) context.now.edition) asked
        (trace_in trace.now)) }
{
    let mut on = asked.is_none();
    for step in &trace.steps {
        on = is_asked(asked, on, step);
        push_asked(alloc, out, context, on, step)?;
    }
    push_cut(out, on, trace.room.cut)
}

/// Adds the lines of traces, in order: for each step its call, the definition and the rule, and
/// what that gives, or why the call stays; and why a trace is cut. Steps of calls that are written
/// outside of a range are left out.
///
/// Trees have at most sixty characters, of more the middle is left out. A hidden character is
/// shown by a mark, as `⟦U+202E⟧`, and a line feed as a blank.
///
/// # Errors
///
/// `AllocError` if memory is refused.
pub fn push_text<G: FragmentGrammar>(
    alloc: Global,
    out: &mut String,
    context: &Context<'_, G>,
    asked: Option<TextRange>,
    traces: &[Trace],
) -> Result<(), AllocError>
    ensures { Adds result out.old out.new (flat_map (trace_lines
        (context_by (texts_in context.now.texts.now)
        (G.answer context.now.grammar.now) context.now.edition) asked)
        (map trace_in traces.now)) }
{
    for trace in traces {
        push_trace(alloc, out, context, asked, trace)?;
    }
    Ok(())
}
