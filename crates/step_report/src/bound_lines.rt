//! Lines that tell of the rule that a call goes by.
ghost use Rattle.std.specs.Prelude.{◌≡◌, flat_map, option_map};
ghost use Rattle.expander_trace.specs.Given.{attempt_in};
ghost use Rattle.rule_bindings.specs.Given.{all_given, fragment_given, rule_given, value_given};
ghost use Rattle.step_report.specs.Bound.{attempt_bound, context_by};
ghost use Rattle.step_report.specs.BoundLines.{dotted, first_span, fragment_words};
ghost use Rattle.step_report.specs.BoundLines.{iteration_words, kind_words, label, located};
ghost use Rattle.step_report.specs.BoundLines.{bound_lines, rule_lines, value_left, value_line};
ghost use Rattle.step_report.specs.Shown.{Adds};
ghost use Rattle.step_report.specs.Texts.{texts_in};

use crate::bound::{USUAL_ROOM, bound_in, rules_again, specifier, told_number};
use crate::context::Context;
use crate::layout::{push_beside, push_indent};
use crate::notes::push_notes;
use crate::places::push_place;
use crate::shown::{push_shown, push_trees};
use crate::texts::Texts;
use bumpalo::Bump;
use expander_trace::step::Attempt;
use mbe::FragmentGrammar;
use rule_bindings::{BoundFragment, BoundRule, BoundValue};
use std::alloc::{AllocError, Global};
use tt_data::Span;

// Adds the number of an iteration that is inside of another.
fn push_dotted(out: &mut String, number: usize) -> Result<(), AllocError>
    ensures { Adds result out.old out.new (dotted number) }
{
    let number = told_number(number);
    write!(out, ".{number}")
}

// Adds the numbers of iterations.
fn push_iterations(out: &mut String, iterations: &[usize]) -> Result<(), AllocError>
    ensures { Adds result out.old out.new (iteration_words iterations.now) }
{
    let Some((first, inner)) = iterations.split_first() else {
        return Ok(());
    };
    let number = told_number(*first);
    write!(out, " #{number}")?;
    for number in inner {
        push_dotted(out, *number)?;
    }
    Ok(())
}

// Adds the kind of a fragment.
fn push_kind(out: &mut String, fragment: &Option<BoundFragment<'_>>) -> Result<(), AllocError>
    ensures { Adds result out.old out.new (kind_words (option_map fragment_given fragment.now)) }
{
    let Some(fragment) = fragment else {
        return Ok(());
    };
    out.push(':')?;
    out.push_str(specifier(fragment.kind))
}

// Adds a metavariable, as `$x:expr #2.1`.
fn push_label(alloc: Global, out: &mut String, value: &BoundValue<'_>) -> Result<(), AllocError>
    ensures { Adds result out.old out.new (label (value_given value.now)) }
{
    out.push('$')?;
    push_shown(alloc, out, value.name.as_str())?;
    push_kind(out, &value.fragment)?;
    push_iterations(out, &value.iterations)
}

// Adds what a metavariable stands for.
fn push_fragment(
    alloc: Global,
    out: &mut String,
    fragment: &Option<BoundFragment<'_>>,
) -> Result<(), AllocError>
    ensures { Adds result out.old out.new
        (fragment_words (option_map fragment_given fragment.now)) }
{
    let Some(fragment) = fragment else {
        return out.push_str(" no iteration");
    };
    out.push(' ')?;
    push_trees(alloc, out, fragment.trees)
}

// Adds what is told before the place.
fn push_left(
    alloc: Global,
    out: &mut String,
    level: u8,
    value: &BoundValue<'_>,
) -> Result<(), AllocError>
    ensures { Adds result out.old out.new (value_left level (value_given value.now)) }
{
    out.push_str("       ")?;
    push_indent(out, level)?;
    push_label(alloc, out, value)?;
    push_fragment(alloc, out, &value.fragment)
}

// Where the first token of a fragment is. `None` if it has none.
fn first_span(fragment: &Option<BoundFragment<'_>>) -> Option<Span>
    ensures { result ≡ first_span (option_map fragment_given fragment.now) }
{
    let fragment = fragment.as_ref()?;
    fragment.trees.iter().next_span()
}

// Adds what is left, and where it is, and ends the line.
fn push_located(
    alloc: Global,
    out: &mut String,
    texts: &Texts<'_>,
    left: &str,
    span: Option<Span>,
) -> Result<(), AllocError>
    ensures { Adds result out.old out.new (located (texts_in texts.now) left.now span) }
{
    let Some(span) = span else {
        out.push_str(left)?;
        return out.push('\n');
    };
    let mut right = String::new(alloc);
    push_place(alloc, &mut right, texts, span)?;
    push_beside(out, left, right.as_str())
}

// Adds the line of what a metavariable stands for in one iteration.
fn push_value(
    alloc: Global,
    out: &mut String,
    texts: &Texts<'_>,
    level: u8,
    value: &BoundValue<'_>,
) -> Result<(), AllocError>
    ensures { Adds result out.old out.new
        (value_line (texts_in texts.now) level (value_given value.now)) }
{
    let mut left = String::new(alloc);
    push_left(alloc, &mut left, level, value)?;
    push_located(
        alloc,
        out,
        texts,
        left.as_str(),
        first_span(&value.fragment),
    )
}

// Adds the lines of what metavariables stand for.
fn push_values(
    alloc: Global,
    out: &mut String,
    texts: &Texts<'_>,
    level: u8,
    values: &[BoundValue<'_>],
) -> Result<(), AllocError>
    ensures { Adds result out.old out.new
        (flat_map (value_line (texts_in texts.now) level) (all_given values.now)) }
{
    for value in values {
        push_value(alloc, out, texts, level, value)?;
    }
    Ok(())
}

// Adds a line for each value that a rule binds, and the notes.
fn push_rule(
    alloc: Global,
    out: &mut String,
    texts: &Texts<'_>,
    level: u8,
    bound: &BoundRule<'_>,
) -> Result<(), AllocError>
    ensures { Adds result out.old out.new
        (rule_lines (texts_in texts.now) level (rule_given bound.now)) }
{
    push_values(alloc, out, texts, level, &bound.values)?;
    push_notes(alloc, out, level, &bound.notes)
}

/// Adds a line for each value that the rule binds that gives something for a call, and the notes.
pub(crate) fn push_bound<G: FragmentGrammar>(
    alloc: Global,
    out: &mut String,
    context: &Context<'_, G>,
    level: u8,
    attempt: &Attempt,
) -> Result<(), AllocError>
    ensures { Adds result out.old out.new (bound_lines (texts_in context.now.texts.now) level
        (attempt_bound (context_by (texts_in context.now.texts.now)
        (G.answer context.now.grammar.now) context.now.edition) (attempt_in attempt.now))) }
{
    let arena = Bump::try_with_capacity(alloc, USUAL_ROOM)?;
    let known = rules_again(alloc, context.edition, attempt.known.as_ref())?;
    match bound_in(alloc, &arena, context.grammar, &known.rules, attempt)? {
        Some(bound) => push_rule(alloc, out, context.texts, level, &bound),
        None => Ok(()),
    }
}
