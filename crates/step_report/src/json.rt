//! Lines of JSON that tell of steps.
ghost use Rattle.std.specs.Prelude.{◌≡◌, ◌||◌, IfOk, OnOk, false, is_some, map, not};
ghost use Rattle.serde_json.specs.View.{view};
ghost use Rattle.serde_json.specs.Written.{has_float};
ghost use Rattle.expander_trace.specs.Given.{step_in, trace_in};
ghost use Rattle.step_report.specs.Asked.{asked_steps};
ghost use Rattle.step_report.specs.Bound.{context_by};
ghost use Rattle.step_report.specs.Json.{cut_if, cut_name, cut_of, end_of, index_behind};
ghost use Rattle.step_report.specs.Json.{json_lines};
ghost use Rattle.step_report.specs.Json.{line, lines_if, next_index, trace_lines, entered};
ghost use Rattle.step_report.specs.Json.{parent_of, state_if};
ghost use Rattle.step_report.specs.Json.{state_of};
ghost use Rattle.step_report.specs.Shown.{Adds};
ghost use Rattle.step_report.specs.Texts.{texts_in};
ghost use Rattle.step_report.specs.Values.{step};

use crate::asked::{is_asked, is_cut_told};
use crate::context::Context;
use crate::lines::cut_words;
use crate::values::step;
use expander_trace::limits::Cut;
use expander_trace::step::{Step, Trace};
use mbe::FragmentGrammar;
use serde_json::{Value, json};
use std::alloc::{AllocError, Global};
use tt_data::TextRange;

// The index of the next step: one more, if that fits into 64 bits.
fn next_index(index: usize) -> usize
    ensures { result ≡ next_index index }
{
    index.saturating_add(1)
}

// The index of the step in whose result one of this level is. `around` are the indices of those
// that it is in, from the outermost.
fn parent_of(around: &[usize], level: u8) -> Option<usize>
    ensures { result ≡ parent_of around.now level }
{
    if level == 0 {
        return None;
    }
    around.get(level as usize - 1).copied()
}

// Adds the line of a value in which no number is a float.
fn push_line(alloc: Global, out: &mut String, value: &Value) -> Result<(), AllocError>
    requires { has_float (view value.now) ≡ false }
    ensures { Adds result out.old out.new (line (view value.now)) }
{
    let text = value.to_string(alloc)?;
    out.push_str(text.as_str())?;
    out.push('\n')
}

// Adds the line of a step.
fn push_step<G: FragmentGrammar>(
    alloc: Global,
    out: &mut String,
    context: &Context<'_, G>,
    index: usize,
    parent: Option<usize>,
    it: &Step,
) -> Result<(), AllocError>
    ensures { Adds result out.old out.new
        (line (step (context_by (texts_in context.now.texts.now)
        (G.answer context.now.grammar.now) context.now.edition) index parent (step_in it.now))) }
{
    let value = step(alloc, context, index, parent, it)?;
    push_line(alloc, out, &value)
}

// A step that is told of, with its number among them, and those that it is in.
#[derive(Drop)]
struct Numbering {
    // The index of the next step.
    next: usize,
    // The indices of the steps that the last one is in, from the outermost, and its own.
    around: Vec<usize>,
}

impl Numbering {
    // Numbers a step of this level. Its index, and that of the step in whose result it is.
    fn number(&mut self, level: u8) -> Result<(usize, Option<usize>), AllocError>
        ensures index { IfOk result (λ n. n.0 ≡ self.old.next) }
        ensures parent { IfOk result (λ n. n.1 ≡ parent_of self.old.around.items level) }
        ensures next { OnOk result (self.new.next ≡ next_index self.old.next) }
        ensures around { OnOk result (self.new.around.items
            ≡ entered self.old.around.items level self.old.next) }
    {
        let index = self.next;
        let parent = parent_of(&self.around, level);
        self.around.truncate(level as usize);
        self.around.push(index)?;
        self.next = next_index(index);
        Ok((index, parent))
    }
}

// Adds the line of a step, if it is asked for.
fn push_asked<G: FragmentGrammar>(
    alloc: Global,
    out: &mut String,
    context: &Context<'_, G>,
    numbering: &mut Numbering,
    asked: bool,
    it: &Step,
) -> Result<(), AllocError>
    ensures lines { Adds result out.old out.new (lines_if asked
        (context_by (texts_in context.now.texts.now)
        (G.answer context.now.grammar.now) context.now.edition)
        (state_of numbering.old) (step_in it.now)) }
    ensures state { OnOk result (state_of numbering.new
        ≡ state_if asked (state_of numbering.old) (step_in it.now)) }
{
    if asked {
        let (index, parent) = numbering.number(it.level)?;
        return push_step(alloc, out, context, index, parent, it);
    }
    Ok(())
}

// What cuts a trace.
fn cut_name(cut: Cut) -> &'static str
    ensures { result.now ≡ cut_name cut }
{
    match cut {
        Cut::Steps => "Steps",
        Cut::Tokens => "Tokens",
        Cut::Definitions => "Definitions",
    }
}

// The value that tells why no more is traced.
fn cut_value(alloc: Global, cut: Cut) -> Result<Value, AllocError>
    ensures { IfOk result (λ v. view v ≡ cut_of cut) }
{
    json!(in alloc; {
        "answer": "cut",
        "by": cut_name(cut),
        "message": cut_words(cut),
        "v": 1
    })
}

// Adds the line that tells why no more is traced, if that is told. `last` says whether the last
// step is told of.
fn push_cut(alloc: Global, out: &mut String, last: bool, cut: Option<Cut>) -> Result<(), AllocError>
    ensures { Adds result out.old out.new (cut_if last cut) }
{
    let Some(cut) = cut else {
        return Ok(());
    };
    if !is_cut_told(last, cut) {
        return Ok(());
    }
    let value = cut_value(alloc, cut)?;
    push_line(alloc, out, &value)
}

// Adds a line of JSON for each step of a trace that is asked for, the first with this index, and
// one for why the trace is cut, if it is. The index of the next step.
fn push_trace<G: FragmentGrammar>(
    alloc: Global,
    out: &mut String,
    context: &Context<'_, G>,
    asked: Option<TextRange>,
    first: usize,
    trace: &Trace,
) -> Result<usize, AllocError>
    ensures lines { Adds result out.old out.new
        (trace_lines (context_by (texts_in context.now.texts.now)
        (G.answer context.now.grammar.now) context.now.edition) asked first (trace_in trace.now)) }
    ensures next { IfOk result (λ n. n ≡ index_behind first
        (asked_steps asked (not (is_some asked)) (trace_in trace.now).steps)) }
{
    let mut on = asked.is_none();
    let mut numbering = Numbering {
        next: first,
        around: Vec::new(alloc),
    };
    for step in &trace.steps {
        on = is_asked(asked, on, step);
        push_asked(alloc, out, context, &mut numbering, on, step)?;
    }
    push_cut(alloc, out, on, trace.room.cut)?;
    Ok(numbering.next)
}

// The value that ends the lines: how many steps they are, and whether a trace is cut.
fn end_value(alloc: Global, steps: usize, cut: bool) -> Result<Value, AllocError>
    ensures { IfOk result (λ v. view v ≡ end_of steps cut) }
{
    json!(in alloc; {
        "answer": "end",
        "cut": cut,
        "steps": steps,
        "v": 1
    })
}

// Adds the line that ends the lines.
fn push_end(alloc: Global, out: &mut String, steps: usize, cut: bool) -> Result<(), AllocError>
    ensures { Adds result out.old out.new (line (end_of steps cut)) }
{
    let value = end_value(alloc, steps, cut)?;
    push_line(alloc, out, &value)
}

// Whether a trace is cut so far, or this one.
fn or_cut(cut: bool, trace: &Trace) -> bool
    ensures { result ≡ (cut || is_some trace.now.room.cut) }
{
    cut || trace.room.cut.is_some()
}

/// Adds a line of JSON for each step of traces, in order, one for why a trace is cut, and one that
/// ends them. Steps of calls that are written outside of a range are left out.
///
/// # Errors
///
/// `AllocError` if memory is refused.
pub fn push_json<G: FragmentGrammar>(
    alloc: Global,
    out: &mut String,
    context: &Context<'_, G>,
    asked: Option<TextRange>,
    traces: &[Trace],
) -> Result<(), AllocError>
    ensures { Adds result out.old out.new
        (json_lines (context_by (texts_in context.now.texts.now)
        (G.answer context.now.grammar.now) context.now.edition) asked (map trace_in traces.now)) }
{
    let mut next = 0;
    let mut cut = false;
    for trace in traces {
        next = push_trace(alloc, out, context, asked, next, trace)?;
        cut = or_cut(cut, trace);
    }
    push_end(alloc, out, next, cut)
}
