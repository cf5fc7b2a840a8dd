//! What is told of the calls of a text that is expanded after a prelude.
ghost use Rattle.std.specs.Prelude.{◌≡◌, [], Err, IfOk, map};
ghost use Rattle.tt_data.specs.fault.TtFault.TheVariants as fault;
ghost use Rattle.bridge.specs.ReadText.{HasTooMany};
ghost use Rattle.bridge.specs.TokenSteps.{text_reading, text_steps};
ghost use Rattle.expander_model.specs.Meaning.{definitions_after};
ghost use Rattle.expander_trace.specs.Given.{trace_in};
ghost use Rattle.expander_trace.specs.Steps.{rewrites};
ghost use Rattle.step_report.specs.Answers.{AreLinesOf, IsAnswerTo, at_of, range_of, traces_in};
ghost use Rattle.step_report.specs.Bound.{context_by};
ghost use Rattle.step_report.specs.Texts.{texts_in};

use crate::context::Context;
use crate::faults::one_stays;
use crate::json::push_json;
use crate::lines::push_text;
use crate::texts::Texts;
use bridge::ReadFault;
use expander_sources::prelude::Prelude;
use expander_trace::call_expansion::text_call::CallOptions;
use expander_trace::limits::Limits;
use expander_trace::step::Trace;
use expander_trace::text_trace::{Found, trace_in_text};
use mbe::FragmentGrammar;
use std::alloc::{AllocError, Global};
use tt_data::{TextRange, TtFault};

/// Which calls of a text are asked for.
#[derive(Clone, Copy)]
pub enum Asked {
    /// All.
    All,
    /// Those whose names begin in a range of bytes, or at its end.
    In(TextRange),
    /// Those whose bytes contain this byte.
    At(u32),
}

/// How steps are told of.
#[derive(Clone, Copy)]
pub enum Form {
    /// As lines of text for people.
    Text,
    /// As lines of JSON.
    Json,
}

/// Which steps are told of, and how.
#[derive(Clone, Copy)]
pub struct Question {
    /// Which calls are asked for.
    pub asked: Asked,
    /// How much is traced. The steps before those that are asked for count, where they are asked
    /// for by a range.
    pub limits: Limits,
    /// How they are told of.
    pub form: Form,
}

/// What is told of steps.
#[derive(Drop)]
pub struct Lines {
    /// Lines, each ended by a line feed.
    pub text: String,
    /// Whether a call that is told of stays for a fault.
    pub stays: bool,
}

/// What is told of a text.
#[derive(Drop)]
pub enum Answer {
    /// The text cannot be read as trees.
    Unread(ReadFault),
    /// Its calls that are asked for.
    Told(Lines),
}

// The byte whose calls alone are traced, if there is one.
fn at_of(asked: Asked) -> Option<u32>
    ensures { result ≡ at_of asked }
{
    match asked {
        Asked::At(at) => Some(at),
        Asked::All | Asked::In(_) => None,
    }
}

// The range in which names of calls begin that are told of, if not all are.
fn range_of(asked: Asked) -> Option<TextRange>
    ensures { result ≡ range_of asked }
{
    match asked {
        Asked::In(range) => Some(range),
        Asked::All | Asked::At(_) => None,
    }
}

// The lines for traces.
fn lines_of<G: FragmentGrammar>(
    alloc: Global,
    context: &Context<'_, G>,
    question: Question,
    traces: &[Trace],
) -> Result<Lines, AllocError>
    ensures { IfOk result
        (AreLinesOf (context_by (texts_in context.now.texts.now)
        (G.answer context.now.grammar.now) context.now.edition) question
        (map trace_in traces.now)) }
{
    let range = range_of(question.asked);
    let mut text = String::new(alloc);
    match question.form {
        Form::Text => push_text(alloc, &mut text, context, range, traces)?,
        Form::Json => push_json(alloc, &mut text, context, range, traces)?,
    }
    let stays = one_stays(range, traces);
    Ok(Lines { text, stays })
}

/// Traces the calls of a text that are asked for, after a prelude, and tells of their steps.
///
/// # Errors
///
/// `Memory`. `Tokens`, only if what is read of the text has more than `u32::MAX` tokens, which doc
/// comments alone can bring about.
pub fn answer_to<G: FragmentGrammar>(
    alloc: Global,
    texts: &Texts<'_>,
    by: &CallOptions<'_, G>,
    prelude: &Prelude,
    question: Question,
) -> Result<Answer, TtFault>
    ensures told { IfOk result (IsAnswerTo (context_by (texts_in texts.now)
        (G.answer by.now.grammar.now) by.now.edition) question
        (traces_in (rewrites (G.answer by.now.grammar.now) by.now.edition) by.now.dialect.now
        by.now.depth question (definitions_after [] prelude.now))
        (text_reading (texts_in texts.now).text)) }
    ensures tokens { result ≡ Err fault.Tokens → HasTooMany (text_steps (texts_in texts.now).text) }
{
    let context = Context {
        texts,
        grammar: by.grammar,
        edition: by.edition,
    };
    let at = at_of(question.asked);
    match trace_in_text(alloc, texts.text, by, prelude, at, question.limits)? {
        Found::Unread(fault) => Ok(Answer::Unread(fault)),
        Found::Traces(traces) => Ok(Answer::Told(lines_of(alloc, &context, question, &traces)?)),
    }
}
