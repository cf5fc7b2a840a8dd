//! JSON values that tell of a step.
ghost use Rattle.std.specs.Prelude.{◌≡◌, IfOk, option_map};
ghost use Rattle.serde_json.specs.View.{view};
ghost use Rattle.expander_model.specs.Definitions.{definition_of};
ghost use Rattle.expander_trace.specs.Given.{attempt_in, step_in};
ghost use Rattle.step_report.specs.Bound.{context_by};
ghost use Rattle.step_report.specs.Values.{at, call, call_trees, count_if, is_made, macro_if};
ghost use Rattle.step_report.specs.Values.{macro_of, outcome, result_if, rule_if, source};
ghost use Rattle.step_report.specs.Values.{stays_if, step};
ghost use Rattle.step_report.specs.Texts.{texts_in};

use crate::bound_values::values_if;
use crate::context::Context;
use crate::lines::{stay_words, why_unknown};
use crate::places::other_name;
use crate::texts::Texts;
use crate::tokens::trees;
use call_json::place_in;
use expander_model::definition::definition_of;
use expander_scope::macro_def::MacroDef;
use expander_trace::step::{Attempt, Step};
use mbe::FragmentGrammar;
use serde_json::{Number, Value, json};
use std::alloc::{AllocError, Global};
use tt_data::{Span, SyntaxContext};

// The name of another text, if it has one.
fn source(alloc: Global, texts: &Texts<'_>, number: u32) -> Result<Value, AllocError>
    ensures { IfOk result (λ v. view v ≡ source (texts_in texts.now) number) }
{
    match other_name(texts, number) {
        Some(name) => Ok(Value::String(String::from_str(alloc, name)?)),
        None => Ok(Value::Null),
    }
}

// Where a span is.
fn at(alloc: Global, texts: &Texts<'_>, span: Span) -> Result<Value, AllocError>
    ensures { IfOk result (λ v. view v ≡ at (texts_in texts.now) span) }
{
    if span.anchor == 0 {
        return place_in(alloc, texts.text, &texts.near, span.range);
    }
    let source = source(alloc, texts, span.anchor)?;
    json!(in alloc; {
        "bytes": [span.range.start, span.range.end],
        "source": source
    })
}

// The name of a definition, and where it is.
fn macro_of(alloc: Global, texts: &Texts<'_>, known: &MacroDef) -> Result<Value, AllocError>
    ensures { IfOk result (λ v. view v
        ≡ macro_of (texts_in texts.now) (definition_of known.now.tree.inner)) }
{
    let Some(definition) = definition_of(&known.tree.iter()) else {
        return Ok(Value::Null);
    };
    let at = at(alloc, texts, definition.name.span)?;
    json!(in alloc; {
        "at": at,
        "name": definition.name.sym.as_str()
    })
}

// The definition of a call, if there is one.
fn macro_if(
    alloc: Global,
    texts: &Texts<'_>,
    attempt: &Option<Attempt>,
) -> Result<Value, AllocError>
    ensures { IfOk result (λ v. view v
        ≡ macro_if (texts_in texts.now) (option_map attempt_in attempt.now)) }
{
    match attempt {
        Some(attempt) => macro_of(alloc, texts, attempt.known.as_ref()),
        None => Ok(Value::Null),
    }
}

// The tokens of a call of a definition.
fn call_trees(alloc: Global, attempt: &Option<Attempt>) -> Result<Value, AllocError>
    ensures { IfOk result (λ v. view v ≡ call_trees (option_map attempt_in attempt.now)) }
{
    match attempt {
        Some(attempt) => trees(alloc, attempt.call.token_trees()),
        None => Ok(Value::Null),
    }
}

// What a call gives, if it gives something.
fn result_if(alloc: Global, attempt: &Option<Attempt>) -> Result<Value, AllocError>
    ensures { IfOk result (λ v. view v ≡ result_if (option_map attempt_in attempt.now)) }
{
    let Some(attempt) = attempt else {
        return Ok(Value::Null);
    };
    match &attempt.given {
        Ok(given) => trees(alloc, given.tree.token_trees()),
        Err(_) => Ok(Value::Null),
    }
}

// The number of the rule that gives it, from 1.
fn rule_if(alloc: Global, attempt: &Option<Attempt>) -> Result<Value, AllocError>
    ensures { IfOk result (λ v. view v ≡ rule_if (option_map attempt_in attempt.now)) }
{
    let Some(attempt) = attempt else {
        return Ok(Value::Null);
    };
    match &attempt.given {
        Ok(given) => json!(in alloc; { "number": given.rule as u64 + 1 }),
        Err(_) => Ok(Value::Null),
    }
}

// Why a call stays, if it stays.
fn stays_if(alloc: Global, attempt: &Option<Attempt>) -> Result<Value, AllocError>
    ensures { IfOk result (λ v. view v ≡ stays_if (option_map attempt_in attempt.now)) }
{
    let Some(attempt) = attempt else {
        return json!(in alloc; { "message": why_unknown() });
    };
    match &attempt.given {
        Ok(_) => Ok(Value::Null),
        Err(kind) => json!(in alloc; { "message": stay_words(*kind) }),
    }
}

// A number, if there is one.
fn count_if(number: Option<usize>) -> Value
    ensures { view result ≡ count_if number }
{
    match number {
        Some(number) => Value::Number(Number::from(number)),
        None => Value::Null,
    }
}

// Whether a rule put a name out.
fn is_made(ctx: SyntaxContext) -> bool
    ensures { result ≡ is_made ctx }
{
    match ctx {
        SyntaxContext::Made => true,
        SyntaxContext::Written => false,
    }
}

// A call: where its name is, whether a rule put that out, what it is looked up by, and its tokens.
fn call(alloc: Global, texts: &Texts<'_>, it: &Step) -> Result<Value, AllocError>
    ensures { IfOk result (λ v. view v ≡ call (texts_in texts.now) (step_in it.now)) }
{
    let at = at(alloc, texts, it.name)?;
    let tokens = call_trees(alloc, &it.attempt)?;
    json!(in alloc; {
        "at": at,
        "made": is_made(it.name.ctx),
        "name": it.key.as_str(),
        "tokens": tokens
    })
}

// What comes of a call: the definition, the rule, what its metavariables stand for, the notes and
// what it gives, or why the call stays.
fn outcome<G: FragmentGrammar>(
    alloc: Global,
    context: &Context<'_, G>,
    attempt: &Option<Attempt>,
) -> Result<Value, AllocError>
    ensures { IfOk result (λ v. view v
        ≡ outcome (context_by (texts_in context.now.texts.now)
        (G.answer context.now.grammar.now) context.now.edition)
        (option_map attempt_in attempt.now)) }
{
    let told = values_if(alloc, context, attempt)?;
    let known = macro_if(alloc, context.texts, attempt)?;
    let result = result_if(alloc, attempt)?;
    let rule = rule_if(alloc, attempt)?;
    let stays = stays_if(alloc, attempt)?;
    json!(in alloc; {
        "bindings": told.bindings,
        "macro": known,
        "notes": told.notes,
        "result": result,
        "rule": rule,
        "stays": stays
    })
}

/// A step, by its index among all that are told of, and that of the step in whose result it is.
pub(crate) fn step<G: FragmentGrammar>(
    alloc: Global,
    context: &Context<'_, G>,
    index: usize,
    parent: Option<usize>,
    it: &Step,
) -> Result<Value, AllocError>
    ensures { IfOk result (λ v. view v ≡ step (context_by (texts_in context.now.texts.now)
        (G.answer context.now.grammar.now) context.now.edition) index parent (step_in it.now)) }
{
    let call = call(alloc, context.texts, it)?;
    let outcome = outcome(alloc, context, &it.attempt)?;
    json!(in alloc; {
        "answer": "step",
        "call": call,
        "index": index,
        "level": it.level,
        "outcome": outcome,
        "parent": count_if(parent),
        "v": 1
    })
}
