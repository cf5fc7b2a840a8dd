//! JSON values that tell of the rule that a call goes by.
ghost use Rattle.std.specs.Prelude.{◌≡◌, ◌++◌, ◌∷◌, [], IfOk, OnOk, map, option_map};
ghost use Rattle.serde_json.specs.Data.{array};
ghost use Rattle.serde_json.specs.View.{items_of, view};
ghost use Rattle.call_json.specs.Places.{count, numbers};
ghost use Rattle.expander_trace.specs.Given.{attempt_in};
ghost use Rattle.rule_bindings.specs.Given.{all_given, fragment_given, rule_given, value_given};
ghost use Rattle.step_report.specs.Bound.{attempt_bound, context_by, told_number};
ghost use Rattle.step_report.specs.BoundValues.{binding, bindings_if, kind_if, tokens_if};
ghost use Rattle.step_report.specs.BoundValues.{bindings as bindings_of};
ghost use Rattle.step_report.specs.NoteValues.{notes, notes_if};
ghost use Rattle.step_report.specs.Texts.{texts_in};

use crate::bound::{USUAL_ROOM, bound_in, rules_again, specifier, told_number};
use crate::context::Context;
use crate::note_values::notes;
use crate::tokens::trees;
use bumpalo::Bump;
use expander_trace::step::Attempt;
use mbe::FragmentGrammar;
use rule_bindings::{BoundFragment, BoundRule, BoundValue};
use serde_json::{Number, Value, json};
use std::alloc::{AllocError, Global};

// Adds the number of an iteration, from 1.
fn push_number(list: &mut Vec<Value>, number: usize) -> Result<(), AllocError>
    ensures { OnOk result (map view list.new.items
        ≡ map view list.old.items ++ count (told_number number) ∷ []) }
{
    list.push(Value::Number(Number::from(told_number(number))))?;
    Ok(())
}

// The numbers of iterations.
fn rounds(alloc: Global, iterations: &[usize]) -> Result<Value, AllocError>
    ensures { IfOk result (λ v. view v ≡ numbers (map told_number iterations.now)) }
{
    let mut list = Vec::new(alloc);
    for number in iterations {
        push_number(&mut list, *number)?;
    }
    Ok(Value::Array(list))
}

// The kind of a fragment, if there is one.
fn kind_if(alloc: Global, fragment: &Option<BoundFragment<'_>>) -> Result<Value, AllocError>
    ensures { IfOk result (λ v. view v ≡ kind_if (option_map fragment_given fragment.now)) }
{
    match fragment {
        Some(fragment) => Ok(Value::String(String::from_str(alloc, specifier(fragment.kind))?)),
        None => Ok(Value::Null),
    }
}

// Its tokens.
fn tokens_if(alloc: Global, fragment: &Option<BoundFragment<'_>>) -> Result<Value, AllocError>
    ensures { IfOk result (λ v. view v ≡ tokens_if (option_map fragment_given fragment.now)) }
{
    match fragment {
        Some(fragment) => trees(alloc, fragment.trees),
        None => Ok(Value::Null),
    }
}

// What a metavariable stands for in one iteration.
fn binding(alloc: Global, value: &BoundValue<'_>) -> Result<Value, AllocError>
    ensures { IfOk result (λ v. view v ≡ binding (value_given value.now)) }
{
    let kind = kind_if(alloc, &value.fragment)?;
    let rounds = rounds(alloc, &value.iterations)?;
    let tokens = tokens_if(alloc, &value.fragment)?;
    json!(in alloc; {
        "kind": kind,
        "name": value.name.as_str(),
        "rounds": rounds,
        "tokens": tokens
    })
}

// What metavariables stand for.
fn bindings(alloc: Global, values: &[BoundValue<'_>]) -> Result<Value, AllocError>
    ensures { IfOk result (λ v. view v
        ≡ array (items_of (map binding (all_given values.now)))) }
{
    let mut list = Vec::new(alloc);
    for value in values {
        let binding = binding(alloc, value)?;
        list.push(binding)?;
    }
    Ok(Value::Array(list))
}

/// What is told of the rule that gives something for a call; null for each if none does.
#[derive(Drop)]
pub(crate) struct RuleValues {
    /// What its metavariables stand for.
    pub(crate) bindings: Value,
    /// The notes.
    pub(crate) notes: Value,
}

// What is told of a rule, if there is one.
fn values_of(alloc: Global, bound: &Option<BoundRule<'_>>) -> Result<RuleValues, AllocError>
    ensures bindings { IfOk result (λ v. view v.bindings
        ≡ bindings_of (option_map rule_given bound.now)) }
    ensures notes { IfOk result (λ v. view v.notes ≡ notes (option_map rule_given bound.now)) }
{
    let Some(bound) = bound else {
        return Ok(RuleValues {
            bindings: Value::Null,
            notes: Value::Null,
        });
    };
    let bindings = bindings(alloc, &bound.values)?;
    let notes = notes(alloc, &bound.notes)?;
    Ok(RuleValues { bindings, notes })
}

// What is told of the rule that gives something for a call of a definition.
fn values_in<G: FragmentGrammar>(
    alloc: Global,
    context: &Context<'_, G>,
    attempt: &Attempt,
) -> Result<RuleValues, AllocError>
    ensures bindings { IfOk result (λ v. view v.bindings ≡ bindings_of (attempt_bound
        (context_by (texts_in context.now.texts.now) (G.answer context.now.grammar.now)
        context.now.edition) (attempt_in attempt.now))) }
    ensures notes { IfOk result (λ v. view v.notes ≡ notes (attempt_bound
        (context_by (texts_in context.now.texts.now) (G.answer context.now.grammar.now)
        context.now.edition) (attempt_in attempt.now))) }
{
    let arena = Bump::try_with_capacity(alloc, USUAL_ROOM)?;
    let known = rules_again(alloc, context.edition, attempt.known.as_ref())?;
    let bound = bound_in(alloc, &arena, context.grammar, &known.rules, attempt)?;
    values_of(alloc, &bound)
}

/// What is told of the rule that gives something for a call, if the call has a definition.
pub(crate) fn values_if<G: FragmentGrammar>(
    alloc: Global,
    context: &Context<'_, G>,
    attempt: &Option<Attempt>,
) -> Result<RuleValues, AllocError>
    ensures bindings { IfOk result (λ v. view v.bindings
        ≡ bindings_if (context_by (texts_in context.now.texts.now)
        (G.answer context.now.grammar.now) context.now.edition)
        (option_map attempt_in attempt.now)) }
    ensures notes { IfOk result (λ v. view v.notes
        ≡ notes_if (context_by (texts_in context.now.texts.now)
        (G.answer context.now.grammar.now) context.now.edition)
        (option_map attempt_in attempt.now)) }
{
    match attempt {
        Some(attempt) => values_in(alloc, context, attempt),
        None => Ok(RuleValues {
            bindings: Value::Null,
            notes: Value::Null,
        }),
    }
}
