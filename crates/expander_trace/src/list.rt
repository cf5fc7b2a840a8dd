//! Traces the calls of a list of trees.
ghost use Rattle.std.specs.Prelude.{◌≡◌, ◌<◌, ◌≤◌, ◌+◌, ◌-◌, ◌++◌, ◌∷◌, [], List, IfOk};
ghost use Rattle.std.specs.Prelude.{IfSome, IsOkUnless, None, OnOk, Some, map, option_map};
ghost use Rattle.tt_data.specs.Forest.{Forest, joined};
ghost use Rattle.tt_data.specs.fault.TtFault.TheVariants.{Memory};
ghost use Rattle.expander_model.specs.CallSteps.{call_at};
ghost use Rattle.expander_model.specs.Calls.{marked};
ghost use Rattle.expander_scope.specs.Editions.{IsRead};
ghost use Rattle.expander_scope.specs.Outcomes.{numbered_of_known};
ghost use Rattle.expander_scope.specs.ScopeTable.{AreRead, scope_in};
ghost use Rattle.call_expansion.specs.Around.{calls_in};
ghost use Rattle.call_expansion.specs.declared.around.CallPlace.{CallPlace};
ghost use Rattle.expander_trace.specs.Numbered.{step_numbered};
ghost use Rattle.expander_trace.specs.Parts.{may_define};
ghost use Rattle.expander_trace.specs.Passing.{Adds, AddsBelow, Passes, known_steps, steps_under};
ghost use Rattle.expander_trace.specs.Steps.{is_asked};
ghost use Rattle.expander_trace.specs.Trying.{given_top};

use crate::attempt::{Tokens, answer_of};
use crate::limits::Cut;
use crate::step::{Attempt, Given, Step, Trace};
use crate::tracing::Tracing;
use call_expansion::around::{contains, place_of};
use call_expansion::text_call::tree_of;
use expander_model::call::{Beginning, Call, beginning_of, key_at};
use expander_model::fault::{FaultKind, is_definition_word};
use expander_model::scope_rules::ScopeRules;
use expander_model::tree_walk::TreeWalk;
use expander_scope::macro_def::MacroDef;
use mbe::FragmentGrammar;
use std::alloc::{AllocError, Global};
use std::rc::Rc;
use tt::{TopSubtree, TtIter};
use tt_data::{Symbol, TtFault};

/// Whether by these rules trees may have definitions of their own: by Rust's, where a keyword of a
/// definition is among their tokens.
pub(crate) fn may_define(
    alloc: Global,
    rules: ScopeRules,
    trees: &TtIter<'_>,
) -> Result<bool, AllocError>
    ensures { IfOk result (λ may. may ≡ may_define rules trees.now) }
{
    match rules {
        ScopeRules::TopLevel => return Ok(false),
        ScopeRules::Rust => {}
    }
    let mut rest = TreeWalk::new(alloc, trees);
    'steps: loop {
        let Some(step) = rest.next()? else {
            return Ok(false);
        };
        if is_definition_word(&step) {
            return Ok(true);
        }
    }
}

// Whether the call that trees begin with is asked for.
fn is_asked(at: Option<u32>, trees: &TtIter<'_>, call: &Call<'_>) -> bool
    requires { call_at trees.now ≡ Some call.now }
    ensures { (place : CallPlace) (more : List CallPlace) →
        calls_in (marked trees.now) ≡ place ∷ more → result ≡ is_asked at place }
{
    match at {
        None => true,
        Some(at) => contains(at, &place_of(trees, call)),
    }
}

// The definition that a key finds.
fn find<G>(by: &Tracing<'_, G>, key: &Symbol) -> Result<Option<Rc<MacroDef>>, AllocError>
    requires { AreRead by.now.scope.now }
    ensures found { IfOk result (λ given. option_map (λ k. numbered_of_known k.value) given
        ≡ scope_in by.now.scope.now key.now) }
    ensures rules { IfOk result (λ given.
        IfSome given (λ k. IsRead by.now.scope.now.edition k.value)) }
{
    match by.scope.find(key) {
        None => Ok(None),
        Some(known) => Ok(Some(known.clone()?)),
    }
}

// Adds a step, for which rules put out so many tokens.
fn push(trace: &mut Trace, step: Step, spent: usize) -> Result<(), AllocError>
    requires steps { 0 < trace.old.room.left.steps }
    requires spent { spent ≤ trace.old.room.left.tokens }
    ensures steps { OnOk result (map step_numbered trace.new.steps.items
        ≡ map step_numbered trace.old.steps.items ++ step_numbered step ∷ []) }
    ensures left { OnOk result (trace.new.room.left ≡ record {
      steps = trace.old.room.left.steps - 1;
      tokens = trace.old.room.left.tokens - spent;
    }) }
    ensures cut { OnOk result (trace.new.room.cut ≡ trace.old.room.cut) }
{
    let tokens = trace.room.left.tokens;
    trace.steps.push(step)?;
    trace.room.left.steps -= 1;
    trace.room.left.tokens = tokens - spent as u32;
    Ok(())
}

// The tree that a call gives, if it gives one.
fn given_tree(given: &Result<Given, FaultKind>) -> Result<Option<Rc<TopSubtree>>, AllocError>
    ensures { IfOk result (λ tree. option_map (λ t. t.value) tree ≡ given_top given.now) }
{
    match given {
        Ok(given) => Ok(Some(given.tree.clone()?)),
        Err(_) => Ok(None),
    }
}

// The tokens of the call that trees begin with. They are a part of a tree, so they are not too
// many: out of memory is the only error.
fn call_tree(alloc: Global, trees: &TtIter<'_>, call: &Call<'_>) -> Result<TopSubtree, TtFault>
    requires { call_at trees.now ≡ Some call.now }
    ensures tree { IfOk result (λ t. trees.now ≡ joined t.inner call.now.rest) }
    ensures memory { IsOkUnless result Memory }
{
    let passed = call.rest.passed_since(trees.remaining());
    tree_of(alloc, &passed.iter())
}

// Traces the trees that a call gives, unless they may have definitions of their own.
#[cycle(tracing)]
fn trace_given<G: FragmentGrammar>(
    by: &Tracing<'_, G>,
    tree: &TopSubtree,
    trace: &mut Trace,
) -> Result<(), TtFault>
    requires deep { 0 < by.now.depth }
    requires counted { by.now.level + by.now.depth < 256 }
    requires read { AreRead by.now.scope.now }
    requires going { trace.old.room.cut ≡ None }
    ensures adds { OnOk result (AddsBelow by.now.rules trace.old trace.new tree.now.inner
        (steps_under (G.answer by.now.grammar.now) by.now.scope.now (by.now.depth - 1)
        (by.now.level + 1) None tree.now.inner)) }
    ensures memory { IsOkUnless result Memory }
{
    let trees = tree.iter();
    if may_define(by.alloc, by.rules, &trees)? {
        trace.room.cut = Some(Cut::Definitions);
        return Ok(());
    }
    trace_list(&by.deeper(), None, &trees, trace)
}

// Traces the call of a definition with which trees begin.
#[cycle(tracing)]
fn trace_known<G: FragmentGrammar>(
    by: &Tracing<'_, G>,
    trees: &TtIter<'_>,
    call: &Call<'_>,
    known: Rc<MacroDef>,
    key: Symbol,
    trace: &mut Trace,
) -> Result<(), TtFault>
    requires call { call_at trees.now ≡ Some call.now }
    requires counted { by.now.level + by.now.depth < 256 }
    requires read { AreRead by.now.scope.now }
    requires rules { IsRead by.now.scope.now.edition known.value }
    requires going { trace.old.room.cut ≡ None }
    requires steps { 0 < trace.old.room.left.steps }
    ensures adds { (whole : Forest) → trees.now ≡ joined whole call.now.rest →
        OnOk result (Adds by.now.rules trace.old trace.new
        (known_steps (G.answer by.now.grammar.now) by.now.scope.now by.now.depth by.now.level
        call.now.name.span key whole call.now.argument (numbered_of_known known.value))) }
    ensures memory { IsOkUnless result Memory }
{
    let (at, most) = (call.name.span, trace.room.left.tokens);
    let tried = answer_of(by, known.as_ref(), &call.argument, at, most)?;
    let Some(Tokens { spent, given }) = tried else {
        trace.room.cut = Some(Cut::Tokens);
        return Ok(());
    };
    let tree = given_tree(&given)?;
    let step = Step {
        level: by.level,
        name: at,
        key,
        attempt: Some(Attempt {
            known,
            call: call_tree(by.alloc, trees, call)?,
            tokens: spent,
            given,
        }),
    };
    push(trace, step, spent)?;
    match tree {
        None => Ok(()),
        Some(tree) => trace_given(by, tree.as_ref(), trace),
    }
}

// Traces the call with which trees begin, if it is asked for, and gives the trees behind it; where
// its name finds nothing, those from its group on.
#[cycle(tracing)]
fn trace_call<'a, G: FragmentGrammar>(
    by: &Tracing<'_, G>,
    at: Option<u32>,
    trees: &TtIter<'a>,
    call: Call<'a>,
    trace: &mut Trace,
) -> Result<TtIter<'a>, TtFault>
    requires call { call_at trees.now ≡ Some call }
    requires counted { by.now.level + by.now.depth < 256 }
    requires read { AreRead by.now.scope.now }
    requires going { trace.old.room.cut ≡ None }
    ensures passes { IfOk result (λ rest. Passes
        (steps_under (G.answer by.now.grammar.now) by.now.scope.now by.now.depth by.now.level at)
        by.now.rules trace.old trace.new trees.now rest) }
    ensures memory { IsOkUnless result Memory }
{
    if !is_asked(at, trees, &call) {
        return Ok(call.rest);
    }
    if trace.room.left.steps == 0 {
        trace.room.cut = Some(Cut::Steps);
        return Ok(call.rest);
    }
    let key = key_at(by.alloc, trees, &call)?;
    let Some(known) = find(by, &key)? else {
        let step = Step {
            level: by.level,
            name: call.name.span,
            key,
            attempt: None,
        };
        push(trace, step, 0)?;
        return Ok(call.from_group);
    };
    trace_known(by, trees, &call, known, key, trace)?;
    Ok(call.rest)
}

/// Adds the steps of these trees to a trace, as far as there is room for them: at a byte, those of
/// the calls whose bytes contain it. Out of memory is its only error.
#[cycle(tracing)]
pub(crate) fn trace_list<G: FragmentGrammar>(
    by: &Tracing<'_, G>,
    at: Option<u32>,
    trees: &TtIter<'_>,
    trace: &mut Trace,
) -> Result<(), TtFault>
    requires counted { by.now.level + by.now.depth < 256 }
    requires read { AreRead by.now.scope.now }
    ensures adds { OnOk result (Adds by.now.rules trace.old trace.new
        (steps_under (G.answer by.now.grammar.now) by.now.scope.now by.now.depth by.now.level at
        trees.now)) }
    ensures memory { IsOkUnless result Memory }
{
    let mut walk = TreeWalk::new(by.alloc, trees);
    'turns: loop {
        if let Some(_why) = trace.room.cut {
            return Ok(());
        }
        match beginning_of(&walk.here) {
            Beginning::Call(call) => {
                let rest = trace_call(by, at, &walk.here, call, trace)?;
                walk.go_on(rest);
            }
            Beginning::BehindColons(call) => walk.go_on(call.from_group),
            Beginning::Leaf(_, rest) => walk.go_on(rest),
            Beginning::Other => match walk.next()? {
                Some(_) => {}
                None => return Ok(()),
            },
        }
    }
}
