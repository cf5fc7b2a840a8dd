//! Expands a tree with piece-relative spans: expands its calls from left to right, and searches
//! each result for further calls.
ghost use Rattle.std.specs.Prelude.{◌≡◌, ◌-◌, ◌<◌, ℕ, [], List, true, false, IfOk, IfNone};
ghost use Rattle.std.specs.Prelude.{IfSome, OnOk, Option, Some, None, Err, is_some};
ghost use Rattle.tt_data.specs.Forest.{Forest};
ghost use Rattle.tt_data.specs.Walk.{walk};
ghost use Rattle.tt_data.specs.declared.span.Span.{Span};
ghost use Rattle.tt_data.specs.fault.TtFault.TheVariants.{Memory};
ghost use Rattle.expander_model.specs.Calls.{marked};
ghost use Rattle.expander_model.specs.CallSteps.{call_at};
ghost use Rattle.expander_model.specs.Expansion.{Deeper, World, just, placed, search_calls};
ghost use Rattle.expander_model.specs.Held.{Numbered};
ghost use Rattle.expander_model.specs.Limits.{sized};
ghost use Rattle.expander_model.specs.World.{made, world};
ghost use Rattle.textual_scope.specs.Keywords.{HasNoKeyword};
ghost use Rattle.expander_scope.specs.Expanding.{Expands, answer, left_within, limits_at};
ghost use Rattle.expander_scope.specs.Expanding.{limits_for, list_under, result_under};
ghost use Rattle.expander_scope.specs.Spending.{BurstsFirst, BurstsIn, Searched, Spends, Stops};
ghost use Rattle.expander_scope.specs.Spending.{TakesBack, notes_with, passing, with_left};
ghost use Rattle.expander_scope.specs.ListsLeft.{IsAhead, Place};
ghost use Rattle.expander_scope.specs.LocalTables.{AreReadIn};
ghost use Rattle.expander_scope.specs.Outcomes.{parts_for, parts_of};
ghost use Rattle.expander_scope.specs.ScopeTable.{AreRead, expanded_under};
ghost use Rattle.expander_scope.specs.Turns.{GoesUnder, IsAt, IsPlainAhead, left_under};

mod answer;
mod passing;
mod search;

use crate::environment::Environment;
use crate::event_sink::EventSink;
use crate::expand::answer::{Counted, answer};
use crate::expand::passing::{
    define, keep_call, pass_call, pass_event, show_leaf, stay, stop_at, told_of,
};
use crate::expand::search::{Search, left_within, limits_at, limits_for, resolve, take_back};
use crate::list_walk::{ListWalk, definition_ahead, out_ahead};
use crate::locals::Locals;
use crate::outcome::{Event, Expanding, Outcome};
use expander_model::begun::Begun;
use expander_model::call::{Beginning, Call, beginning_of, call_at, call_behind_colons};
use expander_model::dialect::Dialect;
use expander_model::fault::is_definition_word;
use expander_model::mbe::FragmentGrammar;
use expander_model::scope_rules::{ScopeRules, Standing};
use expander_model::tree_walk::TreeWalk;
use std::alloc::{AllocError, Global};
use tt::{TopSubtree, TtIter};
use tt_data::{Span, TtFault};

// The definition with which a piece begins at the present place, and what follows it. `None` in
// the midst of a piece, and where lists have no definitions.
#[inline(always)]
fn piece_ahead<'a>(rules: ScopeRules, walk: &ListWalk<'a>) -> Option<(TtIter<'a>, TtIter<'a>)>
    ensures some { IfSome result (λ found. (walk.now.begun ≡ Begun.Nothing)
        × (rules ≡ ScopeRules.Rust) × IsAhead walk.now.trees.here (Some found)) }
    ensures none { IfNone result (rules ≡ ScopeRules.Rust → walk.now.begun ≡ Begun.Nothing →
        IsAhead walk.now.trees.here None) }
{
    if walk.begun == Begun::Nothing && rules == ScopeRules::Rust {
        definition_ahead(&walk.trees.here)
    } else {
        None
    }
}

// Searches what a call gives, within what is left behind it. `false` if a limit is passed.
#[cycle(searching)]
fn search_result<G: FragmentGrammar, S: EventSink>(
    env: &Environment<'_, G>,
    at: Span,
    search: &mut Search<S>,
    standing: Standing,
    made: &Counted<TopSubtree>,
) -> Result<bool, TtFault>
    requires deep { 0 < env.now.depth }
    requires read { AreRead env.now.scope.now }
    requires locals { AreReadIn env.now.scope.now.edition search.old.locals }
    ensures done { let a = result_under (G.answer env.now.grammar.now) env.now.scope.now
        env.now.dialect.now env.now.depth standing at search.old.locals made.now.given.inner in
        IfOk result (λ done. done ≡ true → Searched S.has_taken
        (with_left search.old made.now.left) search.new a a.outcome.finds) }
    ensures stops { let a = result_under (G.answer env.now.grammar.now) env.now.scope.now
        env.now.dialect.now env.now.depth standing at search.old.locals made.now.given.inner in
        IfOk result (λ done. done ≡ false → Stops S.has_taken
        (with_left search.old made.now.left) search.new a.outcome.finds) }
    ensures read { OnOk result (AreReadIn env.now.scope.now.edition search.new.locals) }
    ensures tokens { let a = result_under (G.answer env.now.grammar.now) env.now.scope.now
        env.now.dialect.now env.now.depth standing at search.old.locals made.now.given.inner in
        result ≡ Err TtFault.Tokens → BurstsIn made.now.left a.outcome }
{
    search.left = made.left;
    let trees = made.given.token_trees();
    search_list(&env.deeper(), Some(at), search, standing, &trees.iter())
}

// Searches what a call gives: outside of other calls within the limits of the dialect, or else
// within those of the outermost call, of which so much is left behind this one. `false` if a limit
// is passed. Then what was added for an outermost call is taken back, but for its look-ups.
#[cycle(searching)]
fn replace<G: FragmentGrammar, S: EventSink>(
    env: &Environment<'_, G>,
    outer: Option<Span>,
    at: Span,
    search: &mut Search<S>,
    standing: Standing,
    made: &Counted<TopSubtree>,
) -> Result<bool, TtFault>
    requires deep { 0 < env.now.depth }
    requires read { AreRead env.now.scope.now }
    requires locals { AreReadIn env.now.scope.now.edition search.old.locals }
    requires left { outer ≡ None → search.old.left ≡ None }
    ensures done { let a = result_under (G.answer env.now.grammar.now) env.now.scope.now
        env.now.dialect.now env.now.depth standing at search.old.locals made.now.given.inner in
        (n : ℕ) → Spends (limits_for env.now.dialect.now outer search.old.left) made.now.left
        (sized 1 n) → IfOk result (λ done. done ≡ true → Searched S.has_taken search.old search.new
        a (notes_with n a.outcome.finds)) }
    ensures fits { let a = result_under (G.answer env.now.grammar.now) env.now.scope.now
        env.now.dialect.now env.now.depth standing at search.old.locals made.now.given.inner in
        (n : ℕ) → Spends (limits_for env.now.dialect.now outer search.old.left) made.now.left
        (sized 1 n) → IfOk result (λ done. done ≡ true →
        passing (limits_at env.now.dialect.now outer) (notes_with n a.outcome.finds) ≡ None) }
    ensures stops { let a = result_under (G.answer env.now.grammar.now) env.now.scope.now
        env.now.dialect.now env.now.depth standing at search.old.locals made.now.given.inner in
        (n : ℕ) → Spends (limits_for env.now.dialect.now outer search.old.left) made.now.left
        (sized 1 n) → IfOk result (λ done. done ≡ false → is_some outer ≡ true →
        Stops S.has_taken search.old search.new (notes_with n a.outcome.finds)) }
    ensures back { let a = result_under (G.answer env.now.grammar.now) env.now.scope.now
        env.now.dialect.now env.now.depth standing at search.old.locals made.now.given.inner in
        (n : ℕ) → Spends (limits_for env.now.dialect.now outer search.old.left) made.now.left
        (sized 1 n) → IfOk result (λ done. done ≡ false → is_some outer ≡ false →
        TakesBack S.has_taken (limits_at env.now.dialect.now outer) search.old search.new
        (notes_with n a.outcome.finds)) }
    ensures read { OnOk result (AreReadIn env.now.scope.now.edition search.new.locals) }
    ensures tokens { let a = result_under (G.answer env.now.grammar.now) env.now.scope.now
        env.now.dialect.now env.now.depth standing at search.old.locals made.now.given.inner in
        (n : ℕ) → Spends (limits_for env.now.dialect.now outer search.old.left) made.now.left
        (sized 1 n) → result ≡ Err TtFault.Tokens → (a.outcome.bursts ≡ true)
        × (BurstsFirst search.old.left (notes_with n a.outcome.finds)
        × BurstsFirst (limits_at env.now.dialect.now outer) (notes_with n a.outcome.finds)) }
{
    let limits = limits_at(env.dialect, outer);
    if limits.is_none() {
        return search_result(env, at, search, standing, made);
    }
    let mark = search.out.output.mark();
    let told = search.out.faults.len();
    let around = search.locals.len();
    let done = search_result(env, at, search, standing, made)?;
    search.left = None;
    if !done {
        take_back(search, mark, told, around);
    }
    Ok(done)
}

// Expands the call at the head of the trees, and passes it. Its result is searched with one level
// less.
//
// A call with a fault is emitted as it is. If the name resolves to nothing, the call is emitted
// with its group searched. `false` if a limit of the outermost call is passed.
#[cycle(searching)]
fn expand_call<'a, G: FragmentGrammar, S: EventSink>(
    env: &Environment<'_, G>,
    outer: Option<Span>,
    search: &mut Search<S>,
    walk: &mut ListWalk<'a>,
    call: Call<'a>,
) -> Result<bool, TtFault>
    requires call { call_at walk.old.trees.here ≡ Some call }
    requires read { AreRead env.now.scope.now }
    requires locals { AreReadIn env.now.scope.now.edition search.old.locals }
    requires left { outer ≡ None → search.old.left ≡ None }
    ensures turn { IfOk result (λ more. more ≡ true → (p : Place) →
        IsAt walk.old search.old.locals p → IsPlainAhead env.now.dialect.now p →
        GoesUnder (G.answer env.now.grammar.now) env.now.scope.now env.now.dialect.now
        env.now.depth outer S.has_taken p search.old search.new walk.old walk.new) }
    ensures stops { IfOk result (λ more. more ≡ false → (p : Place) →
        IsAt walk.old search.old.locals p → IsPlainAhead env.now.dialect.now p →
        Stops S.has_taken search.old search.new
        (left_under (G.answer env.now.grammar.now) env.now.scope.now env.now.dialect.now
        env.now.depth outer p).0.finds) }
    ensures read { IfOk result (λ more. more ≡ false →
        AreReadIn env.now.scope.now.edition search.new.locals) }
    ensures tokens { result ≡ Err TtFault.Tokens → (p : Place) →
        IsAt walk.old search.old.locals p → IsPlainAhead env.now.dialect.now p →
        BurstsIn search.old.left
        (left_under (G.answer env.now.grammar.now) env.now.scope.now env.now.dialect.now
        env.now.depth outer p).0 }
{
    let Some(known) = resolve(env, search, &walk.trees.here, &call)? else {
        keep_call(env.alloc, outer, search, walk, call.from_group)?;
        return Ok(true);
    };
    let at = outer.unwrap_or(call.name.span);
    let limits = limits_for(env.dialect, outer, search.left);
    let tried = answer(env, known.as_ref(), &call.argument, at, limits)?;
    let Some(Counted { given, left }) = tried else {
        return Ok(stop_at(env.alloc, outer, search, walk, call, at)?);
    };
    match given {
        Ok(given) => {
            let made = Counted { given, left };
            if !replace(env, outer, at, search, walk.standing, &made)? {
                return Ok(stop_at(env.alloc, outer, search, walk, call, at)?);
            }
            pass_call(env.dialect, walk, call);
            Ok(true)
        }
        Err(kind) => {
            search.left = left_within(outer, left);
            let told = told_of(env.dialect, walk.standing, kind, at);
            stay(env.alloc, outer, search, walk, call, told)?;
            Ok(true)
        }
    }
}

// Searches a list for calls and definitions, and the lists in its groups. Each event gets `outer`,
// the span of the name of the outermost call that it comes from, if any. `false` if a limit of
// that call is passed.
#[cycle(searching)]
fn search_list<G: FragmentGrammar, S: EventSink>(
    env: &Environment<'_, G>,
    outer: Option<Span>,
    search: &mut Search<S>,
    standing: Standing,
    trees: &TtIter<'_>,
) -> Result<bool, TtFault>
    requires read { AreRead env.now.scope.now }
    requires locals { AreReadIn env.now.scope.now.edition search.old.locals }
    requires left { outer ≡ None → search.old.left ≡ None }
    ensures done { let a = list_under (G.answer env.now.grammar.now) env.now.scope.now
        env.now.dialect.now env.now.depth standing outer search.old.locals trees.now in
        IfOk result (λ done. done ≡ true →
        Searched S.has_taken search.old search.new a a.outcome.finds) }
    ensures stops { let a = list_under (G.answer env.now.grammar.now) env.now.scope.now
        env.now.dialect.now env.now.depth standing outer search.old.locals trees.now in
        IfOk result (λ done. done ≡ false →
        Stops S.has_taken search.old search.new a.outcome.finds) }
    ensures read { OnOk result (AreReadIn env.now.scope.now.edition search.new.locals) }
    ensures tokens { let a = list_under (G.answer env.now.grammar.now) env.now.scope.now
        env.now.dialect.now env.now.depth standing outer search.old.locals trees.now in
        result ≡ Err TtFault.Tokens → BurstsIn search.old.left a.outcome }
{
    let mut walk = ListWalk::new(env.alloc, trees, standing);
    'turns: loop {
        if let Some(rest) = out_ahead(env.dialect, &walk)? {
            walk.trees.go_on(rest);
            continue 'turns;
        }
        if let Some((piece, rest)) = piece_ahead(env.dialect.scope, &walk) {
            define(env, outer, search, walk.standing, &piece)?;
            walk.trees.go_on(rest);
            continue 'turns;
        }
        match beginning_of(&walk.trees.here) {
            Beginning::Call(call) => {
                if !expand_call(env, outer, search, &mut walk, call)? {
                    return Ok(false);
                }
            }
            Beginning::BehindColons(call) => {
                keep_call(env.alloc, outer, search, &mut walk, call.from_group)?;
            }
            Beginning::Leaf(leaf, rest) => {
                walk.trees.go_on(rest);
                show_leaf(&mut search.out.output, leaf, walk.begun, outer)?;
                walk.begun = walk.begun.with_leaf(leaf);
            }
            Beginning::Other => {
                if !pass_event(outer, search, &mut walk, false)? {
                    return Ok(true);
                }
            }
        }
    }
}

// Whether nothing is left out, and the trees have no call, nothing that would be one but for the
// `::` before it, and where lists have definitions no keyword of one. Such trees stay as they are.
fn is_quiet(alloc: Global, dialect: &Dialect, trees: &TtIter<'_>) -> Result<bool, AllocError>
    ensures whole { IfOk result (λ quiet. quiet ≡ true → dialect.now.cfg ≡ None) }
    ensures calls { IfOk result (λ quiet. quiet ≡ true →
        (world : World Numbered) (scope : List ℕ → Option Numbered) (deeper : Deeper Numbered)
        (outer : Option Span) →
        search_calls world scope deeper outer (marked trees.now) ≡ just outer (walk trees.now)) }
    ensures words { IfOk result (λ quiet. quiet ≡ true → dialect.now.scope ≡ ScopeRules.Rust →
        HasNoKeyword trees.now) }
{
    if dialect.cfg.is_some() {
        return Ok(false);
    }
    let mut rest = TreeWalk::new(alloc, trees);
    'steps: loop {
        if call_at(&rest.here).is_some() {
            return Ok(false);
        }
        if call_behind_colons(&rest.here).is_some() {
            return Ok(false);
        }
        let Some(step) = rest.next()? else {
            return Ok(true);
        };
        if dialect.scope == ScopeRules::Rust && is_definition_word(&step) {
            return Ok(false);
        }
    }
}

// The result of a tree without calls: the tree itself.
fn unchanged(alloc: Global) -> Outcome
    ensures { (tree : Forest) → parts_for tree result
        ≡ record { steps = placed None (walk tree); faults = []; finds = [] } }
{
    Outcome {
        steps: None,
        faults: Vec::new(alloc),
        finds: Vec::new(alloc),
    }
}

/// Expands a tree in an environment, by its dialect, and hands its events to a sink. A call that
/// fails stays, and its fault is in the result.
///
/// # Errors
///
/// `Memory`. `Tokens`, only if a rule that is tried for a call puts out more than `u32::MAX`
/// tokens.
pub fn expand_into<G: FragmentGrammar, S: EventSink>(
    env: &Environment<'_, G>,
    tree: &TopSubtree,
    sink: S,
) -> Result<Expanding<S>, TtFault>
    requires { AreRead env.now.scope.now }
    ensures expands { IfOk result (λ given. Expands S.has_taken sink given
        (expanded_under (G.answer env.now.grammar.now) env.now.scope.now env.now.dialect.now
        env.now.depth tree.now.inner)) }
    ensures tokens { result ≡ Err TtFault.Tokens →
        (expanded_under (G.answer env.now.grammar.now) env.now.scope.now env.now.dialect.now
        env.now.depth tree.now.inner).bursts ≡ true }
{
    let mut search = Search {
        out: Expanding {
            output: sink,
            faults: Vec::new(env.alloc),
            finds: Vec::new(env.alloc),
        },
        locals: Locals::new(env.alloc),
        left: None,
    };
    if !search_list(env, None, &mut search, Standing::Top, &tree.iter())? {
        unreachable!()
    }
    Ok(search.out)
}

/// Expands a tree in an environment into a list of events, as `expand_into` does.
///
/// # Errors
///
/// As `expand_into`.
pub fn expand_piece<G: FragmentGrammar>(
    env: &Environment<'_, G>,
    tree: &TopSubtree,
) -> Result<Outcome, TtFault>
    requires { AreRead env.now.scope.now }
    ensures outcome { IfOk result (λ o. parts_for tree.now.inner o ≡ parts_of
        (expanded_under (G.answer env.now.grammar.now) env.now.scope.now env.now.dialect.now
        env.now.depth tree.now.inner)) }
    ensures tokens { result ≡ Err TtFault.Tokens →
        (expanded_under (G.answer env.now.grammar.now) env.now.scope.now env.now.dialect.now
        env.now.depth tree.now.inner).bursts ≡ true }
{
    let alloc = env.alloc;
    let quiet = is_quiet(alloc, env.dialect, &tree.iter())?;
    if quiet {
        return Ok(unchanged(alloc));
    }
    let room = tree.token_trees().len().next_power_of_two();
    let steps: Vec<Event> = Vec::with_capacity(alloc, room)?;
    let Expanding {
        output,
        faults,
        finds,
    } = expand_into(env, tree, steps)?;
    Ok(Outcome {
        steps: Some(output),
        faults,
        finds,
    })
}
