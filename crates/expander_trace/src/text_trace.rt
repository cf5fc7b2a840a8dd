//! Traces the calls of a text, or those at a byte of it.
ghost use Rattle.std.specs.Prelude.{◌≡◌, ◌<◌, ◌^◌, ◌++◌, [], Err, IfOk, IsOkUnless, List, OnOk};
ghost use Rattle.std.specs.Prelude.{◌+◌, None, Some, if◌then◌else◌, length, map};
ghost use Rattle.tt_data.specs.Forest.{Forest};
ghost use Rattle.tt_data.specs.fault.TtFault.TheVariants as fault;
ghost use Rattle.bridge.specs.ReadText.{HasTooMany};
ghost use Rattle.bridge.specs.TokenSteps.{text_reading, text_steps};
ghost use Rattle.expander_model.specs.Definitions.{Definition, definition_of};
ghost use Rattle.expander_model.specs.Meaning.{definitions_after};
ghost use Rattle.expander_model.specs.Pieces.{cut};
ghost use Rattle.expander_scope.specs.ScopeTable.{AreRead};
ghost use Rattle.call_expansion.specs.InScope.{HasInScope};
ghost use Rattle.expander_trace.specs.Given.{trace_in};
ghost use Rattle.expander_trace.specs.Parts.{Part};
ghost use Rattle.expander_trace.specs.Steps.{rewrites};
ghost use Rattle.expander_trace.specs.Texts.{IsTracedIn, is_around, is_last, is_listed};
ghost use Rattle.expander_trace.specs.Texts.{member_part, by_trees, listed, traces_after};
ghost use Rattle.expander_trace.specs.declared.limits.Cut.TheVariants.{Definitions};

use crate::limits::{Cut, Limits, Room};
use crate::list::{may_define, trace_list};
use crate::step::Trace;
use crate::tracing::Tracing;
use bridge::{Read, ReadFault};
use call_expansion::around::calls_around;
use call_expansion::definitions::{define, scope_behind};
use call_expansion::reading::read_text;
use call_expansion::text_call::CallOptions;
use expander_model::definition::definition_of;
use expander_model::split::next_piece;
use expander_scope::scope::Scope;
use expander_sources::prelude::Prelude;
use mbe::FragmentGrammar;
use std::alloc::{AllocError, Global};
use tt::TtIter;
use tt_data::TtFault;

/// What is traced of a text.
#[derive(Drop)]
pub enum Found {
    /// The text cannot be read as trees.
    Unread(ReadFault),
    /// The traces of its pieces, in order, each with its room behind it. A piece without steps that
    /// is not cut has none.
    Traces(Vec<Trace>),
}

// Whether a piece has calls that are asked for.
fn is_around(alloc: Global, piece: &TtIter<'_>, at: Option<u32>) -> Result<bool, AllocError>
    ensures { IfOk result (λ around. around ≡ is_around at piece.now) }
{
    match at {
        None => Ok(true),
        Some(at) => Ok(!calls_around(alloc, piece, at)?.is_empty()),
    }
}

// Traces a piece that may have definitions of its own: it is not looked into.
fn pass_over(
    alloc: Global,
    piece: &TtIter<'_>,
    at: Option<u32>,
    trace: &mut Trace,
) -> Result<(), AllocError>
    ensures steps { trace.new.steps ≡ trace.old.steps }
    ensures left { trace.new.room.left ≡ trace.old.room.left }
    ensures cut { OnOk result (trace.new.room.cut
        ≡ (if is_around at piece.now then Some Definitions else trace.old.room.cut)) }
{
    if is_around(alloc, piece, at)? {
        trace.room.cut = Some(Cut::Definitions);
    }
    Ok(())
}

// A trace without steps.
fn untraced(alloc: Global, left: Limits) -> Trace
    ensures steps { result.steps.items ≡ [] }
    ensures room { result.room ≡ record { left = left; cut = None } }
{
    Trace {
        steps: Vec::new(alloc),
        room: Room::new(left),
    }
}

// By what the calls of a piece are traced.
fn tracing_by<'a, G>(
    alloc: Global,
    by: &CallOptions<'a, G>,
    scope: &'a Scope,
    depth: u8,
) -> Tracing<'a, G>
    ensures is { result ≡ record {
      alloc = alloc;
      grammar = by.now.grammar;
      scope = scope.entry;
      rules = by.now.dialect.now.scope;
      depth = depth;
      level = 0;
    } }
    ensures counted { result.level + result.depth < 256 }
{
    Tracing {
        alloc,
        grammar: by.grammar,
        scope,
        rules: by.dialect.scope,
        depth,
        level: 0,
    }
}

// Traces a piece in the scope of the definitions before it: a definition has no steps. Out of
// memory is its only error.
fn piece_trace<G: FragmentGrammar>(
    alloc: Global,
    by: &CallOptions<'_, G>,
    scope: &Scope,
    piece: &TtIter<'_>,
    at: Option<u32>,
    left: Limits,
) -> Result<Trace, TtFault>
    requires read { AreRead scope.now }
    requires edition { scope.now.edition ≡ by.now.edition }
    ensures trace { (before : List Definition) →
        HasInScope by.now.dialect.now scope.now before → IfOk result (λ t. trace_in t
        ≡ by_trees (member_part (rewrites (G.answer by.now.grammar.now) by.now.edition)
        by.now.dialect.now by.now.depth at left before piece.now (definition_of piece.now))) }
    ensures memory { IsOkUnless result fault.Memory }
{
    let mut trace = untraced(alloc, left);
    if definition_of(piece).is_some() {
        return Ok(trace);
    }
    if may_define(alloc, by.dialect.scope, piece)? {
        pass_over(alloc, piece, at, &mut trace)?;
        return Ok(trace);
    }
    let tracing = tracing_by(alloc, by, scope, by.depth);
    trace_list(&tracing, at, piece, &mut trace)?;
    Ok(trace)
}

// Whether there is something to tell of a trace.
fn is_listed(trace: &Trace) -> bool
    ensures { result ≡ is_listed (trace_in trace.now) }
{
    !trace.steps.is_empty() || trace.room.cut.is_some()
}

// Whether no piece is traced behind this one.
fn is_last(at: Option<u32>, trace: &Trace) -> bool
    ensures { result ≡ is_last at (trace_in trace.now) }
{
    if at.is_some() && is_listed(trace) {
        return true;
    }
    match trace.room.cut {
        Some(Cut::Steps) | Some(Cut::Tokens) => true,
        Some(Cut::Definitions) | None => false,
    }
}

// Adds a trace, if there is something to tell of it.
fn add_listed(traces: &mut Vec<Trace>, trace: Trace) -> Result<(), AllocError>
    ensures { OnOk result ((more : List (Part Forest)) →
        map trace_in traces.new.items ++ more
        ≡ map trace_in traces.old.items ++ listed (trace_in trace) more) }
{
    if is_listed(&trace) {
        traces.push(trace)?;
    }
    Ok(())
}

// Traces pieces, each in the scope of those before it. Out of memory is its only error.
fn trace_pieces<G: FragmentGrammar>(
    alloc: Global,
    by: &CallOptions<'_, G>,
    scope: &mut Scope,
    trees: &TtIter<'_>,
    at: Option<u32>,
    limits: Limits,
) -> Result<Vec<Trace>, TtFault>
    requires read { AreRead scope.old }
    requires edition { scope.old.edition ≡ by.now.edition }
    ensures traces { (before : List Definition) →
        HasInScope by.now.dialect.now scope.old before → IfOk result (λ ts. map trace_in ts.items
        ≡ map by_trees
        (traces_after (rewrites (G.answer by.now.grammar.now) by.now.edition)
        by.now.dialect.now by.now.depth at limits before (cut trees.now))) }
    ensures memory { IsOkUnless result fault.Memory }
{
    let mut traces = Vec::new(alloc);
    let mut left = limits;
    let mut rest = trees.copied();
    while let Some(piece) = next_piece(&mut rest) {
        let trace = piece_trace(alloc, by, scope, &piece, at, left)?;
        left = trace.room.left;
        let last = is_last(at, &trace);
        add_listed(&mut traces, trace)?;
        if last {
            return Ok(traces);
        }
        define(alloc, by.dialect, scope, &piece)?;
    }
    Ok(traces)
}

/// The steps of the calls of a text that is expanded after a prelude, piece by piece, or those of
/// the calls whose bytes contain a byte. They are within one limit for all pieces.
///
/// A call is looked up, and its rules are tried, as the expansion of the text does; limits of the
/// dialect on what a call makes play no part, nor do conditions within a piece. Where names find
/// definitions of lists too, trees that may have such definitions are not looked into.
///
/// The text is read as new.
///
/// # Errors
///
/// `Memory`. `Tokens`, only if what is read of the text has more than `u32::MAX` tokens, which doc
/// comments alone can bring about.
pub fn trace_in_text<G: FragmentGrammar>(
    alloc: Global,
    text: &str,
    by: &CallOptions<'_, G>,
    prelude: &Prelude,
    at: Option<u32>,
    limits: Limits,
) -> Result<Found, TtFault>
    requires { length text.now < 2 ^ 32 }
    ensures traced { IfOk result (IsTracedIn
        (rewrites (G.answer by.now.grammar.now) by.now.edition) by.now.dialect.now by.now.depth at
        limits (definitions_after [] prelude.now) (text_reading text.now)) }
    ensures tokens { result ≡ Err fault.Tokens → HasTooMany (text_steps text.now) }
{
    let tree = match read_text(alloc, text)? {
        Read::Fault(fault) => return Ok(Found::Unread(fault)),
        Read::Tree(tree) => tree,
    };
    let mut scope = scope_behind(alloc, by.edition, by.dialect, prelude)?;
    let traces = trace_pieces(alloc, by, &mut scope, &tree.iter(), at, limits)?;
    Ok(Found::Traces(traces))
}
