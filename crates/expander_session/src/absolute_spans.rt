//! Emits a piece's cached output, with its piece-relative spans turned into spans of their texts.
//!
//! `evaluate` calls it for each piece. `start` is where the piece starts in the text, and
//! `starts` is where the definitions start.
ghost use Rattle.std.specs.Prelude.{◌≡◌, ◌∷◌, [], ◌++◌, IfOk, IfSome, None, OnOk, option_map, map};
ghost use Rattle.bridge.specs.RelativeSpans.{moved_to};
ghost use Rattle.bridge.specs.TokenEvents.{step_of};
ghost use Rattle.tt_data.specs.Lent.{leaf_lent};
ghost use Rattle.tt_data.specs.Spans.{leaf_with, span_of};
ghost use Rattle.tt_data.specs.Walk.{at_leaf, step_with, walk};
ghost use Rattle.tt_data.specs.declared.span.Span.{Span};
ghost use Rattle.expander_model.specs.Expansion.{placed};
ghost use Rattle.expander_session.specs.CachedOutputs.{EmitsCached};
ghost use Rattle.expander_session.specs.Emitting.{PutsOut};
ghost use Rattle.expander_scope.specs.Outcomes.{placed_of, steps_for};
ghost use Rattle.expander_session.specs.AbsoluteSpans.{base_at, range_from, resolved_by};
ghost use Rattle.expander_session.specs.AbsoluteSpans.{resolved_faults, resolved_steps};
ghost use Rattle.expander_session.specs.AbsoluteSpans.{told_if_broken};

use crate::cached_output::CachedText;
use crate::emitter::{Emitter, emit_chunk, emit_chunk_at, push_step};
use bridge::parts::{Place, Shift, TokenEvent};
use expander_model::fault::{Fault, FaultKind};
use expander_model::tree_walk::TreeWalk;
use expander_scope::macro_def::MacroDef;
use expander_scope::offsets::Offsets;
use expander_scope::outcome::{Event, lent};
use std::alloc::{AllocError, Global};
use tt::TopSubtree;
use tt_data::{IdentRef, LeafRef, Punct, Span, TextRange};

// The place that spans with this anchor count from.
fn base_at(start: u32, starts: &Offsets, anchor: u32) -> Place
    ensures { result ≡ base_at start starts.now anchor }
{
    if anchor == 0 {
        Place { text: 0, start }
    } else {
        starts.get(anchor)
    }
}

// A range counted from `base`, as a range of its text. `None` if it exceeds `u32::MAX`, which
// happens in no text.
fn range_from(base: u32, range: TextRange) -> Option<TextRange>
    ensures { IfSome result (λ r. r ≡ range_from base range) }
{
    let start = base.checked_add(range.start)?;
    let end = base.checked_add(range.end)?;
    Some(TextRange { start, end })
}

// A span counted from `base`, as a span of its text. `None` if it exceeds `u32::MAX`, which
// happens in no text.
fn resolved_from(base: Place, span: Span) -> Option<Span>
    ensures { IfSome result (λ s. s ≡ moved_to base span) }
{
    Some(Span {
        range: range_from(base.start, span.range)?,
        anchor: base.text,
        ctx: span.ctx,
    })
}

// A piece-relative span as a span of its text. `None` if it exceeds `u32::MAX`, which happens in
// no text.
fn resolved(start: u32, starts: &Offsets, span: Span) -> Option<Span>
    ensures { IfSome result (λ s. s ≡ resolved_by start starts.now span) }
{
    resolved_from(base_at(start, starts, span.anchor), span)
}

// The span of the outermost call as a span of its text, or `Some(None)` if there is no call.
fn resolved_outer(start: u32, starts: &Offsets, outer: Option<Span>) -> Option<Option<Span>>
    ensures { IfSome result (λ o. o ≡ option_map (resolved_by start starts.now) outer) }
{
    match outer {
        None => Some(None),
        Some(span) => Some(Some(resolved(start, starts, span)?)),
    }
}

// The leaf with this span.
fn leaf_at<'a>(leaf: LeafRef<'a>, span: Span) -> LeafRef<'a>
    ensures { (f : Span → Span) → span ≡ f (span_of (leaf_lent leaf.entry)) → leaf_lent result
        ≡ leaf_with f (leaf_lent leaf.entry) }
{
    match leaf {
        LeafRef::Literal(literal) => LeafRef::Literal(literal.with_span(span)),
        LeafRef::Punct(punct) => LeafRef::Punct(Punct { span, ..punct }),
        LeafRef::Ident(ident) => LeafRef::Ident(IdentRef { span, ..ident }),
    }
}

// Emits a leaf of a piece.
fn emit_leaf(
    steps: &mut Emitter,
    start: u32,
    starts: &Offsets,
    leaf: LeafRef<'_>,
    outer: Option<Span>,
) -> Result<(), AllocError>
    ensures { OnOk result (PutsOut steps.old steps.new
        (placed outer (step_with (resolved_by start starts.now)
        (at_leaf (leaf_lent leaf.entry)) ∷ []))) }
{
    let Some(span) = resolved(start, starts, leaf.span()) else {
        return Err(AllocError);
    };
    let leaf = leaf_at(leaf, span);
    push_step(steps, &TokenEvent::Leaf(leaf), outer)
}

// Emits an event of a piece. `outer` is the span of the outermost call that it comes from, if
// any.
fn emit_event(
    steps: &mut Emitter,
    start: u32,
    starts: &Offsets,
    step: &TokenEvent<'_>,
    outer: Option<Span>,
) -> Result<(), AllocError>
    ensures { OnOk result (PutsOut steps.old steps.new
        (placed outer (step_with (resolved_by start starts.now) (step_of step.now) ∷ []))) }
{
    match step {
        TokenEvent::Leaf(leaf) => emit_leaf(steps, start, starts, *leaf, outer),
        TokenEvent::Opens(kind, span) => match resolved(start, starts, *span) {
            Some(span) => push_step(steps, &TokenEvent::Opens(*kind, span), outer),
            None => Err(AllocError),
        },
        TokenEvent::Closes(kind, span) => match resolved(start, starts, *span) {
            Some(span) => push_step(steps, &TokenEvent::Closes(*kind, span), outer),
            None => Err(AllocError),
        },
    }
}

// Emits a cached event.
fn emit_own_event(
    steps: &mut Emitter,
    start: u32,
    starts: &Offsets,
    step: &Event,
) -> Result<(), AllocError>
    ensures { OnOk result (PutsOut steps.old steps.new
        (resolved_steps start starts.now (placed_of step.now ∷ []))) }
{
    match resolved_outer(start, starts, step.outer) {
        Some(outer) => emit_event(steps, start, starts, &lent(&step.kind), outer),
        None => Err(AllocError),
    }
}

// Emits cached events, in order.
fn emit_own_events(
    steps: &mut Emitter,
    start: u32,
    starts: &Offsets,
    own: &[Event],
) -> Result<(), AllocError>
    ensures { OnOk result (PutsOut steps.old steps.new
        (resolved_steps start starts.now (map placed_of own.now))) }
{
    for step in own {
        emit_own_event(steps, start, starts, step)?;
    }
    Ok(())
}

// Emits all events of a tree.
fn emit_tree(
    alloc: Global,
    steps: &mut Emitter,
    start: u32,
    starts: &Offsets,
    tree: &TopSubtree,
) -> Result<(), AllocError>
    ensures { OnOk result (PutsOut steps.old steps.new
        (resolved_steps start starts.now (placed None (walk tree.now.inner)))) }
{
    let mut rest = TreeWalk::new(alloc, &tree.iter());
    while let Some(step) = rest.next()? {
        emit_event(steps, start, starts, &step, None)?;
    }
    Ok(())
}

/// Emits the events of a piece: those of its tree, or the cached ones if there are any.
pub(crate) fn emit_events(
    alloc: Global,
    steps: &mut Emitter,
    start: u32,
    starts: &Offsets,
    tree: &TopSubtree,
    own: &Option<Vec<Event>>,
) -> Result<(), AllocError>
    ensures { OnOk result (PutsOut steps.old steps.new
        (resolved_steps start starts.now
        (steps_for tree.now.inner (option_map (λ s. s.items) own.now)))) }
{
    match own {
        None => emit_tree(alloc, steps, start, starts, tree),
        Some(own) => emit_own_events(steps, start, starts, own.as_slice()),
    }
}

// The place that the spans of one anchor count from.
#[derive(Clone, Copy)]
struct Base {
    anchor: u32,
    place: Place,
}

// The base of this anchor. It is looked up only if the anchor differs from that of `last`.
fn base_behind(last: Base, start: u32, starts: &Offsets, anchor: u32) -> Base
    requires { last.place ≡ base_at start starts.now last.anchor }
    ensures place { result.place ≡ base_at start starts.now anchor }
    ensures anchor { result.anchor ≡ anchor }
{
    if anchor == last.anchor {
        return last;
    }
    let place = base_at(start, starts, anchor);
    Base { anchor, place }
}

// Piece-relative spans as spans of their texts.
fn resolved_all(
    alloc: Global,
    start: u32,
    starts: &Offsets,
    own: &[Span],
) -> Result<Vec<Span>, AllocError>
    ensures { IfOk result (λ all. all.items ≡ map (resolved_by start starts.now) own.now) }
{
    let mut all = Vec::with_capacity(alloc, own.len())?;
    let mut base = Base {
        anchor: 0,
        place: Place { text: 0, start },
    };
    for span in own {
        base = base_behind(base, start, starts, span.anchor);
        let Some(span) = resolved_from(base.place, *span) else {
            return Err(AllocError);
        };
        all.push(span)?;
    }
    Ok(all)
}

// Appends a cached chunk whose spans have one anchor, without computing them. `false`, with
// nothing emitted, if they have several or the chunk can't be appended.
fn emit_shifted(
    steps: &mut Emitter,
    start: u32,
    starts: &Offsets,
    part: &CachedText,
    words: &[Span],
) -> Result<bool, AllocError>
    requires { words.now ≡ map (resolved_by start starts.now) part.now.words.items }
    ensures { IfOk result (EmitsCached steps.old steps.new part.now start starts.now) }
{
    let Some(anchor) = part.printed.relative_spans().anchor() else {
        return Ok(false);
    };
    let own = Place { text: 0, start };
    let other = base_at(start, starts, anchor);
    emit_chunk_at(steps, &part.printed, Shift { own, other }, words)
}

// Appends a cached chunk, computing each of its spans. `false`, with nothing emitted, if the
// chunk can't be appended.
fn emit_printed(
    alloc: Global,
    steps: &mut Emitter,
    start: u32,
    starts: &Offsets,
    part: &CachedText,
    words: &[Span],
) -> Result<bool, AllocError>
    requires { words.now ≡ map (resolved_by start starts.now) part.now.words.items }
    ensures { IfOk result (EmitsCached steps.old steps.new part.now start starts.now) }
{
    let spans = resolved_all(alloc, start, starts, part.printed.spans())?;
    emit_chunk(steps, &part.printed, spans.as_slice(), words)
}

// Appends a cached chunk, with `words` as the spans of its definition keywords. `false`, with
// nothing emitted, if the chunk can't be appended.
fn emit_told(
    alloc: Global,
    steps: &mut Emitter,
    start: u32,
    starts: &Offsets,
    part: &CachedText,
    words: &[Span],
) -> Result<bool, AllocError>
    requires { words.now ≡ map (resolved_by start starts.now) part.now.words.items }
    ensures { IfOk result (EmitsCached steps.old steps.new part.now start starts.now) }
{
    if emit_shifted(steps, start, starts, part, words)? {
        return Ok(true);
    }
    emit_printed(alloc, steps, start, starts, part, words)
}

/// Appends a piece's cached text. `false`, with nothing emitted, if it can't be appended.
pub(crate) fn emit_cached(
    alloc: Global,
    steps: &mut Emitter,
    start: u32,
    starts: &Offsets,
    part: &CachedText,
) -> Result<bool, AllocError>
    ensures { IfOk result (EmitsCached steps.old steps.new part.now start starts.now) }
{
    let words = part.words.as_slice();
    if words.is_empty() {
        return emit_told(alloc, steps, start, starts, part, words);
    }
    let words = resolved_all(alloc, start, starts, words)?;
    emit_told(alloc, steps, start, starts, part, words.as_slice())
}

// Adds a fault of a piece, with its range in the text.
fn put_fault(
    faults: &mut Vec<Fault>,
    start: u32,
    starts: &Offsets,
    told: &(FaultKind, Span),
) -> Result<(), AllocError>
    ensures { OnOk result (faults.new.items ≡ faults.old.items
        ++ resolved_faults start starts.now (told.now ∷ [])) }
{
    let (kind, span) = *told;
    let Some(span) = resolved(start, starts, span) else {
        return Err(AllocError);
    };
    let range = span.range;
    faults.push(Fault { kind, range })?;
    Ok(())
}

/// Adds faults of a piece, with their ranges in the text.
pub(crate) fn put_faults(
    faults: &mut Vec<Fault>,
    start: u32,
    starts: &Offsets,
    own: &[(FaultKind, Span)],
) -> Result<(), AllocError>
    ensures { OnOk result (faults.new.items ≡ faults.old.items
        ++ resolved_faults start starts.now own.now) }
{
    for told in own {
        put_fault(faults, start, starts, told)?;
    }
    Ok(())
}

/// Adds the fault of an invalid definition that starts at `start`, at its name. Adds nothing if
/// the definition is valid.
pub(crate) fn tell_if_broken(
    faults: &mut Vec<Fault>,
    start: u32,
    known: &MacroDef,
) -> Result<(), AllocError>
    ensures { OnOk result (faults.new.items ≡ faults.old.items ++ told_if_broken start known.now) }
{
    if known.rules.err().is_none() {
        return Ok(());
    }
    let Some(range) = range_from(start, known.place) else {
        return Err(AllocError);
    };
    let kind = FaultKind::BrokenDefinition;
    faults.push(Fault { kind, range })?;
    Ok(())
}
