//! Prints events as they come, and keeps the ranges at which their faults are reported.
ghost use Rattle.std.specs.Prelude.{◌≡◌, ◌∷◌, [], ◌++◌, List, true, IfOk, OnOk, length, map};
ghost use Rattle.bridge.specs.RelativeSpans.{shifted};
ghost use Rattle.bridge.specs.PrintedTrees.{lazy_print_in};
ghost use Rattle.bridge.specs.Printing.{is_visible_step, print_of};
ghost use Rattle.bridge.specs.TokenEvents.{step_of};
ghost use Rattle.expander_model.specs.Expansion.{PlacedStep, placed};
ghost use Rattle.expander_model.specs.Faults.{fault_at};
ghost use Rattle.expander_session.specs.CachedOutputs.{PutsChunk};
ghost use Rattle.expander_session.specs.Emitting.{HasOutput, PutsOut, faults_at, faults_in};
ghost use Rattle.expander_session.specs.Emitting.{told_from, words_told};
ghost use Rattle.expander_model.specs.Printing.{steps_of, visible};
ghost use Rattle.bridge.specs.Printers.{HasPut};
ghost use Rattle.expander_model.specs.declared.fault.FaultKind.TheVariants as as_kind;

use bridge::parts::{LazyPrinted, PrintedChunk, Shift, TokenEvent};
use bridge::{Printer, laws};
use expander_model::fault::{Fault, FaultKind, is_definition_word, place};
use std::alloc::{AllocError, Global};
use tt_data::{DelimiterKind, Span, TextRange};

// The range at which a fault of a visible token is reported, and the number of the token.
#[derive(Clone, Copy)]
struct Told {
    number: usize,
    range: TextRange,
}

/// The output so far. Events are printed at once and not kept: a token takes its text, its span
/// and the range for its faults, and in a chunk its text and its span.
#[derive(Drop)]
pub(crate) struct Emitter {
    printer: Printer,
    // The ranges for faults of the tokens that came one by one. All tokens of a chunk can be
    // printed.
    told: Vec<Told>,
    // The faults of the definition keywords.
    nested: Vec<Fault>,
}

/// No output so far, with room for a text of `bytes` bytes and for `parts` chunks.
pub(crate) fn no_steps(alloc: Global, bytes: usize, parts: usize) -> Result<Emitter, AllocError>
    ensures { IfOk result (λ steps. HasOutput steps []) }
{
    let printer = Printer::with_room(alloc, bytes, parts)?;
    Ok(Emitter {
        printer,
        told: Vec::new(alloc),
        nested: Vec::new(alloc),
    })
}

/// Makes room for `bytes` more bytes of text.
pub(crate) fn reserve(steps: &mut Emitter, bytes: usize) -> Result<(), AllocError>
    ensures { steps.new ≡ steps.old }
{
    steps.printer.reserve(bytes)
}

/// Emits one event. `outer` is the span of the name of the outermost call that it comes from, if
/// any.
pub(crate) fn push_step(
    steps: &mut Emitter,
    step: &TokenEvent<'_>,
    outer: Option<Span>,
) -> Result<(), AllocError>
    ensures { OnOk result (PutsOut steps.old steps.new (placed outer (step_of step.now ∷ []))) }
{
    if is_visible(step) {
        push_place(steps, step, outer)?;
    }
    match steps.printer.put_event(step) {
        Ok(()) => Ok(()),
        Err(_) => Err(AllocError),
    }
}

/// Whether an event is a visible token: all but the ends of invisible groups.
pub(crate) fn is_visible(step: &TokenEvent<'_>) -> bool
    ensures { result ≡ is_visible_step (step_of step.now) }
{
    match step {
        TokenEvent::Leaf(_) => true,
        TokenEvent::Opens(kind, _) | TokenEvent::Closes(kind, _) => *kind
            != DelimiterKind::Invisible,
    }
}

// Keeps the range at which faults of a visible token are reported, and adds the fault of a
// definition keyword.
fn push_place(
    steps: &mut Emitter,
    step: &TokenEvent<'_>,
    outer: Option<Span>,
) -> Result<(), AllocError>
    requires { is_visible_step (step_of step.now) ≡ true }
    ensures told { (before : List PlacedStep) → HasPut steps.old.printer (steps_of before) →
        OnOk result
        (steps.new.told.items ≡ steps.old.told.items
        ++ told_from (length (visible before)) (placed outer (step_of step.now ∷ []))) }
    ensures nested { OnOk result (steps.new.nested.items ≡ steps.old.nested.items
        ++ words_told (placed outer (step_of step.now ∷ []))) }
    ensures printer { steps.new.printer ≡ steps.old.printer }
{
    let range = place(step, outer).range;
    let number = steps.printer.count();
    steps.told.push(Told { number, range })?;
    if is_definition_word(step) {
        let kind = FaultKind::NestedDefinition;
        steps.nested.push(Fault { kind, range })?;
    }
    Ok(())
}

// Adds the fault of a definition keyword at each of these spans.
fn tell_words(nested: &mut Vec<Fault>, words: &[Span]) -> Result<(), AllocError>
    ensures { OnOk result (nested.new.items ≡ nested.old.items
        ++ map (fault_at as_kind.NestedDefinition) words.now) }
{
    for word in words {
        let (kind, range) = (FaultKind::NestedDefinition, word.range);
        nested.push(Fault { kind, range })?;
    }
    Ok(())
}

/// Whether a chunk can be appended here.
pub(crate) fn takes_chunks(steps: &Emitter) -> bool {
    steps.printer.takes_chunks()
}

/// Appends a chunk with its tokens at `spans`, and adds the faults of its definition keywords at
/// `words`. `false`, with nothing emitted, if it cannot be appended here.
pub(crate) fn emit_chunk(
    steps: &mut Emitter,
    part: &PrintedChunk,
    spans: &[Span],
    words: &[Span],
) -> Result<bool, AllocError>
    ensures { IfOk result (PutsChunk steps.old steps.new part.now spans.now words.now) }
{
    laws::chunks_are_printed_whole();
    laws::spelling_depends_on_shapes_alone();
    match steps.printer.put_chunk(part, spans) {
        Ok(true) => {
            tell_words(&mut steps.nested, words)?;
            Ok(true)
        }
        Ok(false) => Ok(false),
        Err(_) => Err(AllocError),
    }
}

/// Appends a chunk with its tokens at their own spans, shifted, and adds the faults of its
/// definition keywords at `words`. `false`, with nothing emitted, if it cannot be appended here.
pub(crate) fn emit_chunk_at(
    steps: &mut Emitter,
    part: &PrintedChunk,
    shift: Shift,
    words: &[Span],
) -> Result<bool, AllocError>
    ensures { IfOk result (PutsChunk steps.old steps.new part.now
        (map (shifted shift) part.now.tokens) words.now) }
{
    laws::chunks_are_printed_whole();
    laws::spelling_depends_on_shapes_alone();
    match steps.printer.put_chunk_at(part, shift) {
        Ok(true) => {
            tell_words(&mut steps.nested, words)?;
            Ok(true)
        }
        Ok(false) => Ok(false),
        Err(_) => Err(AllocError),
    }
}

// Adds a fault for each visible token with one of these numbers. Both lists are in ascending
// order.
fn push_left_out(
    faults: &mut Vec<Fault>,
    told: &[Told],
    numbers: &[usize],
) -> Result<(), AllocError>
    ensures { OnOk result (faults.new.items ≡ faults.old.items ++ faults_at told.now numbers.now) }
{
    let mut next = 0;
    for place in told {
        if next == numbers.len() {
            return Ok(());
        }
        if place.number == numbers[next] {
            let (kind, range) = (FaultKind::Unspellable, place.range);
            faults.push(Fault { kind, range })?;
            next += 1;
        }
    }
    Ok(())
}

/// The text of the output, with the spans of its tokens. Adds the faults of definition keywords,
/// and those of tokens that cannot be printed.
pub(crate) fn finish(steps: Emitter, faults: &mut Vec<Fault>) -> Result<LazyPrinted, AllocError>
    ensures printed { IfOk result (λ p. (all : List PlacedStep) → HasOutput steps all →
        lazy_print_in p ≡ print_of (steps_of all)) }
    ensures faults { OnOk result ((all : List PlacedStep) → HasOutput steps all → faults.new.items
        ≡ faults.old.items ++ faults_in all) }
{
    let Ok(printed) = steps.printer.finish_lazy() else {
        return Err(AllocError);
    };
    faults.extend_from_slice(steps.nested.as_slice())?;
    push_left_out(faults, steps.told.as_slice(), printed.left_out.as_slice())?;
    Ok(printed)
}
